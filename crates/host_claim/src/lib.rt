// Demand 3 at the C boundary: one claim over every list of the calls `emv_open`, `emv_start`, `emv_answer`,
// `emv_link_failed` and `emv_stop` since an accepted `emv_open`, read off their result words and command buffers
// (specs/Claim). And: an opening in such a list is what `emv_open` promises, and each of the four calls on bytes that
// hold a session is the session's own call. The proofs are in proofs/.
#![tactic(auto)]

ghost use Rattle.std.specs.Prelude.{◌≡◌, List, ℕ};
ghost use Rattle.session_record.specs.declared.Session.{Session};
ghost use Rattle.session.specs.Calls.{Call, call_step};
ghost use Rattle.layout.specs.Layout.{decoded_session};
ghost use Rattle.host.specs.Hosted.{HostOpened, host_result_of_step};
ghost use Rattle.host_claim.specs.Calls.{HostCall, opening, host_result_of_call, host_step, play_host_calls, final_session_bytes};
ghost use Rattle.host_claim.specs.Claim.{HostCallsInOrderAndAsSessionCalls};

// Carries the claim, and does nothing.
pub fn host_calls_follow_published_order()
    ensures claim { (before l : List ℕ) (cs : List HostCall) → HostOpened 0 before l
        → HostCallsInOrderAndAsSessionCalls before (play_host_calls l cs) (final_session_bytes l cs) }
    ensures open { (l : List ℕ) → HostOpened (host_step l opening).word l (host_step l opening).session }
    ensures session { (l : List ℕ) (s : Session) (c : Call) → decoded_session l ≡ Some s
        → host_result_of_call l c ≡ host_result_of_step l (call_step s c) }
{}
