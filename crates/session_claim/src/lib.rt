// Demand 3: one claim over every list of calls. The statement is in specs/Claim, the proof in proofs/. And: every call
// returns a record in its ranges where it was given one, so that the transaction limit stays correct; and the CVM that
// each outcome reports.
#![tactic(auto)]

ghost use Rattle.std.specs.Prelude.{◌≡◌, true, List};
ghost use Rattle.session_record.specs.declared.Session.{Session};
ghost use Rattle.session_record.specs.declared.Phase.{Phase};
ghost use Rattle.session_record.specs.Ranges.{session_record_in_ranges};
ghost use Rattle.session.specs.Calls.{Call, play_calls, final_session, call_step};
ghost use Rattle.session_claim.specs.Claim.{CallsAndSessionAfterInPublishedOrder};
ghost use Rattle.session_claim.specs.ReportedCvm.{StepOutcomeCvmMatchesSessionBefore};

// The most commands that any list of calls hands out.
pub fn every_session_follows_published_order() -> usize
    ensures most { result ≡ 130 }
    ensures claim { (s : Session) (cs : List Call) → s.phase ≡ Phase.Fresh → session_record_in_ranges s ≡ true → CallsAndSessionAfterInPublishedOrder (play_calls s cs) (final_session s cs) }
    ensures ranges { (s : Session) (c : Call) → session_record_in_ranges s ≡ true → session_record_in_ranges (call_step s c).reply.session ≡ true }
    ensures cvms { (s : Session) (c : Call) → StepOutcomeCvmMatchesSessionBefore s (call_step s c) }
{
    130
}
