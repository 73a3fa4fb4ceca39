// One claim over every list of calls on a cabinet since an accepted opening: what remains, what is reserved and the
// amounts of approved sessions are together the cap (specs/Account). And: but for the cap every call is the kernel's
// (specs/Kernel). The proofs are in proofs/.
#![tactic(auto)]

ghost use Rattle.std.specs.Prelude.{◌≡◌, List, ℕ};
ghost use Rattle.cabinet.specs.State.{Cabinet, greatest_twelve_digit_amount, decoded_cabinet_if_valid};
ghost use Rattle.cabinet.specs.Calls.{cabinet_open_word, cabinet_open_state};
ghost use Rattle.cabinet_claim.specs.Account.{CabinetCall, play_cabinet_calls, final_cabinet_state, RemainingReservedApprovedSumToCap};
ghost use Rattle.cabinet_claim.specs.Kernel.{CabinetCallsAsKernel};

// The most that approvals come to since an opening: no cap is greater.
pub fn approved_within_cap() -> u64
    ensures most { result ≡ greatest_twelve_digit_amount }
    ensures claim { (l : List ℕ) (cap : ℕ) (cs : List CabinetCall) → cabinet_open_word cap l ≡ 0
        → RemainingReservedApprovedSumToCap cap (play_cabinet_calls (cabinet_open_state cap l) cs) (final_cabinet_state (cabinet_open_state cap l) cs) }
    ensures kernel { (c : Cabinet) (l : List ℕ) → decoded_cabinet_if_valid l ≡ Some c → CabinetCallsAsKernel c l }
{
    999999999999
}
