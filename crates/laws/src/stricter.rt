// Stricter codes never loosen: the rank of a choice, and the rule that added bits never raise it. The statements are in
// specs/Stricter, the proofs in proofs/.
ghost use Rattle.std.specs.Prelude.{◌≡◌};
ghost use Rattle.laws.specs.Rank.{choice_rank, DeclineBelowOnlineBelowOffline};
ghost use Rattle.laws.specs.Stricter.{AddedBitsNeverRaiseChoice, IacAppearingOrLeavingRules};

use analysis::choice::Choice;

// The rank of a choice: decline, then online, then offline.
#[tactic(auto, using(crate::proofs::StricterLaws::ranked, crate::proofs::StricterLaws::never_loosens, crate::proofs::StricterLaws::absent_codes))]
pub fn choice_rank(choice: Choice) -> u8
    ensures rank { result ≡ choice_rank choice }
    ensures ordered { DeclineBelowOnlineBelowOffline }
    ensures stricter { AddedBitsNeverRaiseChoice }
    ensures absent { IacAppearingOrLeavingRules }
{
    match choice {
        Choice::Decline => 0,
        Choice::Online => 1,
        Choice::Offline => 2,
    }
}
