// What is explained over a list of calls: no list leads to a session that cannot be explained, and the choice, the
// stage, the bit and the holder are those of the GENERATE AC that was handed out, but where the last answer brought an
// action code of the card. Also that the rank of a choice is that of the cryptogram that it requests. The statements
// are in specs/Explained, the proofs in proofs/.
#![tactic(auto)]

ghost use Rattle.std.specs.Prelude.{◌≡◌, true, List};
ghost use Rattle.session_record.specs.declared.Session.{Session};
ghost use Rattle.session_record.specs.declared.Phase.{Phase};
ghost use Rattle.session_record.specs.Ranges.{session_record_in_ranges};
ghost use Rattle.session.specs.Calls.{Call, play_calls, final_session};
ghost use Rattle.explain.specs.declared.Explanation.{Explanation as Why};
ghost use Rattle.explain.specs.Word.{explanation_word};
ghost use Rattle.explain_claim.specs.Explained.{ExplanationTrueUnlessLastCallBringsIac, ChoiceRankIsCryptogramRank};

use explain::Explanation;

// The word of a refusal, which no list of calls leads to but by that exception.
pub fn explanation_refused_word() -> u32
    ensures word { result ≡ explanation_word Why.Refused }
    ensures claim { (s : Session) (cs : List Call) → s.phase ≡ Phase.Fresh → session_record_in_ranges s ≡ true → ExplanationTrueUnlessLastCallBringsIac (play_calls s cs) (final_session s cs) }
    ensures rank { ChoiceRankIsCryptogramRank }
{
    explain::explanation_word(Explanation::Refused)
}
