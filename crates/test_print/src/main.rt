// Every word that `print` has for a number or a tag: each reason, refusal, outcome and CVM in a reply, and each row of
// the dictionary as an object that is present and empty.
#![tactic(auto)]

use analysis::cvm::NOT_APPLICABLE;
use dictionary::{ROWS, SIZE};
use session_record::{CallResult, Outcome, OutcomeParameters, Refusal, Reply};

fn main(rt: HostRuntime) {
    outcomes(&rt);
    reasons(&rt);
    cvms(&rt);
    refusals(&rt);
    names(&rt);
}

// A reply of a fresh session with this answer.
fn reply_with(rt: &impl Print, answer: CallResult) {
    let session = session_record::fresh_session();
    print::print_reply_in_words(rt, Reply { session, answer }, b"");
}

// An outcome with a reason, whether they go together or not, and no CVM.
fn ending(rt: &impl Print, outcome: Outcome, reason: u8) {
    reply_with(
        rt,
        CallResult::Outcome(OutcomeParameters {
            outcome,
            reason,
            cvm: NOT_APPLICABLE,
        }),
    );
}

fn outcomes(rt: &impl Print) {
    ending(rt, Outcome::Approved, 0);
    ending(rt, Outcome::OnlineRequest, 0);
    ending(rt, Outcome::Declined, 0);
    ending(rt, Outcome::Ended, 1);
    ending(rt, Outcome::SelectNext, 6);
}

// Every reason with its outcome, and a number that is no reason.
fn reasons(rt: &impl Print) {
    for reason in 1..13u8 {
        ending(
            rt,
            session_record::outcome_of_nonzero_reason(reason),
            reason,
        );
    }
}

// Every CVM with an approval, and the numbers beside them.
fn cvms(rt: &impl Print) {
    let outcome = Outcome::Approved;
    for cvm in 0..17u8 {
        reply_with(
            rt,
            CallResult::Outcome(OutcomeParameters {
                outcome,
                reason: 0,
                cvm,
            }),
        );
    }
}

// Every refusal, and the numbers beside them.
fn refusals(rt: &impl Print) {
    for number in 19..27u8 {
        reply_with(rt, CallResult::Refused(Refusal { number }));
    }
}

// The name of every known tag.
fn names(rt: &impl Print) {
    let mut store = [0u8; SIZE];
    for row in 0..ROWS {
        store::put(&mut store, row, b"");
    }
    print::print_objects_without_bits(rt, &store);
}
