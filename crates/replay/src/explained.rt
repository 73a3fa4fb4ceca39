// The last line of a session: why it is where it is, in words that a cashier can read.
use explain::{ActionCodeHolder, Explanation, ForcedChoiceCause, Stage};
use session_record::Session;

// The stage that decided, the bit that forced the choice and who requested it; or what is in its place.
pub fn print_explanation_line(rt: &impl Print, session: Session) {
    print::print_text(rt, b"explanation: ");
    match explain::explain(session) {
        Explanation::Refused => print::print_text(rt, b"refused 25, the record does not tell why"),
        Explanation::Reason(reason) => {
            let _ = print!(rt; "reason {reason}, ");
            print::print_reason_words(rt, reason);
        }
        Explanation::NoChoice => print::print_text(rt, b"no choice was made"),
        Explanation::LowerCryptogram => print::print_text(
            rt,
            b"the card gave a lower cryptogram than asked for",
        ),
        Explanation::Forced(cause) => forced(rt, cause),
        Explanation::Unforced(stage) => {
            let _ = print!(rt; "{}, no bit forced the choice", stage_words(stage));
        }
    }
    print::print_text(rt, b"\n");
}

fn forced(rt: &impl Print, cause: ForcedChoiceCause) {
    let _ = print!(rt; "{}, ", stage_words(cause.stage));
    print::bits::print_tvr_bit_name(rt, usize::from(cause.bit));
    let _ = print!(rt; ", asked for by {}", holder_words(cause.holder));
}

// Kept: a stage and a holder are types of `explain`, so a `Display` of them cannot stand here.
fn stage_words(stage: Stage) -> &'static str {
    match stage {
        Stage::Denial => "denial stage",
        Stage::OnlineOnly => "terminal type that is online only",
        Stage::Default => "default stage",
        Stage::Online => "online stage",
    }
}

fn holder_words(holder: ActionCodeHolder) -> &'static str {
    match holder {
        ActionCodeHolder::Nobody => "nobody",
        ActionCodeHolder::Card => "the card",
        ActionCodeHolder::Terminal => "the terminal",
        ActionCodeHolder::Both => "the card and the terminal",
    }
}
