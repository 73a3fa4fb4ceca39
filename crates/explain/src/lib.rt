// Explains a choice to the cashier: the stage that decided a session's choice, the lowest bit that forced it, and
// whether the card's code, the terminal's or both hold that bit. The choice is recomputed from the stored TVR, terminal
// type and action codes; the session is only read.
//
// `explain` takes a session by value, `explain_parts` its parts with the store shared. `explanation_word` is the number
// of an explanation.
#![tactic(auto)]

ghost use Rattle.std.specs.Prelude.{◌≡◌, ◌<◌};
ghost use Rattle.basics.specs.Choice.{every};
ghost use Rattle.store.specs.Held.{has_object};
ghost use Rattle.analysis.specs.Bits.{has_bit_counted_from_zero_at_byte1b8 as bit_of};
ghost use Rattle.session_record.specs.Session.{session_of};
ghost use Rattle.session.specs.Answer.{outcome_for_cryptogram_type};
ghost use Rattle.explain.specs.Explain.{stored_tvr, recomputed_choice, deciding_stage_in, tags_needed_by_stage, deciding_stage_if_its_data_present};
ghost use Rattle.explain.specs.Explain.{holder_by_codes, action_code_holder_of_bit, action_codes_of_stage, explanation_at_stage, explanation_awaiting_cryptogram};
ghost use Rattle.explain.specs.Explain.{rank_of_cryptogram_type, is_decision_outcome, explanation_of_ending, aip_indicates_mag_stripe};
ghost use Rattle.explain.specs.Explain.{explanation_of_ending_by_mode, explanation_while_awaiting};
ghost use Rattle.explain.specs.Promise.{ExplanationHolds};
ghost use Rattle.explain.specs.Word.{stage_number, holder_number, explained_choice_word, explanation_word};

use analysis::choice::{ActionCodes, Choice, DEFAULT, DENIAL, ONLINE, OnlineCapability};
use dictionary::{ROW_AIP, ROW_CID, ROW_TAC_DEFAULT, ROW_TAC_DENIAL, ROW_TAC_ONLINE, ROW_TVR};
use session_record::{AwaitedResponse, Ending, Outcome, Phase, RequestedCryptogram, Session};

// The stage that decided a choice: denial, the type of a terminal that is online only, default, online.
#[derive(Clone, Copy)]
pub enum Stage {
    Denial,
    OnlineOnly,
    Default,
    Online,
}

// Whose code holds a bit.
#[derive(Clone, Copy)]
pub enum ActionCodeHolder {
    Nobody,
    Card,
    Terminal,
    Both,
}

// A bit that forced a choice: 0 is byte 1 b8 of the TVR, 39 is byte 5 b1.
#[derive(Clone, Copy)]
pub struct ForcedChoiceCause {
    pub stage: Stage,
    pub bit: u8,
    pub holder: ActionCodeHolder,
}

// Why a session is where it is: refused with 25; ended with a reason other than 0; no choice yet; a cryptogram lower
// than the one that was requested; a bit that forced the choice; or the stage consulted last, where no bit did.
#[derive(Clone, Copy)]
pub enum Explanation {
    Refused,
    Reason(u8),
    NoChoice,
    LowerCryptogram,
    Forced(ForcedChoiceCause),
    Unforced(Stage),
}

// What each kind of explanation has in its number, and the bit where none forced the choice.
const REFUSED: u32 = 0x20000;

const REASON: u32 = 0x30000;

const NO_CHOICE: u32 = 0x40000;

const LOWER_CRYPTOGRAM: u32 = 0x50000;

const CHOICE: u32 = 0x60000;

const NO_BIT: u8 = 255;

// Why a session is where it is.
pub fn explain(session: Session) -> Explanation
    ensures { ExplanationHolds session result }
{
    let phase = session.phase;
    let store = session.store;
    explain_parts(phase, session.count, &store.bytes)
}

// The same of a session's parts, with the store's bytes shared.
pub fn explain_parts(phase: Phase, count: u8, bytes: &[u8]) -> Explanation
    ensures { ExplanationHolds (session_of phase count bytes.now) result }
{
    if !session_record::session_parts_in_ranges(phase, count, bytes) {
        return Explanation::Refused;
    }
    match phase {
        Phase::Fresh => Explanation::NoChoice,
        Phase::Waiting(awaited) => explain_awaited(awaited, bytes),
        Phase::Ended(end) => ended_by(end, bytes),
    }
}

// While a response is awaited: a choice is made once the cryptogram is requested, and none for the checksum.
fn explain_awaited(awaited: AwaitedResponse, bytes: &[u8]) -> Explanation
    ensures { result ≡ explanation_while_awaiting awaited bytes.now }
{
    match awaited {
        AwaitedResponse::Cryptogram(asked) => waiting(asked, bytes),
        AwaitedResponse::Gpo | AwaitedResponse::Record(_) | AwaitedResponse::Checksum(_) => {
            Explanation::NoChoice
        }
    }
}

// Waiting on the cryptogram: the choice held must be the one that the store gives.
// Kept: `explanation_awaiting_cryptogram`, a definition that stays, compares the choices by their P1.
fn waiting(asked: RequestedCryptogram, bytes: &[u8]) -> Explanation
    ensures { result ≡ explanation_awaiting_cryptogram asked bytes.now (deciding_stage_if_its_data_present bytes.now) }
{
    let Some(stage) = deciding_in(bytes) else {
        return Explanation::Refused;
    };
    if analysis::choice::generate_ac_p1(asked.choice)
        != analysis::choice::generate_ac_p1(choice_in(bytes))
    {
        return Explanation::Refused;
    }
    reason_at(stage, bytes)
}

// Ended: in mag-stripe mode no choice was made.
fn ended_by(end: Ending, bytes: &[u8]) -> Explanation
    ensures { result ≡ explanation_of_ending_by_mode end bytes.now }
{
    if end.reason == basics::REASON_NONE && card_asks_mag_stripe(bytes) {
        return Explanation::NoChoice;
    }
    ended(end, bytes)
}

// 82 is present with byte 2 b8 clear.
fn card_asks_mag_stripe(bytes: &[u8]) -> bool
    ensures { result ≡ aip_indicates_mag_stripe bytes.now }
{
    store::is_present(bytes, ROW_AIP) && !session_record::is_emv_mode(bytes)
}

// Ended: the reason, or why it was decided so.
fn ended(end: Ending, bytes: &[u8]) -> Explanation
    ensures { result ≡ explanation_of_ending end bytes.now }
{
    if end.reason != basics::REASON_NONE {
        return Explanation::Reason(end.reason);
    }
    let Some(stage) = deciding_in(bytes) else {
        return Explanation::Refused;
    };
    if !store::is_present(bytes, ROW_CID) {
        return Explanation::Refused;
    }
    let kind = basics::byte_at(store::value(bytes, ROW_CID), 0) / 64;
    let choice = choice_in(bytes);
    if !decides(choice, kind, end.outcome) {
        return Explanation::Refused;
    }
    if cryptogram_rank(kind) < cryptogram_rank(analysis::choice::generate_ac_p1(choice) / 64) {
        return Explanation::LowerCryptogram;
    }
    reason_at(stage, bytes)
}

// Whether a type of cryptogram decides on an outcome, by what was requested.
fn decides(choice: Choice, kind: u8, outcome: Outcome) -> bool
    ensures { result ≡ is_decision_outcome (outcome_for_cryptogram_type choice kind) outcome }
{
    session::outcome_for_cryptogram_type(choice, kind) == Some(outcome)
}

// The rank of a cryptogram's type, the top two bits of 9F27 and of P1: AAC, then ARQC, then TC.
fn cryptogram_rank(kind: u8) -> u8
    ensures { result ≡ rank_of_cryptogram_type kind }
{
    match kind {
        1 => 2,
        2 => 1,
        _ => 0,
    }
}

// The stored TVR.
fn result_in(bytes: &[u8]) -> [u8; 5]
    ensures { result ≡ stored_tvr bytes.now }
{
    analysis::byte::first_five_bytes(store::value(bytes, ROW_TVR))
}

// The choice that the store gives.
fn choice_in(bytes: &[u8]) -> Choice
    ensures { result ≡ recomputed_choice bytes.now }
{
    analysis::action::choice_for_tvr(bytes, result_in(bytes))
}

// The stage that decided, if what the stages consulted need is present.
fn deciding_in(bytes: &[u8]) -> Option<Stage>
    ensures { result ≡ deciding_stage_if_its_data_present bytes.now }
{
    let stage = stage_in(bytes)?;
    is_complete(stage, bytes).then_some(stage)
}

// The stage that decided: denial where it holds a bit, else by the terminal's type.
fn stage_in(bytes: &[u8]) -> Option<Stage>
    ensures { result ≡ deciding_stage_in bytes.now }
{
    let pair = pair_at(Stage::Denial, bytes);
    if analysis::choice::lowest_tvr_bit_in_codes(result_in(bytes), pair).is_some() {
        return Some(Stage::Denial);
    }
    let terminal = analysis::action::terminal_type(bytes);
    match analysis::choice::online_capability_of_type(terminal) {
        OnlineCapability::OnlineOnly => Some(Stage::OnlineOnly),
        OnlineCapability::OfflineOnly => Some(Stage::Default),
        OnlineCapability::OnlineCapable => Some(Stage::Online),
        OnlineCapability::Unlisted => None,
    }
}

// What is needed where a stage decided: 95, the terminal's denial code and its code of that stage.
fn is_complete(stage: Stage, bytes: &[u8]) -> bool
    ensures { result ≡ every (has_object bytes.now) (tags_needed_by_stage stage) }
{
    store::is_present(bytes, ROW_TVR)
        && store::is_present(bytes, ROW_TAC_DENIAL)
        && match stage {
            Stage::Denial | Stage::OnlineOnly => true,
            Stage::Default => store::is_present(bytes, ROW_TAC_DEFAULT),
            Stage::Online => store::is_present(bytes, ROW_TAC_ONLINE),
        }
}

// The codes of a stage; those of the online-only type hold no bit.
fn pair_at(stage: Stage, bytes: &[u8]) -> ActionCodes
    ensures { result ≡ action_codes_of_stage bytes.now stage }
{
    let pairs = analysis::action::action_codes_of(bytes);
    match stage {
        Stage::Denial => pairs[DENIAL],
        Stage::OnlineOnly => ActionCodes {
            card: [0; 5],
            terminal: [0; 5],
        },
        Stage::Default => pairs[DEFAULT],
        Stage::Online => pairs[ONLINE],
    }
}

// What the stage that decided reports: its lowest bit and who holds it, or that it holds none.
fn reason_at(stage: Stage, bytes: &[u8]) -> Explanation
    ensures { result ≡ explanation_at_stage bytes.now stage }
{
    let pair = pair_at(stage, bytes);
    let Some(i) = analysis::choice::lowest_tvr_bit_in_codes(result_in(bytes), pair) else {
        return Explanation::Unforced(stage);
    };
    let holder = holder_of(pair, i);
    let bit = i as u8;
    Explanation::Forced(ForcedChoiceCause { stage, bit, holder })
}

// Whose code holds bit i.
fn holder_of(pair: ActionCodes, i: usize) -> ActionCodeHolder
    ensures { result ≡ action_code_holder_of_bit pair i }
{
    holder_by(has_bit(pair.card, i), has_bit(pair.terminal, i))
}

// Bit i of a code, counted from byte 1 b8.
fn has_bit(code: [u8; 5], i: usize) -> bool
    ensures { result ≡ bit_of code i }
{
    analysis::byte::value_has_bit(&code, i / 8 + 1, 8 - i % 8)
}

// The holder, by the two codes.
fn holder_by(card: bool, terminal: bool) -> ActionCodeHolder
    ensures { result ≡ holder_by_codes card terminal }
{
    match (card, terminal) {
        (true, true) => ActionCodeHolder::Both,
        (true, false) => ActionCodeHolder::Card,
        (false, true) => ActionCodeHolder::Terminal,
        (false, false) => ActionCodeHolder::Nobody,
    }
}

// ---- numbers

// The number of an explanation.
pub fn explanation_word(explanation: Explanation) -> u32
    ensures { result ≡ explanation_word explanation }
{
    match explanation {
        Explanation::Refused => REFUSED + u32::from(basics::REFUSED_RANGES),
        Explanation::Reason(number) => REASON + u32::from(number),
        Explanation::NoChoice => NO_CHOICE,
        Explanation::LowerCryptogram => LOWER_CRYPTOGRAM,
        Explanation::Forced(cause) => choice_word(cause.stage, cause.holder, cause.bit),
        Explanation::Unforced(stage) => choice_word(stage, ActionCodeHolder::Nobody, NO_BIT),
    }
}

// A choice by its stage, its holder and its bit.
fn choice_word(stage: Stage, holder: ActionCodeHolder, bit: u8) -> u32
    ensures { result ≡ explained_choice_word stage holder bit }
{
    CHOICE + stage_number(stage) * 4096 + holder_number(holder) * 256 + u32::from(bit)
}

// Kept: beside `holder_number`: each gives the numbers of its own enum, which `explanation_word` of specs/Word states.
fn stage_number(stage: Stage) -> u32
    ensures { (result ≡ stage_number stage) × (result < 4) }
{
    match stage {
        Stage::Denial => 0,
        Stage::OnlineOnly => 1,
        Stage::Default => 2,
        Stage::Online => 3,
    }
}

fn holder_number(holder: ActionCodeHolder) -> u32
    ensures { (result ≡ holder_number holder) × (result < 4) }
{
    match holder {
        ActionCodeHolder::Nobody => 0,
        ActionCodeHolder::Card => 1,
        ActionCodeHolder::Terminal => 2,
        ActionCodeHolder::Both => 3,
    }
}
