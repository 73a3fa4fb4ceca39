// The session record by value: its phase, its count of commands handed out and its store; the reply of a call; and the
// ranges that a record passed in must be in (`session_record_in_ranges`, `session_parts_in_ranges`).
//
// Inside a call the store is borrowed, and a transition stands for the reply without it. A record is built anew only by
// `fresh_session`, `session_in_phase_with_count` and `reply_of`, and a transition only by `refuse_call`, `end_session`,
// `fail_session` and `issue_command`: a new field is added there.
#![tactic(auto)]

ghost use Rattle.std.specs.Prelude.{◌≡◌, not, ◌≤◌, ◌<◌, eqb, length, get_or};
ghost use Rattle.basics.specs.Choice.{both, either, every};
ghost use Rattle.dictionary.specs.Rows.{dictionary_rows, row_count, store_size};
ghost use Rattle.dictionary.specs.Named.{required_at_start_count};
ghost use Rattle.dictionary.specs.Packing.{row_with_attributes_and_tag_zero};
ghost use Rattle.dictionary.specs.Tables.{packed_attributes_of_rows};
ghost use Rattle.store.specs.Place.{row_size_in_store, row_offset};
ghost use Rattle.session_record.specs.Numbers.{outcome_number, reason_matches_outcome, outcome_of_nonzero_reason};
ghost use Rattle.session_record.specs.Session.{session_of, fresh_session, session_in_phase_with_count, ending_of, reply_of, refused_transition, ending_transition, failing_transition, command_transition};
ghost use Rattle.store.specs.Held.{is_zero_byte};
ghost use Rattle.session_record.specs.Ranges.{all_stored_objects_fit_rows, all_required_at_start_present, last_response_objects_absent, emv_mode, mag_stripe_mode, emv_or_mag_stripe_mode, expiry_pan_and_cdol1_non_empty, track2_and_bitmaps_non_empty, in_running_ranges};
ghost use Rattle.session_record.specs.Ranges.{in_fresh_ranges, in_waiting_ranges, in_gpo_ranges, in_record_ranges, in_cryptogram_ranges, in_checksum_ranges, in_ended_ranges, session_record_in_ranges};
ghost use Rattle.session_record.specs.Inner.{place_length_and_value_fit_row, NextPresentRow, all_fit_and_required_present_if_asked, record_count_of_stored_afl, record_and_count_in_stored_afl, count_after_stored_records, row_non_empty};

use analysis::choice::Choice;
use analysis::cvm::Cvm;
use dictionary::{
    REQUIRED, REQUIRED_ROWS, ROW_AC, ROW_AFL, ROW_AIP, ROW_ATC, ROW_CDOL1, ROW_CID,
    ROW_CVC3_TRACK2, ROW_CVM_RESULTS, ROW_EXPIRATION_DATE, ROW_IAD, ROW_KERNEL_CONFIGURATION,
    ROW_NATC_TRACK2, ROW_PAN, ROW_PCVC3_TRACK2, ROW_PUNATC_TRACK2, ROW_TERMINAL_TYPE,
    ROW_TRACK2_DATA, ROW_TVR, ROWS, RowAttributes, SIZE,
};
use store::Store;

// How a session ends.
#[derive(Clone, Copy, PartialEq, Eq)]
pub enum Outcome {
    Approved,
    OnlineRequest,
    Declined,
    Ended,
    SelectNext,
}

// An outcome with its reason, 0 where a decision was reached.
#[derive(Clone, Copy)]
pub struct Ending {
    pub outcome: Outcome,
    pub reason: u8,
}

// The record of the card that is awaited: its number in the AFL's order, from 1; and the session's transaction limit.
#[derive(Clone, Copy)]
pub struct AwaitedRecord {
    pub number: u8,
    pub limit: u64,
}

// The cryptogram that is awaited: what was requested, the CVM, and the transaction limit.
#[derive(Clone, Copy)]
pub struct RequestedCryptogram {
    pub choice: Choice,
    pub cvm: Cvm,
    pub limit: u64,
}

// The checksum that is awaited (mag-stripe mode): the transaction limit.
#[derive(Clone, Copy)]
pub struct AwaitedChecksum {
    pub limit: u64,
}

// The response that a running session awaits: to GPO, to READ RECORD, to GENERATE AC or to COMPUTE CRYPTOGRAPHIC CHECKSUM.
#[derive(Clone, Copy)]
pub enum AwaitedResponse {
    Gpo,
    Record(AwaitedRecord),
    Cryptogram(RequestedCryptogram),
    Checksum(AwaitedChecksum),
}

// Fresh; running, and waiting for a response; or ended.
#[derive(Clone, Copy)]
pub enum Phase {
    Fresh,
    Waiting(AwaitedResponse),
    Ended(Ending),
}

#[derive(Clone, Copy)]
pub struct Session {
    pub phase: Phase,
    pub count: u8,
    pub store: Store,
}

// A command at the front of the caller's buffer.
#[derive(Clone, Copy)]
pub struct CommandLength {
    pub size: usize,
}

// A call that was not taken.
#[derive(Clone, Copy)]
pub struct Refusal {
    pub number: u8,
}

// What an outcome reports: the outcome with its reason, and the number of the CVM.
#[derive(Clone, Copy)]
pub struct OutcomeParameters {
    pub outcome: Outcome,
    pub reason: u8,
    pub cvm: u8,
}

#[derive(Clone, Copy)]
pub enum CallResult {
    Command(CommandLength),
    Outcome(OutcomeParameters),
    Refused(Refusal),
}

#[derive(Clone, Copy)]
pub struct Reply {
    pub session: Session,
    pub answer: CallResult,
}

// The position of a walk over the store: at a row, and at the byte where its place starts.
#[derive(Clone, Copy)]
pub struct RowPosition {
    pub row: usize,
    pub at: usize,
}

// What a call returns besides the store.
#[derive(Clone, Copy)]
pub struct Transition {
    pub phase: Phase,
    pub count: u8,
    pub answer: CallResult,
}

// The most commands that a session hands out.
const MOST: u8 = 130;

// The number of an outcome.
pub fn outcome_number(outcome: Outcome) -> u8
    ensures { result ≡ outcome_number outcome }
{
    match outcome {
        Outcome::Approved => 0,
        Outcome::OnlineRequest => 1,
        Outcome::Declined => 2,
        Outcome::Ended => 3,
        Outcome::SelectNext => 4,
    }
}

// The outcome that goes with a reason other than 0.
pub fn outcome_of_nonzero_reason(reason: u8) -> Outcome
    ensures { result ≡ outcome_of_nonzero_reason reason }
{
    if reason == basics::REASON_ABOVE_LIMIT {
        return Outcome::SelectNext;
    }
    Outcome::Ended
}

// How many commands the session has handed out.
pub fn command_count(session: Session) -> u8
    ensures { result ≡ session.count }
{
    session.count
}

// A session that nothing has happened to.
pub fn fresh_session() -> Session
    ensures { result ≡ fresh_session }
{
    let store = store::empty();
    Session {
        phase: Phase::Fresh,
        count: 0,
        store,
    }
}

// The session in another phase, with another count.
pub fn session_in_phase_with_count(session: Session, phase: Phase, count: u8) -> Session
    ensures { result ≡ session_in_phase_with_count session phase count }
{
    let store = session.store;
    Session {
        phase,
        count,
        store,
    }
}

// A refusal leaves the phase and the count as they are.
pub fn refuse_call(phase: Phase, count: u8, number: u8) -> Transition
    ensures { result ≡ refused_transition phase count number }
{
    Transition {
        phase,
        count,
        answer: CallResult::Refused(Refusal { number }),
    }
}

// The session ends with an outcome and its reason, and reports the CVM; the record keeps no CVM.
pub fn end_session(count: u8, outcome: Outcome, reason: u8, cvm: u8) -> Transition
    ensures { result ≡ ending_transition cvm count (ending_of outcome reason) }
{
    Transition {
        phase: Phase::Ended(Ending { outcome, reason }),
        count,
        answer: CallResult::Outcome(OutcomeParameters {
            outcome,
            reason,
            cvm,
        }),
    }
}

// The session ends for a reason other than 0, with the outcome that goes with it.
pub fn fail_session(count: u8, reason: u8, cvm: u8) -> Transition
    ensures { result ≡ failing_transition cvm count reason }
{
    end_session(count, outcome_of_nonzero_reason(reason), reason, cvm)
}

// The session waits for the response to a command of so many bytes.
pub fn issue_command(awaited: AwaitedResponse, count: u8, size: usize) -> Transition
    ensures { result ≡ command_transition awaited count size }
{
    Transition {
        phase: Phase::Waiting(awaited),
        count,
        answer: CallResult::Command(CommandLength { size }),
    }
}

// The reply of a call: its transition, with the store that it left.
pub fn reply_of(transition: Transition, store: Store) -> Reply
    ensures { result ≡ reply_of transition store.bytes }
{
    let phase = transition.phase;
    let count = transition.count;
    let answer = transition.answer;
    Reply {
        session: Session {
            phase,
            count,
            store,
        },
        answer,
    }
}

// Whether a session record is in its ranges.
pub fn session_record_in_ranges(session: Session) -> bool
    ensures { result ≡ session_record_in_ranges session }
{
    let phase = session.phase;
    let store = session.store;
    session_parts_in_ranges(phase, session.count, &store.bytes)
}

// The same of a session's parts, with the store's bytes shared.
pub fn session_parts_in_ranges(phase: Phase, count: u8, bytes: &[u8]) -> bool
    ensures { result ≡ session_record_in_ranges (session_of phase count bytes.now) }
{
    let Some(bytes) = bytes.as_array::<SIZE>() else {
        return false;
    };
    match phase {
        Phase::Fresh => fresh_in_ranges(count, bytes),
        Phase::Waiting(awaited) => waiting_in_ranges(awaited, count, bytes),
        Phase::Ended(end) => ended_in_ranges(end, count, bytes),
    }
}

// Fresh: no command was handed out and the store is all zeros, so that every object fits.
fn fresh_in_ranges(count: u8, bytes: &[u8; SIZE]) -> bool
    ensures { result ≡ both (all_stored_objects_fit_rows bytes.now) (in_fresh_ranges count bytes.now) }
{
    count == 0 && all_zero(bytes)
}

// Running: what the awaited response asks of the count and of the store.
fn waiting_in_ranges(awaited: AwaitedResponse, count: u8, bytes: &[u8; SIZE]) -> bool
    ensures { result ≡ both (all_stored_objects_fit_rows bytes.now) (in_waiting_ranges awaited count bytes.now) }
{
    match awaited {
        AwaitedResponse::Gpo => gpo_in_ranges(count, bytes),
        AwaitedResponse::Record(place) => record_in_ranges(place, count, bytes),
        AwaitedResponse::Cryptogram(asked) => cryptogram_in_ranges(asked, count, bytes),
        AwaitedResponse::Checksum(checksum) => checksum_in_ranges(checksum, count, bytes),
    }
}

// Waiting on GPO: nothing of its answer is present yet.
fn gpo_in_ranges(count: u8, bytes: &[u8; SIZE]) -> bool
    ensures { result ≡ both (all_stored_objects_fit_rows bytes.now) (in_gpo_ranges count bytes.now) }
{
    is_running(bytes)
        && !store::is_present(bytes, ROW_AIP)
        && !store::is_present(bytes, ROW_AFL)
        && all_zero(store::value(bytes, ROW_TVR))
        && count == 1
}

// Waiting on a record that the stored AFL names, with the limit that the store gives.
fn record_in_ranges(place: AwaitedRecord, count: u8, bytes: &[u8; SIZE]) -> bool
    ensures { result ≡ both (all_stored_objects_fit_rows bytes.now) (in_record_ranges place count bytes.now) }
{
    is_running(bytes)
        && is_emv_or_mag_stripe_mode(bytes)
        && all_zero(store::value(bytes, ROW_TVR))
        && place.limit == analysis::action::transaction_limit(bytes)
        && is_record_count(place.number, count, bytes)
}

// Waiting on the cryptogram: every record was requested, what the choice needs is present, and 9F34; the limit is
// the store's.
fn cryptogram_in_ranges(asked: RequestedCryptogram, count: u8, bytes: &[u8; SIZE]) -> bool
    ensures { result ≡ both (all_stored_objects_fit_rows bytes.now) (in_cryptogram_ranges asked count bytes.now) }
{
    is_running(bytes)
        && is_emv_mode(bytes)
        && expiry_pan_and_cdol1_non_empty(bytes)
        && store::is_present(bytes, ROW_CVM_RESULTS)
        && asked.limit == analysis::action::transaction_limit(bytes)
        && is_count_after_records(count, bytes)
}

// Waiting on the checksum: every record was requested, and what the digits need is present; the limit is the store's.
fn checksum_in_ranges(checksum: AwaitedChecksum, count: u8, bytes: &[u8; SIZE]) -> bool
    ensures { result ≡ both (all_stored_objects_fit_rows bytes.now) (in_checksum_ranges checksum count bytes.now) }
{
    is_running(bytes)
        && is_mag_stripe_mode(bytes)
        && all_zero(store::value(bytes, ROW_TVR))
        && track2_and_bitmaps_non_empty(bytes)
        && checksum.limit == analysis::action::transaction_limit(bytes)
        && is_count_after_records(count, bytes)
}

// Whether so many commands come before the answer to the record of a number, which the stored AFL names.
fn is_record_count(number: u8, count: u8, bytes: &[u8; SIZE]) -> bool
    ensures { result ≡ record_and_count_in_stored_afl number count bytes.now }
{
    let Some(records) = stored_record_count(bytes) else {
        return false;
    };
    let k = usize::from(number);
    1 <= k && k <= records && usize::from(count) == 1 + k
}

// Whether every record that the stored AFL names was requested by so many commands, and one more was handed out.
fn is_count_after_records(count: u8, bytes: &[u8; SIZE]) -> bool
    ensures { result ≡ count_after_stored_records count bytes.now }
{
    let Some(records) = stored_record_count(bytes) else {
        return false;
    };
    let n = usize::from(count);
    2 <= n && n - 2 == records
}

// How many records the stored AFL names, where it is accepted.
fn stored_record_count(bytes: &[u8; SIZE]) -> Option<usize>
    ensures { result ≡ record_count_of_stored_afl bytes.now }
{
    let extent = afl::check_afl(store::value(bytes, ROW_AFL))?;
    Some(extent.records)
}

// Ended: a count that a session can reach, and a reason with its outcome.
fn ended_in_ranges(end: Ending, count: u8, bytes: &[u8; SIZE]) -> bool
    ensures { result ≡ both (all_stored_objects_fit_rows bytes.now) (in_ended_ranges end count) }
{
    all_rows_fit(bytes, false) && count <= MOST && reason_matches_outcome(end.outcome, end.reason)
}

// Whether a reason goes with an outcome.
pub fn reason_matches_outcome(outcome: Outcome, reason: u8) -> bool
    ensures { result ≡ reason_matches_outcome outcome reason }
{
    match outcome {
        Outcome::Approved => reason == basics::REASON_NONE,
        Outcome::OnlineRequest => reason == basics::REASON_NONE,
        Outcome::Declined => reason == basics::REASON_NONE,
        Outcome::SelectNext => reason == basics::REASON_ABOVE_LIMIT,
        Outcome::Ended => ends_session(reason),
    }
}

// Whether a reason goes with the outcome ended: 1 to 11, and not 6.
fn ends_session(reason: u8) -> bool
    ensures { result ≡ reason_matches_outcome Outcome.Ended reason }
{
    basics::REASON_STATUS <= reason
        && reason <= basics::REASON_MODE
        && reason != basics::REASON_ABOVE_LIMIT
}

// What every running session holds and lacks; every object fits.
fn is_running(bytes: &[u8; SIZE]) -> bool
    ensures { result ≡ both (all_stored_objects_fit_rows bytes.now) (in_running_ranges bytes.now) }
{
    all_rows_fit(bytes, true)
        && store::is_present(bytes, ROW_TVR)
        && dictionary::is_listed_terminal_type(basics::byte_at(
            store::value(bytes, ROW_TERMINAL_TYPE),
            0,
        ))
        && is_last_absent(bytes)
}

// Nothing that only the answer to the cryptogram or to the checksum brings is present.
fn is_last_absent(bytes: &[u8]) -> bool
    ensures { result ≡ last_response_objects_absent bytes.now }
{
    !store::is_present(bytes, ROW_IAD)
        && !store::is_present(bytes, ROW_AC)
        && !store::is_present(bytes, ROW_CID)
        && !store::is_present(bytes, ROW_ATC)
        && !store::is_present(bytes, ROW_CVC3_TRACK2)
}

// The AIP indicates EMV mode.
pub fn is_emv_mode(bytes: &[u8]) -> bool
    ensures { result ≡ emv_mode bytes.now }
{
    basics::byte_at(store::value(bytes, ROW_AIP), 1) / 128 % 2 == 1
}

// The AIP indicates no EMV mode, and mag-stripe mode is not off.
pub fn is_mag_stripe_mode(bytes: &[u8]) -> bool
    ensures { result ≡ mag_stripe_mode bytes.now }
{
    store::is_present(bytes, ROW_AIP)
        && !is_emv_mode(bytes)
        && basics::byte_at(store::value(bytes, ROW_KERNEL_CONFIGURATION), 0) / 128 % 2 != 1
}

// One of the two modes.
pub fn is_emv_or_mag_stripe_mode(bytes: &[u8]) -> bool
    ensures { result ≡ emv_or_mag_stripe_mode bytes.now }
{
    is_emv_mode(bytes) || is_mag_stripe_mode(bytes)
}

// Whether a row's object is present, and not empty.
fn has_bytes(bytes: &[u8], row: usize) -> bool
    ensures { result ≡ row_non_empty bytes.now row }
{
    !store::value(bytes, row).is_empty()
}

// The track, the two bitmaps and the counter's digits are present, none empty.
pub fn track2_and_bitmaps_non_empty(bytes: &[u8]) -> bool
    ensures { result ≡ track2_and_bitmaps_non_empty bytes.now }
{
    has_bytes(bytes, ROW_TRACK2_DATA)
        && has_bytes(bytes, ROW_PCVC3_TRACK2)
        && has_bytes(bytes, ROW_PUNATC_TRACK2)
        && has_bytes(bytes, ROW_NATC_TRACK2)
}

// The expiry date, the account number and CDOL1 are present, none empty.
pub fn expiry_pan_and_cdol1_non_empty(bytes: &[u8]) -> bool
    ensures { result ≡ expiry_pan_and_cdol1_non_empty bytes.now }
{
    has_bytes(bytes, ROW_EXPIRATION_DATE)
        && has_bytes(bytes, ROW_PAN)
        && has_bytes(bytes, ROW_CDOL1)
}

// Every stored object fits its row; where `asked`, what a start must bring is present too. One walk for both, from one
// object that is present to the next; it counts those that a start must bring.
fn all_rows_fit(bytes: &[u8; SIZE], asked: bool) -> bool
    ensures { result ≡ all_fit_and_required_present_if_asked asked bytes.now }
{
    let codes = dictionary::packed_row_attributes();
    let mut row = 0;
    let mut at = 0;
    let mut brought = 0;
    loop {
        let held = next_held(bytes, &codes, row, at);
        let k = held.row;
        let first = held.at;
        if k == ROWS {
            return is_enough(asked, brought);
        }
        let a = dictionary::unpack_row_attributes(codes[k]);
        let next = first + a.greatest + 1;
        if !row_fits(&bytes[first..next], a) {
            return false;
        }
        brought += usize::from(a.must);
        row = k + 1;
        at = next;
    }
}

// The first row from a row on whose object is present, and where its place starts; the end where there is none.
// Kept: one `for` over the rows was tried in place of the two loops. It takes 560 instructions more an answer, 8 % of a
// short one, whose bound against a model that lists what it takes has no room for them (docs/BENCHMARK.md).
fn next_held(bytes: &[u8; SIZE], codes: &[u32; ROWS], from: usize, start: usize) -> RowPosition
    requires codes_value { codes.now ≡ packed_attributes_of_rows dictionary_rows }
    requires from_le_row_count { (from ≤ row_count) × (start ≡ row_offset dictionary_rows from) }
    ensures { NextPresentRow bytes.now from result }
{
    let mut row = from;
    let mut at = start;
    while row < ROWS {
        if bytes[at] != 0 {
            return RowPosition { row, at };
        }
        at = at + dictionary::unpack_row_attributes(codes[row]).greatest + 1;
        row += 1;
    }
    RowPosition { row, at }
}

// Whether so many objects that a start must bring are all of them, where that is required.
fn is_enough(asked: bool, brought: usize) -> bool
    ensures { result ≡ either (not asked) (eqb brought required_at_start_count) }
{
    !asked || brought == REQUIRED
}

// Whether the place of an object that is there is in order: a length byte in its room, a value that is long enough and
// digits that fit.
fn row_fits(place: &[u8], a: RowAttributes) -> bool
    requires place_len { length place.now ≡ row_size_in_store (row_with_attributes_and_tag_zero a) }
    requires nonzero { 0 < get_or place.now 0 0 }
    ensures { result ≡ place_length_and_value_fit_row (row_with_attributes_and_tag_zero a) place.now }
{
    let stored = usize::from(place[0]);
    if place.len() < stored {
        return false;
    }
    if stored - 1 < a.least {
        return false;
    }
    dictionary::digits_match_form(a.form, &place[1..stored])
}

// Every object that a start must bring is present.
pub fn all_required_at_start_present(bytes: &[u8]) -> bool
    ensures { result ≡ all_required_at_start_present bytes.now }
{
    REQUIRED_ROWS
        .iter()
        .all(|row| store::is_present(bytes, *row))
}

// Every byte is zero: the greatest is. All are examined, so that the compiler takes many at once.
fn all_zero(v: &[u8]) -> bool
    ensures { result ≡ every is_zero_byte v.now }
{
    v.iter().fold(0, |most, b| most.max(*b)) == 0
}
