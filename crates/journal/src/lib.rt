// Reports whether the journal of a session could have come from a conforming kernel: `begin`, `feed` with parts of any
// size, and `finish` at the end; `expected_reply_record` gives the conforming record where one is a mismatch.
//
// A journal is records of one byte of kind and a body whose size the kind fixes. At most one record is
// held, so a journal of any size needs the room of one `JournalChecker`.
#![tactic(auto)]

pub mod writer;

// The kinds of records.
// Kept: numbers, as the writer puts them in records; a kind read is matched once by its size and once by its call.
pub const KIND_START: u8 = 1;

pub const KIND_ANSWER: u8 = 2;

pub const KIND_LINK_FAILED: u8 = 3;

pub const KIND_STOP: u8 = 4;

pub const KIND_COMMAND: u8 = 5;

pub const KIND_OUTCOME: u8 = 6;

// The most bytes that a start, a card answer and a command have in a record, and the sizes of the records: kind and two
// length bytes before them. A start's is the longest.
pub const MOST_START: usize = 1024;

pub const MOST_ANSWER: usize = 258;

pub const MOST_COMMAND: usize = 261;

pub const START_RECORD: usize = 1027;

pub const ANSWER_RECORD: usize = 261;

pub const COMMAND_RECORD: usize = 264;

pub const OUTCOME_RECORD: usize = 3;

// More records than this no session has: 131 calls and their replies.
const MOST_RECORDS: usize = 1000;

ghost use Rattle.std.specs.Prelude.{◌≡◌, List, [], ◌∷◌, ◌++◌, ℕ, ◌+◌, ◌≤◌, ◌<◌, length, get_or, take};
ghost use Rattle.basics.specs.Choice.{every};
ghost use Rattle.store.specs.Held.{is_zero_byte};
ghost use Rattle.session_record.specs.Numbers.{outcome_number};
ghost use Rattle.journal.specs.Record.{journal_record_size, length_in_two_bytes, journal_record_length_field, journal_length_and_zero_padding_valid as fits_in, is_too_long_answer_record, start_call_from_record, answer_call_from_record, call_from_journal_record};
ghost use Rattle.journal.specs.Record.{journal_command_buffer};
ghost use Rattle.session.specs.Calls.{link_failed as link_failed_call, stop as stop_call};
ghost use Rattle.journal.specs.Verdict.{expected_next_of_session_and_due_reply, expect_reply_unless_empty as replied_of, judge_call as called_of, judge_record, journal_verdict_of, expected_reply_at_first_mismatch};
ghost use Rattle.journal.specs.ConformingRecords.{AllEntriesBelow256, VerdictIsExact, ConformingBytesFromByteCalls, ConformingJournalsAccepted, AcceptedHasAtMost262Records, ExpectedReplyOnlyConforming, ExpectedReplyAtEvenRecords};
ghost use Rattle.journal.specs.Inner.{reply_record_with_whole_buffer, expected_next_in_state, check_state_of, check_state_after_record};
ghost use Rattle.journal.specs.Inner.{new_checker, checker_after_byte, checker_after_bytes, checker_verdict, checker_expected_reply, CheckerWasFed};

use session_record::{CallResult, OutcomeParameters, Reply, Session};

// What a journal is: accepted, with the number of its records; or the number of the first record that differs from what
// the rules give, or of the one that is truncated. Records count from 1.
// Kept: three outcomes of equal rank, each with a number; `VerdictMatchesRest` has one clause for each.
#[derive(Clone, Copy, PartialEq, Eq)]
pub enum JournalVerdict {
    Accepted(usize),
    Mismatch(usize),
    Truncated(usize),
}

// The session so far, and the reply's record that comes next, of size 0 where a call comes next; no longer conforming
// once a record was a mismatch, with what was expected there.
// Kept: buffers with a size beside them, here and below: `feed` promises its result for every checker, also for one whose
// size is past its buffer, and a type that rules those out would narrow it.
#[derive(Clone, Copy)]
pub struct JournalCheckState {
    pub session: Session,
    pub due: [u8; COMMAND_RECORD],
    pub size: usize,
    pub conforming: bool,
}

// A checker after some bytes: the records seen, the one that is a mismatch included, and the part of a record
// that is held.
#[derive(Clone, Copy)]
pub struct JournalChecker {
    pub standing: JournalCheckState,
    pub held: [u8; START_RECORD],
    pub length: usize,
    pub records: usize,
}

// The one conforming record in place of a mismatching one, at the front of `bytes`; of size 0 where no record is a
// mismatch, and where a call was expected, as then none or more than one would be conforming.
#[derive(Clone, Copy)]
pub struct ExpectedReplyRecord {
    pub bytes: [u8; COMMAND_RECORD],
    pub size: usize,
}

// The size of a record by its kind, 0 where there is no such kind.
pub fn journal_record_size(kind: u8) -> usize
    ensures { result ≡ journal_record_size kind }
{
    match kind {
        KIND_START => START_RECORD,
        KIND_ANSWER => ANSWER_RECORD,
        KIND_LINK_FAILED => 1,
        KIND_STOP => 1,
        KIND_COMMAND => COMMAND_RECORD,
        KIND_OUTCOME => OUTCOME_RECORD,
        _ => 0,
    }
}

// A checker that nothing was fed to.
pub fn begin() -> JournalChecker
    ensures checker { result ≡ new_checker }
    ensures follows { CheckerWasFed result [] }
{
    JournalChecker {
        standing: waiting(session_record::fresh_session()),
        held: [0u8; START_RECORD],
        length: 0,
        records: 0,
    }
}

// The checker after one more part. After a mismatching record nothing is examined.
pub fn feed(checker: JournalChecker, part: &[u8]) -> JournalChecker
    ensures checker { result ≡ checker_after_bytes checker part.now }
    ensures follows { (s : List ℕ) → CheckerWasFed checker s → CheckerWasFed result (s ++ part.now) }
{
    if !checker.standing.conforming {
        return checker;
    }
    let mut next = checker;
    for &byte in part {
        next = push(next, byte);
    }
    next
}

// The verdict where the journal ends here.
pub fn finish(checker: JournalChecker) -> JournalVerdict
    ensures verdict { result ≡ checker_verdict checker }
    ensures follows { (s : List ℕ) → CheckerWasFed checker s → result ≡ journal_verdict_of s }
    ensures conforming { (s : List ℕ) → CheckerWasFed checker s → AllEntriesBelow256 s → VerdictIsExact s result }
    ensures bytes { ConformingBytesFromByteCalls }
    ensures written { ConformingJournalsAccepted }
    ensures few { AcceptedHasAtMost262Records }
{
    if !checker.standing.conforming {
        return JournalVerdict::Mismatch(checker.records);
    }
    if checker.length == 0 {
        return JournalVerdict::Accepted(checker.records);
    }
    if MOST_RECORDS <= checker.records {
        return JournalVerdict::Truncated(checker.records);
    }
    JournalVerdict::Truncated(checker.records + 1)
}

// The conforming record where one is a mismatch and a reply was expected.
pub fn expected_reply_record(checker: JournalChecker) -> ExpectedReplyRecord
    ensures wanted { result ≡ checker_expected_reply checker }
    ensures size { result.size ≤ 264 }
    ensures follows { (s : List ℕ) → CheckerWasFed checker s → take result.size result.bytes ≡ expected_reply_at_first_mismatch s }
    ensures only { ExpectedReplyOnlyConforming }
    ensures even { ExpectedReplyAtEvenRecords }
{
    let standing = checker.standing;
    let size = standing.size;
    if standing.conforming || COMMAND_RECORD < size {
        return ExpectedReplyRecord {
            bytes: [0u8; COMMAND_RECORD],
            size: 0,
        };
    }
    let bytes = standing.due;
    ExpectedReplyRecord { bytes, size }
}

// The checker after one more byte.
fn push(checker: JournalChecker, byte: u8) -> JournalChecker
    ensures { result ≡ checker_after_byte checker byte }
{
    let standing = checker.standing;
    let length = checker.length;
    if !standing.conforming
        || START_RECORD <= length
        || COMMAND_RECORD < standing.size
        || MOST_RECORDS <= checker.records
    {
        return checker;
    }
    let mut held = checker.held;
    held[length] = byte;
    let size = journal_record_size(held[0]);
    if length + 1 < size {
        return JournalChecker {
            held,
            length: length + 1,
            ..checker
        };
    }
    JournalChecker {
        standing: judge(standing, &held[..size]),
        held,
        length: 0,
        records: checker.records + 1,
    }
}

// A whole record, or an empty one in the place of an unknown kind, is judged by what is expected.
fn judge(standing: JournalCheckState, whole: &[u8]) -> JournalCheckState
    requires { (length whole.now ≡ journal_record_size (get_or whole.now 0 0)) × (standing.size ≤ 264) }
    ensures { result ≡ check_state_after_record standing (judge_record (expected_next_in_state standing) whole.now) }
{
    if standing.size == 0 {
        return called(standing, whole);
    }
    if whole == &standing.due[..standing.size] {
        return waiting(standing.session);
    }
    wrong(standing)
}

// A call comes next.
fn waiting(session: Session) -> JournalCheckState
    ensures { result ≡ check_state_of (expected_next_of_session_and_due_reply session []) }
{
    JournalCheckState {
        session,
        due: [0u8; COMMAND_RECORD],
        size: 0,
        conforming: true,
    }
}

// A record was a mismatch; what was expected there stays.
fn wrong(standing: JournalCheckState) -> JournalCheckState
    ensures { result ≡ check_state_after_record standing None }
{
    JournalCheckState {
        conforming: false,
        ..standing
    }
}

// Where a call is expected: the call is made, and its reply is expected.
fn called(standing: JournalCheckState, whole: &[u8]) -> JournalCheckState
    requires { length whole.now ≡ journal_record_size (get_or whole.now 0 0) }
    ensures { result ≡ check_state_after_record standing (called_of standing.session (call_from_journal_record whole.now)) }
{
    match basics::byte_at(whole, 0) {
        KIND_START => started(standing, whole),
        KIND_ANSWER => answered(standing, whole),
        KIND_LINK_FAILED => link_failed(standing),
        KIND_STOP => stopped(standing),
        _ => wrong(standing),
    }
}

// A start.
fn started(standing: JournalCheckState, whole: &[u8]) -> JournalCheckState
    requires { length whole.now ≡ 1027 }
    ensures { result ≡ check_state_after_record standing (called_of standing.session (start_call_from_record whole.now)) }
{
    if !fits(whole, MOST_START) {
        return wrong(standing);
    }
    let end = 3 + length_in(whole);
    let mut buffer = [0u8; MOST_COMMAND];
    let reply = session::start(standing.session, &whole[3..end], &mut buffer);
    due_of(standing, reply, buffer)
}

// A card answer.
fn answered(standing: JournalCheckState, whole: &[u8]) -> JournalCheckState
    requires { length whole.now ≡ 261 }
    ensures { result ≡ check_state_after_record standing (called_of standing.session (answer_call_from_record whole.now)) }
{
    let mut buffer = [0u8; MOST_COMMAND];
    if is_long(whole) {
        let long = [0u8; MOST_ANSWER + 1];
        let reply = session::answer(standing.session, &long, &mut buffer);
        return due_of(standing, reply, buffer);
    }
    if !fits(whole, MOST_ANSWER) {
        return wrong(standing);
    }
    let end = 3 + length_in(whole);
    let reply = session::answer(standing.session, &whole[3..end], &mut buffer);
    due_of(standing, reply, buffer)
}

// The link failed.
fn link_failed(standing: JournalCheckState) -> JournalCheckState
    ensures { result ≡ check_state_after_record standing (called_of standing.session (Some (link_failed_call journal_command_buffer))) }
{
    let mut buffer = [0u8; MOST_COMMAND];
    let reply = session::link_failed(standing.session, &mut buffer);
    due_of(standing, reply, buffer)
}

// A stop.
fn stopped(standing: JournalCheckState) -> JournalCheckState
    ensures { result ≡ check_state_after_record standing (called_of standing.session (Some (stop_call journal_command_buffer))) }
{
    let mut buffer = [0u8; MOST_COMMAND];
    let reply = session::stop(standing.session, &mut buffer);
    due_of(standing, reply, buffer)
}

// The length is at most `most`, and the bytes after those that it counts are zero.
fn fits(whole: &[u8], most: usize) -> bool
    requires { length whole.now ≡ most + 3 }
    ensures { result ≡ fits_in most whole.now }
{
    let n = length_in(whole);
    n <= most && is_zero(&whole[3 + n..])
}

// Length FF FF and a zero body.
fn is_long(whole: &[u8]) -> bool
    requires { 3 ≤ length whole.now }
    ensures { result ≡ is_too_long_answer_record whole.now }
{
    length_in(whole) == 0xFFFF && is_zero(&whole[3..])
}

// The two length bytes of a record.
fn length_in(whole: &[u8]) -> usize
    ensures { (result ≡ journal_record_length_field whole.now) × (result < 65536) }
{
    let field = [basics::byte_at(whole, 1), basics::byte_at(whole, 2)];
    usize::from(u16::from_be_bytes(field))
}

// Every byte is zero.
fn is_zero(v: &[u8]) -> bool
    ensures { result ≡ every is_zero_byte v.now }
{
    v.iter().all(|byte| *byte == 0)
}

// What is expected after a call that returned this with this buffer.
fn due_of(
    standing: JournalCheckState,
    reply: Reply,
    buffer: [u8; MOST_COMMAND],
) -> JournalCheckState
    ensures { result ≡ check_state_after_record standing (replied_of reply.session (reply_record_with_whole_buffer reply.answer buffer)) }
{
    match reply.answer {
        CallResult::Command(issued) => command_due(reply.session, issued.size, buffer),
        CallResult::Outcome(end) => outcome_due(reply.session, end),
        CallResult::Refused(_) => wrong(standing),
    }
}

// A command's record is expected.
fn command_due(session: Session, size: usize, buffer: [u8; MOST_COMMAND]) -> JournalCheckState
    ensures { result ≡ check_state_of (expected_next_of_session_and_due_reply session (5 ∷ (length_in_two_bytes size ++ buffer))) }
{
    let mut due = [0u8; COMMAND_RECORD];
    due[0] = KIND_COMMAND;
    due[1] = (size / 256 % 256) as u8;
    due[2] = (size % 256) as u8;
    due[3..].copy_from_slice(&buffer);
    JournalCheckState {
        session,
        due,
        size: COMMAND_RECORD,
        conforming: true,
    }
}

// An outcome's record is expected.
fn outcome_due(session: Session, end: OutcomeParameters) -> JournalCheckState
    ensures { result ≡ check_state_of (expected_next_of_session_and_due_reply session (6 ∷ outcome_number end.outcome ∷ end.reason ∷ [])) }
{
    let mut due = [0u8; COMMAND_RECORD];
    due[0] = KIND_OUTCOME;
    due[1] = session_record::outcome_number(end.outcome);
    due[2] = end.reason;
    JournalCheckState {
        session,
        due,
        size: OUTCOME_RECORD,
        conforming: true,
    }
}
