// The session record as bytes that the host provides, and a call's answer as one number.
//
// The record is a head and the store: a byte for the layout's version, the code of the phase with the count of commands
// handed out before its last byte, the transaction limit, and then the store's bytes as they are. `encode_record`
// writes it at the front of the caller's bytes, `decode_record` takes it apart again: only bytes that some record is
// encoded as are a record. Both borrow the store, which is the largest part; `decode_record_head` and
// `write_record_head` read and write the head alone, for a caller that works on the store in its place.
#![tactic(auto)]

ghost use Rattle.std.specs.Prelude.{◌≡◌, ◌+◌, ◌*◌, ◌≤◌, ◌<◌, length, take, drop};
ghost use Rattle.basics.specs.Number.{big_endian_number as number_of};
ghost use Rattle.dictionary.specs.Rows.{store_size};
ghost use Rattle.session_record.specs.Session.{session_of};
ghost use Rattle.layout.specs.Layout.{layout_version, session_record_size, big_endian_bytes, phase_fields_of_awaited, phase_fields_of, record_head_bytes, record_head_written_over_front_if_room};
ghost use Rattle.layout.specs.Layout.{choice_of_p1, cvm_of_number, outcome_of_number, awaited_of_phase_fields, phase_of_phase_fields, phase_fields_in};
ghost use Rattle.layout.specs.Layout.{decoded_session, decoded_record_head, SessionRecordWrittenIfRoom, DecodesSessionRecord};
ghost use Rattle.layout.specs.Word.{command_word, outcome_word, refusal_word, result_word};

use analysis::choice::Choice;
use analysis::cvm::Cvm;
use dictionary::SIZE;
use session_record::{
    AwaitedChecksum, AwaitedRecord, AwaitedResponse, CallResult, CommandLength, Ending, Outcome,
    OutcomeParameters, Phase, RequestedCryptogram,
};

// The layout's version, the first byte of every record.
const VERSION: u8 = 5;

// How many bytes are before the store.
pub const HEAD: usize = 14;

// Where the transaction limit is in the head, eight bytes.
const LIMIT: usize = 6;

// How many bytes a record takes.
pub const RECORD_SIZE: usize = HEAD + SIZE;

// The phases by number.
// Kept: numbers, as byte 1 of a record may be any: `phase_fields_in` of specs/Layout reads it, and what is none of these
// is no record.
const ON_FRESH: u8 = 0;

const ON_GPO: u8 = 1;

const ON_RECORD: u8 = 2;

const ON_CRYPTOGRAM: u8 = 3;

const ON_ENDED: u8 = 4;

const ON_CHECKSUM: u8 = 5;

// What the head reports of a phase: its number, and what it holds with its transaction limit, 0 where it holds nothing.
#[derive(Clone, Copy)]
pub struct PhaseFields {
    pub number: u8,
    pub datum: u8,
    pub reason: u8,
    pub cvm: u8,
    pub limit: u64,
}

// The fields of a phase that holds nothing.
const NOTHING_HELD: PhaseFields = PhaseFields {
    number: ON_FRESH,
    datum: 0,
    reason: 0,
    cvm: 0,
    limit: 0,
};

// The phase and the count that a record's head has.
#[derive(Clone, Copy)]
pub struct SessionRecordHead {
    pub phase: Phase,
    pub count: u8,
}

// A command's length in a word: what a word can tell apart from an outcome.
const MOST_LENGTH: usize = 65535;

// The kinds of an outcome and of a refusal in a word, and a unit of the CVM's number.
const OUTCOME: u32 = 65536;

const REFUSAL: u32 = 131072;

const CVM: u32 = 16777216;

// How many bytes a host provides for a session.
pub fn session_size() -> usize
    ensures { result ≡ session_record_size }
{
    RECORD_SIZE
}

// The layout's version.
pub fn layout_version() -> u8
    ensures { result ≡ layout_version }
{
    VERSION
}

// Writes the record of these parts at the front of the bytes, and reports whether there were enough.
pub fn encode_record(phase: Phase, count: u8, store: &[u8; SIZE], bytes: &mut [u8]) -> bool
    ensures { SessionRecordWrittenIfRoom (session_of phase count store.now) bytes.old result bytes.new }
{
    if bytes.len() < RECORD_SIZE {
        return false;
    }
    write_record_head(phase, count, bytes);
    bytes[HEAD..RECORD_SIZE].copy_from_slice(&store[..]);
    true
}

// Writes the head of a record at the front of the bytes, whose store stays; too few bytes stay as they are.
pub fn write_record_head(phase: Phase, count: u8, bytes: &mut [u8])
    ensures { bytes.new ≡ record_head_written_over_front_if_room phase count bytes.old }
{
    if bytes.len() < RECORD_SIZE {
        return;
    }
    bytes[..HEAD].copy_from_slice(&head_of(code_of(phase), count));
}

// Takes apart the record at the front of the bytes: its store goes into the caller's.
pub fn decode_record(bytes: &[u8], store: &mut [u8; SIZE]) -> Option<SessionRecordHead>
    ensures { DecodesSessionRecord result bytes.now store.old store.new }
{
    let head = decode_record_head(bytes)?;
    store.copy_from_slice(&bytes[HEAD..RECORD_SIZE]);
    Some(head)
}

// What the head at the front of the bytes reports.
pub fn decode_record_head(bytes: &[u8]) -> Option<SessionRecordHead>
    ensures { result ≡ decoded_record_head (decoded_session bytes.now) }
{
    if bytes.len() < RECORD_SIZE {
        return None;
    }
    let phase = phase_of(code_in(bytes));
    let count = bytes[4];
    let own = head_of(code_of(phase), count);
    if own[..] != bytes[..HEAD] {
        return None;
    }
    Some(SessionRecordHead { phase, count })
}

// A call's answer as a word: the command's length, or an outcome with its reason, or a refusal's number.
pub fn result_word(answer: CallResult) -> u32
    ensures { result ≡ result_word answer }
{
    match answer {
        CallResult::Command(issued) => command_word(issued),
        CallResult::Outcome(end) => outcome_word(end),
        CallResult::Refused(refusal) => refusal_word(refusal.number),
    }
}

// A refusal by its number.
pub fn refusal_word(number: u8) -> u32
    ensures { result ≡ refusal_word number }
{
    REFUSAL + u32::from(number)
}

// A command by its length; no call hands out one that is truncated here.
fn command_word(issued: CommandLength) -> u32
    ensures { result ≡ command_word issued.size }
{
    issued.size.min(MOST_LENGTH) as u32
}

// An outcome with its reason and the CVM.
fn outcome_word(end: OutcomeParameters) -> u32
    ensures { result ≡ outcome_word end }
{
    u32::from(end.cvm) * CVM
        + OUTCOME
        + u32::from(session_record::outcome_number(end.outcome)) * 256
        + u32::from(end.reason)
}

// The code that enough bytes have in their head.
fn code_in(bytes: &[u8]) -> PhaseFields
    requires { session_record_size ≤ length bytes.now }
    ensures { result ≡ phase_fields_in bytes.now }
{
    PhaseFields {
        number: bytes[1],
        datum: bytes[2],
        reason: bytes[3],
        cvm: bytes[5],
        limit: amount_at(bytes, LIMIT),
    }
}

// The code of a phase.
fn code_of(phase: Phase) -> PhaseFields
    ensures { result ≡ phase_fields_of phase }
{
    match phase {
        Phase::Fresh => NOTHING_HELD,
        Phase::Waiting(awaited) => code_of_awaited(awaited),
        Phase::Ended(end) => PhaseFields {
            number: ON_ENDED,
            datum: session_record::outcome_number(end.outcome),
            reason: end.reason,
            ..NOTHING_HELD
        },
    }
}

// The code while a response is awaited.
fn code_of_awaited(awaited: AwaitedResponse) -> PhaseFields
    ensures { result ≡ phase_fields_of_awaited awaited }
{
    match awaited {
        AwaitedResponse::Gpo => PhaseFields {
            number: ON_GPO,
            ..NOTHING_HELD
        },
        AwaitedResponse::Record(place) => PhaseFields {
            number: ON_RECORD,
            datum: place.number,
            limit: place.limit,
            ..NOTHING_HELD
        },
        AwaitedResponse::Cryptogram(asked) => PhaseFields {
            number: ON_CRYPTOGRAM,
            datum: analysis::choice::generate_ac_p1(asked.choice),
            cvm: analysis::cvm::cvm_number(asked.cvm),
            limit: asked.limit,
            ..NOTHING_HELD
        },
        AwaitedResponse::Checksum(checksum) => PhaseFields {
            number: ON_CHECKSUM,
            limit: checksum.limit,
            ..NOTHING_HELD
        },
    }
}

// The head of a code and a count; the limit is eight bytes, high byte first.
fn head_of(code: PhaseFields, count: u8) -> [u8; HEAD]
    ensures { result ≡ record_head_bytes code count }
{
    let mut head = [0u8; HEAD];
    head[..LIMIT].copy_from_slice(&[
        VERSION,
        code.number,
        code.datum,
        code.reason,
        count,
        code.cvm,
    ]);
    head[LIMIT..].copy_from_slice(&amount_bytes(code.limit));
    head
}

// An amount as eight bytes, high byte first.
pub fn amount_bytes(amount: u64) -> [u8; 8]
    ensures { result ≡ big_endian_bytes 8 amount }
{
    amount.to_be_bytes()
}

// The amount that eight bytes have from a place on, high byte first.
pub fn amount_at(bytes: &[u8], at: usize) -> u64
    requires { at + 8 ≤ length bytes.now }
    ensures { result ≡ number_of (take 8 (drop at bytes.now)) }
{
    let mut amount = [0u8; 8];
    amount.copy_from_slice(&bytes[at..at + 8]);
    u64::from_be_bytes(amount)
}

// The phase that a code denotes, the nearest one where no phase has that code.
fn phase_of(code: PhaseFields) -> Phase
    ensures { result ≡ phase_of_phase_fields code }
{
    match code.number {
        ON_FRESH => Phase::Fresh,
        ON_ENDED => Phase::Ended(Ending {
            outcome: outcome_from(code.datum),
            reason: code.reason,
        }),
        _ => Phase::Waiting(awaited_of(code)),
    }
}

// The awaited response that a code denotes, the last one where none has that code.
fn awaited_of(code: PhaseFields) -> AwaitedResponse
    ensures { result ≡ awaited_of_phase_fields code }
{
    let limit = code.limit;
    match code.number {
        ON_GPO => AwaitedResponse::Gpo,
        ON_RECORD => AwaitedResponse::Record(AwaitedRecord {
            number: code.datum,
            limit,
        }),
        ON_CRYPTOGRAM => AwaitedResponse::Cryptogram(RequestedCryptogram {
            choice: choice_from(code.datum),
            cvm: cvm_from(code.cvm),
            limit,
        }),
        _ => AwaitedResponse::Checksum(AwaitedChecksum { limit }),
    }
}

// Kept: a choice, a CVM and an outcome are types of other crates, so a `From<u8>` of them cannot stand here.

// The choice that P1 of the command requests; a decline where no choice has that P1.
fn choice_from(p1: u8) -> Choice
    ensures { result ≡ choice_of_p1 p1 }
{
    match p1 {
        0x40 => Choice::Offline,
        0x80 => Choice::Online,
        _ => Choice::Decline,
    }
}

// The CVM of a number; the last one where no CVM has that number.
fn cvm_from(number: u8) -> Cvm
    ensures { result ≡ cvm_of_number number }
{
    match number {
        0 => Cvm::NoCvm,
        1 => Cvm::Signature,
        2 => Cvm::OnlinePin,
        3 => Cvm::ConfirmationCode,
        _ => Cvm::OfflinePin,
    }
}

// The outcome of a number; the last one where no outcome has that number.
fn outcome_from(number: u8) -> Outcome
    ensures { result ≡ outcome_of_number number }
{
    match number {
        0 => Outcome::Approved,
        1 => Outcome::OnlineRequest,
        2 => Outcome::Declined,
        3 => Outcome::Ended,
        _ => Outcome::SelectNext,
    }
}
