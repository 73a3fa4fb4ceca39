// The records of a session's journal, written: of each call that was not refused, and of its reply.
//
// A record is one byte of kind and a body whose size the kind fixes. What is in each is defined with the library
// `journal`, which checks them.
ghost use Rattle.std.specs.Prelude.{◌≡◌, [], ◌+◌, ◌≤◌, length};
ghost use Rattle.session_record.specs.declared.CallResult.{CallResult};
ghost use Rattle.session.specs.Calls.{answer as an_answer, link_failed as a_failure, stop as a_stop};
ghost use Rattle.journal.specs.Record.{journal_call_record, journal_reply_record};
ghost use Rattle.journal.specs.Writer.{start_record_or_zeros, command_record_or_zeros};
ghost use Rattle.journal.specs.Inner.{journal_record_written_over_front};

use crate::{
    ANSWER_RECORD, COMMAND_RECORD, KIND_ANSWER, KIND_COMMAND, KIND_LINK_FAILED, KIND_OUTCOME,
    KIND_START, KIND_STOP, MOST_ANSWER, MOST_COMMAND, MOST_START, OUTCOME_RECORD, START_RECORD,
};
use session_record::OutcomeParameters;

// A start. More than 1,024 bytes are refused and have no record: zeros.
pub fn start_record(bytes: &[u8]) -> [u8; START_RECORD]
    ensures { result ≡ start_record_or_zeros bytes.now }
{
    let mut out = [0u8; START_RECORD];
    if bytes.len() <= MOST_START {
        fill(KIND_START, bytes, &mut out);
    }
    out
}

// A card answer; one of more than 258 bytes has length FF FF and a zero body.
pub fn answer_record(card: &[u8]) -> [u8; ANSWER_RECORD]
    ensures { result ≡ journal_call_record (an_answer card.now []) }
{
    let mut out = [0u8; ANSWER_RECORD];
    if MOST_ANSWER < card.len() {
        out[0] = KIND_ANSWER;
        out[1] = 0xFF;
        out[2] = 0xFF;
        return out;
    }
    fill(KIND_ANSWER, card, &mut out);
    out
}

// The link failed.
pub fn link_failed_record() -> [u8; 1]
    ensures { result ≡ journal_call_record (a_failure []) }
{
    [KIND_LINK_FAILED]
}

// A stop.
pub fn stop_record() -> [u8; 1]
    ensures { result ≡ journal_call_record (a_stop []) }
{
    [KIND_STOP]
}

// A command that is at the front of a buffer. One of more bytes than a record or the buffer has is none: zeros.
pub fn command_record(size: usize, buffer: &[u8]) -> [u8; COMMAND_RECORD]
    ensures { result ≡ command_record_or_zeros size buffer.now }
{
    let mut out = [0u8; COMMAND_RECORD];
    if size <= MOST_COMMAND && size <= buffer.len() {
        fill(KIND_COMMAND, &buffer[..size], &mut out);
    }
    out
}

// An outcome and its reason.
pub fn outcome_record(end: OutcomeParameters) -> [u8; OUTCOME_RECORD]
    ensures { result ≡ journal_reply_record (CallResult.Outcome end) [] }
{
    [
        KIND_OUTCOME,
        session_record::outcome_number(end.outcome),
        end.reason,
    ]
}

// Kind, length in two bytes and the bytes, at the front of what is there.
fn fill(kind: u8, bytes: &[u8], out: &mut [u8])
    requires { length bytes.now + 3 ≤ length out.old }
    ensures { out.new ≡ journal_record_written_over_front kind bytes.now out.old }
{
    let n = bytes.len();
    out[0] = kind;
    out[1] = (n / 256 % 256) as u8;
    out[2] = (n % 256) as u8;
    out[3..3 + n].copy_from_slice(bytes);
}
