// The journal of the session that is played: each call that is not refused, and its reply.
use crate::Failure;
use session_record::CallResult;
use std::fs::File;
use std::io::Write;
use text_line::Line;

// Puts a call and its reply after what the journal has, unless there is none or the call is refused.
pub fn append_to_journal(
    rt: &HostRuntime,
    journal: Option<&File>,
    said: &Line,
    bytes: &[u8],
    answer: CallResult,
    command: &[u8],
) -> Result<(), Failure> {
    let Some(file) = journal else {
        return Ok(());
    };
    if let CallResult::Refused(_) = answer {
        return Ok(());
    }
    call(rt, file, said, bytes)?;
    reply(rt, file, answer, command)
}

// The record of a call, with its bytes at the front of `bytes`.
fn call(rt: &HostRuntime, journal: &File, said: &Line, bytes: &[u8]) -> Result<(), Failure> {
    match said {
        Line::Start(brought) => put(
            rt,
            journal,
            &journal::writer::start_record(program::front(bytes, brought.size)),
        ),
        Line::Answer(brought) => put(
            rt,
            journal,
            &journal::writer::answer_record(program::front(bytes, brought.size)),
        ),
        Line::LinkFailed => put(rt, journal, &journal::writer::link_failed_record()),
        _ => put(rt, journal, &journal::writer::stop_record()),
    }
}

// The record of a reply.
fn reply(
    rt: &HostRuntime,
    journal: &File,
    answer: CallResult,
    command: &[u8],
) -> Result<(), Failure> {
    match answer {
        CallResult::Command(issued) => put(
            rt,
            journal,
            &journal::writer::command_record(issued.size, command),
        ),
        CallResult::Outcome(end) => put(rt, journal, &journal::writer::outcome_record(end)),
        CallResult::Refused(_) => Ok(()),
    }
}

// Writes one record.
fn put(rt: &HostRuntime, journal: &File, record: &[u8]) -> Result<(), Failure> {
    let mut file = journal;
    match file.write_all(record) {
        Ok(()) => Ok(()),
        Err(error) => {
            program::print_failure(
                rt,
                &rt.stderr(),
                b"replay: the journal could not be written",
                error,
            );
            Err(Failure::Unwritten)
        }
    }
}
