// Plays a text file of calls on a fresh session: the file named by the argument, or standard input where there is none.
// Each call's reply is a line, with lines below it that say more; after the last are the objects that the session
// holds, and one line that says why it is where it is. A line that is wrong is reported by its number, and nothing
// after it is played.
//
// The file is read in parts of 4,096 bytes. What a line means is the library `line`'s matter. What is wrong goes to
// standard error. With --journal the session's journal goes to a file. With --tell the exit status goes to descriptor
// 3: 0 where all was played, 2 where a journal could not be written, else 1.
#![tactic(auto)]

mod arguments;
mod explained;
mod recorded;
mod why;

use arguments::ReplayArguments;
use print::tree::TreeView;
use program::LONGEST_ARGUMENT;
use session_record::{CallResult, Phase, Reply, Session};
use std::fs::File;
use std::io::Read;
use text_line::{LONGEST, Line, MOST};

// What is carried from line to line: the session, the length of the caller's command buffer, what is shown, whether
// `session` was read, the number of the line that is read, and how many of its characters are there.
#[derive(Clone, Copy)]
struct ReplayProgress {
    session: Session,
    buffer: usize,
    view: TreeView,
    renewed: bool,
    number: usize,
    filled: usize,
}

// Why a file is not played to its end, or its journal is not whole. What is wrong has been reported then.
#[derive(Clone, Copy)]
enum Failure {
    Wrong,
    Unwritten,
}

// What is wrong is reported under this name.
const NAME: &str = "replay";

// Room for the longest line and one more character, by which a longer one is known.
const ROOM: usize = MOST + 1;

// The length of the command buffer where none is requested.
const USUAL: usize = 261;

fn main(rt: HostRuntime) {
    let asked = arguments::replay_arguments(&rt);
    let played = played(&rt, asked);
    program::report_status(&rt, asked.common, status(played));
}

// The exit status.
fn status(played: Result<(), Failure>) -> u8 {
    match played {
        Ok(()) => 0,
        Err(Failure::Wrong) => 1,
        Err(Failure::Unwritten) => 2,
    }
}

// Plays the file that an argument names, or standard input.
fn played(rt: &HostRuntime, asked: ReplayArguments) -> Result<(), Failure> {
    if asked.common.wrong {
        return Err(Failure::Wrong);
    }
    let mut source = program::open_source(rt, asked.common.file).ok_or(Failure::Wrong)?;
    kept(rt, &mut source, asked)
}

// Plays a file, and keeps its journal where one is requested.
fn kept(rt: &HostRuntime, source: &mut impl Read, asked: ReplayArguments) -> Result<(), Failure> {
    let Some(argument) = asked.journal else {
        return play(rt, source, asked.view, None);
    };
    let mut path = [0u8; LONGEST_ARGUMENT];
    let n = program::argument(rt, argument, &mut path);
    let journal = match program::open_overwrite(rt, &path[..n]) {
        Ok(file) => file,
        Err(error) => {
            program::print_failure(rt, &rt.stderr(), &path[..n], error);
            return Err(Failure::Unwritten);
        }
    };
    play(rt, source, asked.view, Some(&journal))?;
    match program::written(&journal) {
        Ok(()) => Ok(()),
        Err(error) => {
            program::print_failure(rt, &rt.stderr(), &path[..n], error);
            Err(Failure::Unwritten)
        }
    }
}

// ---- the file's lines

// Plays all of a file; at its end, what is left is the last line, and what the session holds is shown. A proved loop
// has to end, so it has a number of iterations that no file uses up.
fn play(
    rt: &HostRuntime,
    source: &mut impl Read,
    view: TreeView,
    journal: Option<&File>,
) -> Result<(), Failure> {
    let mut line = [0u8; ROOM];
    let mut state = beginning(view);
    for _ in 0..u64::MAX {
        let mut part = [0u8; 4096];
        let n = program::read_part(rt, NAME, source, &mut part).ok_or(Failure::Wrong)?;
        if n == 0 {
            state = play_line(rt, state, &line, journal)?;
            holding(rt, state);
            return Ok(());
        }
        state = play_lines(rt, state, &part[..n], &mut line, journal)?;
    }
    Ok(())
}

fn beginning(view: TreeView) -> ReplayProgress {
    ReplayProgress {
        session: session_record::fresh_session(),
        buffer: USUAL,
        view,
        renewed: false,
        number: 1,
        filled: 0,
    }
}

// Plays the lines that end in a part, and keeps what follows them.
fn play_lines(
    rt: &HostRuntime,
    state: ReplayProgress,
    part: &[u8],
    line: &mut [u8; ROOM],
    journal: Option<&File>,
) -> Result<ReplayProgress, Failure> {
    let mut next = state;
    for (i, chars) in part.split(|b| *b == b'\n').enumerate() {
        // What is before a new line ends a line.
        if 0 < i {
            next = play_line(rt, next, line, journal)?;
        }
        next = keep(next, chars, line);
    }
    Ok(next)
}

// The state with more characters of its line, as many as there is room for.
fn keep(state: ReplayProgress, chars: &[u8], line: &mut [u8; ROOM]) -> ReplayProgress {
    let Some(room) = line.get_mut(state.filled..) else {
        return state;
    };
    let n = chars.len().min(room.len());
    room[..n].copy_from_slice(&chars[..n]);
    ReplayProgress {
        filled: state.filled.saturating_add(n),
        ..state
    }
}

// ---- one line

// Plays the line that has been read.
fn play_line(
    rt: &HostRuntime,
    state: ReplayProgress,
    line: &[u8],
    journal: Option<&File>,
) -> Result<ReplayProgress, Failure> {
    let mut bytes = [0u8; LONGEST];
    let said = text_line::parse_line(program::front(line, state.filled), &mut bytes);
    let next = match said {
        Ok(Line::Blank) => state,
        Ok(Line::Buffer(size)) => ReplayProgress {
            buffer: size.bytes,
            ..state
        },
        Ok(Line::Session) => session_line(rt, state, journal.is_some())?,
        Err(problem) => {
            report(rt, state.number, problem.number);
            return Err(Failure::Wrong);
        }
        Ok(said) => made(rt, state, &said, &bytes, journal)?,
    };
    Ok(ReplayProgress {
        number: state.number.saturating_add(1),
        filled: 0,
        ..next
    })
}

// Makes a call, with its bytes at the front of `bytes`, puts it into the journal and shows its reply, and below it what
// it is due to.
fn made(
    rt: &HostRuntime,
    state: ReplayProgress,
    said: &Line,
    bytes: &[u8],
    journal: Option<&File>,
) -> Result<ReplayProgress, Failure> {
    let mut space = [0u8; LONGEST];
    let command = &mut space[..state.buffer.min(LONGEST)];
    let reply = call(rt, state.session, said, bytes, command);
    print::print_reply_in_words(rt, reply, command);
    let answer = reply.answer;
    let written = recorded::append_to_journal(rt, journal, said, bytes, answer, command);
    match said {
        Line::Start(brought) => {
            if let CallResult::Refused(refusal) = answer {
                why::print_start_refusal(rt, program::front(bytes, brought.size), refusal.number);
            }
        }
        Line::Answer(brought) => {
            let card = program::front(bytes, brought.size);
            why::print_answer_details(rt, card, reason_in(answer), state.view);
        }
        _ => {}
    }
    written?;
    Ok(ReplayProgress {
        session: reply.session,
        ..state
    })
}

fn call(
    rt: &HostRuntime,
    session: Session,
    said: &Line,
    bytes: &[u8],
    command: &mut [u8],
) -> Reply {
    match said {
        Line::Start(brought) => {
            print::print_text(rt, b"start: ");
            session::start(session, program::front(bytes, brought.size), command)
        }
        Line::Answer(brought) => {
            let card = program::front(bytes, brought.size);
            answer_line(rt, card);
            session::answer(session, card, command)
        }
        Line::LinkFailed => {
            print::print_text(rt, b"link-failed: ");
            session::link_failed(session, command)
        }
        _ => {
            print::print_text(rt, b"stop: ");
            session::stop(session, command)
        }
    }
}

// The word for an answer, with its status bytes.
fn answer_line(rt: &HostRuntime, card: &[u8]) {
    let Some(n) = card.len().checked_sub(2) else {
        print::print_text(rt, b"answer without status bytes: ");
        return;
    };
    print::print_text(rt, b"answer");
    print::print_bytes(rt, &card[n..]);
    print::print_text(rt, b": ");
}

// The reason of an outcome, 0 where there is none.
fn reason_in(answer: CallResult) -> u8 {
    match answer {
        CallResult::Outcome(end) => end.reason,
        _ => basics::REASON_NONE,
    }
}

// ---- the end of a session

// `session`: a journal is of one, so after a call that was taken, and a second time, the line is wrong.
fn session_line(
    rt: &HostRuntime,
    state: ReplayProgress,
    journal: bool,
) -> Result<ReplayProgress, Failure> {
    if journal && (state.renewed || !is_fresh(state.session)) {
        let _ = eprintln!(rt;
            "replay: line {}: expected no further session, since a journal is of one",
            state.number
        );
        return Err(Failure::Wrong);
    }
    Ok(renewed(rt, state))
}

fn is_fresh(session: Session) -> bool {
    matches!(session.phase, Phase::Fresh)
}

// A fresh session and the usual buffer; first what the session before it holds.
fn renewed(rt: &HostRuntime, state: ReplayProgress) -> ReplayProgress {
    if !is_fresh(state.session) {
        holding(rt, state);
    }
    print::print_text(rt, b"session: fresh\n");
    ReplayProgress {
        session: session_record::fresh_session(),
        buffer: USUAL,
        renewed: true,
        ..state
    }
}

// Shows the objects held and why.
fn holding(rt: &HostRuntime, state: ReplayProgress) {
    let session = state.session;
    let store = session.store;
    print::print_text(rt, b"objects held:\n");
    print::print_stored_objects(rt, &store.bytes, state.view.bits);
    explained::print_explanation_line(rt, session);
}

// ---- what is wrong

// A line that is wrong, by its number, with what was expected.
fn report(rt: &HostRuntime, number: usize, problem: u8) {
    let expected = match problem {
        text_line::LONG => "expected at most 8,192 characters",
        text_line::WORD => {
            "unknown word; expected start HEX, answer HEX, link-failed, stop, buffer N or session"
        }
        text_line::HEX => "expected bytes, each two hexadecimal digits side by side",
        text_line::BEHIND => "expected nothing more but a comment, which # starts",
        text_line::NUMBER => "expected a number up to 4,096 behind buffer",
        _ => "expected at most 4,096 bytes",
    };
    let _ = eprintln!(rt; "replay: line {number}: {expected}");
}
