// Plays a list of calls on a fresh session, by making the calls of `session` one after the other.
//
// The calls are concatenated in one slice of the caller's, each as
//
//     1 byte     its kind: 1 start, 2 answer, 3 link failed, 4 stop
//     8 bytes    the length of the bytes that come in, high byte first; 0 for kinds 3 and 4
//     8 bytes    the length of the caller's command buffer
//                the bytes that come in, and the buffer's contents
//
// and the command buffer of a call is the part of the slice that carries it. What a call returns goes into four bytes
// of `replies`: 0 and a command's length in two bytes, 1 with the outcome and the reason, or 2, 0 and the number of a
// refusal; and then the session's count. Bytes after them stay.
#![tactic(auto)]

ghost use Rattle.std.specs.Prelude.{◌≡◌, true, List, ◌+◌, ◌≤◌, ◌<◌, leb, length, take, drop};
ghost use Rattle.basics.specs.Number.{big_endian_number};
ghost use Rattle.session_record.specs.Session.{fresh_session};
ghost use Rattle.session.specs.Steps.{ReturnsStep};
ghost use Rattle.session.specs.Calls.{Call, call_step as step_of};
ghost use Rattle.call_list.specs.Encoding.{call_header_size, call_end_offset, is_call_kind_with_allowed_length, call_header_in, begins_with_whole_call};
ghost use Rattle.call_list.specs.Encoding.{call_of_kind, call_by_header, parsed_calls, encoded_calls};
ghost use Rattle.call_list.specs.Playing.{reply_bytes, PlaysCalls, PlaysListInBytes, play_result_of, play_result_number};
ghost use Rattle.call_list.specs.Inner.{call_front_in, calls_counted_in, step_with_buffer_in_call_bytes, PlaysOneCall, CallsWithRoomForReplies, calls_or_empty};

use session_record::{CallResult, Reply, Session};

// Why no call was played: the bytes are no list of calls, or `replies` is too short for the replies. Then nothing is
// written.
#[derive(Clone, Copy, PartialEq, Eq)]
pub enum PlayError {
    Malformed,
    TooShort,
}

// The session after the last call that was played, and whether all calls were.
#[derive(Clone, Copy)]
pub struct ListPlayed {
    pub session: Session,
    pub said: Result<(), PlayError>,
}

// What is before a call's bytes and buffer: its kind, and how long the two are.
#[derive(Clone, Copy)]
pub struct CallHeader {
    pub kind: u8,
    pub incoming: usize,
    pub capacity: usize,
}

// A call that was played: the session after it, and how many bytes it takes up.
#[derive(Clone, Copy)]
pub struct CallPlayed {
    pub session: Session,
    pub size: usize,
}

const HEADER: usize = 17;

// The number of what a run reports.
pub fn play_result_number(said: Result<(), PlayError>) -> u8
    ensures { result ≡ play_result_number said }
{
    match said {
        Ok(()) => 0,
        Err(PlayError::Malformed) => 1,
        Err(PlayError::TooShort) => 2,
    }
}

// Plays the calls that are in `calls`.
pub fn play_list(calls: &mut [u8], replies: &mut [u8]) -> ListPlayed
    ensures plays_list_in_bytes { PlaysListInBytes result calls.new replies.new calls.old replies.old }
    ensures every_list { (cs : List Call) → parsed_calls (encoded_calls cs) ≡ Some cs }
{
    let said = playable(calls, replies);
    if said.is_err() {
        let session = session_record::fresh_session();
        return ListPlayed { session, said };
    }
    let session = play_all(calls, replies);
    ListPlayed { session, said }
}

// Whether the bytes are a list of calls with room for its replies.
fn playable(calls: &[u8], replies: &[u8]) -> Result<(), PlayError>
    ensures { result ≡ play_result_of (parsed_calls calls.now) replies.now }
{
    let n = count_calls(calls).ok_or(PlayError::Malformed)?;
    if replies.len() / 4 < n {
        return Err(PlayError::TooShort);
    }
    Ok(())
}

// How many calls are in some bytes.
#[tactic(auto, using(crate::proofs::Read::front_end))]
fn count_calls(calls: &[u8]) -> Option<usize>
    ensures { result ≡ calls_counted_in (parsed_calls calls.now) }
{
    let mut rest = calls;
    let mut n = 0;
    // Kept: a call's size is read from its bytes, so no chunks of one size walk over them.
    while rest.len() != 0 {
        let header = front_of(rest)?;
        let end = HEADER + header.incoming + header.capacity;
        rest = &rest[end..];
        n += 1;
    }
    Some(n)
}

// The call at the front of some bytes: of a known kind, and whole.
fn front_of(s: &[u8]) -> Option<CallHeader>
    ensures { result ≡ call_front_in s.now }
{
    if s.len() < HEADER {
        return None;
    }
    let header = header_of(s);
    if is_kind(header.kind, header.incoming) && is_inside(header, s.len()) {
        return Some(header);
    }
    None
}

// The header before a call.
fn header_of(s: &[u8]) -> CallHeader
    requires { call_header_size ≤ length s.now }
    ensures { result ≡ call_header_in s.now }
{
    CallHeader {
        kind: s[0],
        incoming: eight(&s[1..9]),
        capacity: eight(&s[9..17]),
    }
}

// Start and answer bring bytes, link failed and stop none.
#[tactic(auto, unfolding(crate::specs::Encoding::is_call_kind_with_allowed_length, basics::specs::Choice::either, basics::specs::Choice::both))]
fn is_kind(kind: u8, incoming: usize) -> bool
    ensures { result ≡ is_call_kind_with_allowed_length kind incoming }
{
    matches!(kind, 1 | 2) || incoming == 0 && matches!(kind, 3 | 4)
}

// A call ends inside so many bytes.
fn is_inside(header: CallHeader, size: usize) -> bool
    ensures { result ≡ leb (call_end_offset header) size }
{
    size.checked_sub(HEADER)
        .and_then(|behind| behind.checked_sub(header.incoming))
        .is_some_and(|room| header.capacity <= room)
}

// Eight bytes as a number, high byte first.
fn eight(s: &[u8]) -> usize
    requires { length s.now ≡ 8 }
    ensures { result ≡ big_endian_number s.now }
{
    usize::from_be_bytes([s[0], s[1], s[2], s[3], s[4], s[5], s[6], s[7]])
}

// Plays every call of a list of calls, on a fresh session.
fn play_all(calls: &mut [u8], replies: &mut [u8]) -> Session
    requires { CallsWithRoomForReplies (parsed_calls calls.old) replies.old }
    ensures { PlaysCalls result calls.new replies.new calls.old replies.old
        (calls_or_empty (parsed_calls calls.old)) }
{
    let mut session = session_record::fresh_session();
    let mut at = 0;
    let mut out = 0;
    // Kept: a call's size is read from its bytes, and both slices are lent to it in parts.
    while at < calls.len() {
        let transition = one_call(session, &mut calls[at..], &mut replies[out..]);
        session = transition.session;
        at += transition.size;
        out += 4;
    }
    session
}

// Plays the call at the front of `calls`, and writes what it returned to the front of `replies`.
fn one_call(session: Session, calls: &mut [u8], replies: &mut [u8]) -> CallPlayed
    requires { (begins_with_whole_call calls.old ≡ true) × (4 ≤ length replies.old) }
    ensures { PlaysOneCall result calls.new replies.new session calls.old replies.old }
{
    let header = header_of(calls);
    let reply = call_in(session, header, calls);
    replies[..4].copy_from_slice(&reply_bytes(reply));
    let next = reply.session;
    CallPlayed {
        session: next,
        size: HEADER + header.incoming + header.capacity,
    }
}

// Makes the call at the front of `calls`, in place. The bytes that come in are copied, since the buffer is
// a part of the same slice; more than 1,025 of them are like any other 1,025.
fn call_in(session: Session, header: CallHeader, calls: &mut [u8]) -> Reply
    requires { call_end_offset header ≤ length calls.old }
    ensures { ReturnsStep result calls.new (step_with_buffer_in_call_bytes calls.old header (step_of session (call_by_header calls.old header))) }
{
    let from = HEADER + header.incoming;
    let end = from + header.capacity;
    let n = header.incoming.min(1025);
    let incoming = first_bytes(calls, n);
    make(session, header.kind, &incoming[..n], &mut calls[from..end])
}

// The first n bytes that come in with the call at the front of `calls`.
fn first_bytes(calls: &[u8], n: usize) -> [u8; 1025]
    requires { (n ≤ 1025) × (call_header_size + n ≤ length calls.now) }
    ensures { take n result ≡ take n (drop call_header_size calls.now) }
{
    let end = HEADER + n;
    let mut incoming = [0u8; 1025];
    incoming[..n].copy_from_slice(&calls[HEADER..end]);
    incoming
}

// Makes a call, by its kind.
fn make(session: Session, kind: u8, incoming: &[u8], command: &mut [u8]) -> Reply
    ensures { ReturnsStep result command.new (step_of session (call_of_kind kind incoming.now command.old)) }
{
    match kind {
        1 => session::start(session, incoming, command),
        2 => session::answer(session, incoming, command),
        3 => session::link_failed(session, command),
        _ => session::stop(session, command),
    }
}

// What a call returned, in four bytes.
fn reply_bytes(reply: Reply) -> [u8; 4]
    ensures { result ≡ reply_bytes reply }
{
    let count = session_record::command_count(reply.session);
    let answer = reply.answer;
    match answer {
        CallResult::Command(issued) => {
            let size = issued.size;
            [0, (size / 256 % 256) as u8, (size % 256) as u8, count]
        }
        CallResult::Outcome(end) => {
            let outcome = end.outcome;
            [
                1,
                session_record::outcome_number(outcome),
                end.reason,
                count,
            ]
        }
        CallResult::Refused(refusal) => [2, 0, refusal.number, count],
    }
}
