// Lists of calls in bytes, played and shown: each reply's four bytes on a line, then what the run reports, the
// session's count, and how many commands, outcomes and refusals the replies are.
#![tactic(auto)]

ghost use Rattle.std.specs.Prelude.{◌≤◌, length};

use call_list::PlayError;

fn main(rt: HostRuntime) {
    purchase(&rt);
    refused_between(&rt);
    link_failure(&rt);
    malformed(&rt);
    short_replies(&rt);
    longest(&rt);
}

// ---- lists

// The bench's purchase: one record, and the decision to go online. The commands are in the buffers.
fn purchase(rt: &impl Print) {
    print::print_text(rt, b"purchase\n");
    let mut calls = [0u8; 65536];
    let mut replies = [0xEEu8; 17];
    let started = start(&mut calls, 0);
    let optioned = answer(
        &mut calls,
        started,
        b"\x80\x06\x00\x80\x08\x01\x01\x00\x90\x00",
    );
    let read = answer(
        &mut calls,
        optioned,
        b"\x70\x14\x5F\x24\x03\x30\x12\x31\x5A\x08\x47\x61\x73\x90\x01\x01\x00\x10\x8C\x02\x95\x05\x90\x00",
    );
    let end = answer(
        &mut calls,
        read,
        b"\x80\x0B\x80\x00\x01\x01\x02\x03\x04\x05\x06\x07\x08\x90\x00",
    );
    play(rt, &mut calls, end, &mut replies);
    command(rt, &calls, started, 8);
    command(rt, &calls, optioned, 5);
    command(rt, &calls, read, 11);
}

// Refused calls in between: an answer and a stop before the start, a start with a short buffer, a second start.
fn refused_between(rt: &impl Print) {
    print::print_text(rt, b"refused calls in between\n");
    let mut calls = [0u8; 65536];
    let mut replies = [0xEEu8; 28];
    let early = answer(&mut calls, 0, b"\x90\x00");
    let stopped = put(&mut calls, early, 4, b"", 261);
    let short = put(&mut calls, stopped, 1, &terminal(), 260);
    let started = start(&mut calls, short);
    let again = start(&mut calls, started);
    let small = put(
        &mut calls,
        again,
        2,
        b"\x80\x06\x00\x80\x08\x01\x01\x00\x90\x00",
        0,
    );
    let end = answer(
        &mut calls,
        small,
        b"\x80\x06\x00\x80\x08\x01\x01\x00\x90\x00",
    );
    play(rt, &mut calls, end, &mut replies);
    command(rt, &calls, end, 5);
}

// The link fails while the session waits on GPO; the call after it is refused.
fn link_failure(rt: &impl Print) {
    print::print_text(rt, b"link failed\n");
    let mut calls = [0u8; 65536];
    let mut replies = [0xEEu8; 12];
    let started = start(&mut calls, 0);
    let failed = put(&mut calls, started, 3, b"", 261);
    let end = answer(&mut calls, failed, b"\x90\x00");
    play(rt, &mut calls, end, &mut replies);
}

// A stop that brings a byte: no list of calls, so the start before it is not played.
fn malformed(rt: &impl Print) {
    print::print_text(rt, b"malformed\n");
    let mut calls = [0u8; 65536];
    let mut replies = [0xEEu8; 8];
    let started = start(&mut calls, 0);
    let end = put(&mut calls, started, 4, b"\x00", 261);
    play(rt, &mut calls, end, &mut replies);
    command(rt, &calls, started, 8);
}

// Two calls, and room for one reply.
fn short_replies(rt: &impl Print) {
    print::print_text(rt, b"too short for the replies\n");
    let mut calls = [0u8; 65536];
    let mut replies = [0xEEu8; 7];
    let started = start(&mut calls, 0);
    let end = put(&mut calls, started, 4, b"", 261);
    play(rt, &mut calls, end, &mut replies);
    command(rt, &calls, started, 8);
}

// 128 records: 130 commands in 131 calls that are not refused, and a last one that is.
fn longest(rt: &impl Print) {
    print::print_text(rt, b"128 records\n");
    let mut calls = [0u8; 65536];
    let mut replies = [0xEEu8; 528];
    let started = start(&mut calls, 0);
    let optioned = answer(
        &mut calls,
        started,
        b"\x80\x06\x00\x80\x08\x01\x80\x00\x90\x00",
    );
    let records = empty_records(&mut calls, optioned);
    let last = answer(
        &mut calls,
        records,
        b"\x70\x14\x5F\x24\x03\x30\x12\x31\x5A\x08\x47\x61\x73\x90\x01\x01\x00\x10\x8C\x02\x95\x05\x90\x00",
    );
    let decided = answer(
        &mut calls,
        last,
        b"\x80\x0B\x80\x00\x01\x01\x02\x03\x04\x05\x06\x07\x08\x90\x00",
    );
    let end = put(&mut calls, decided, 4, b"", 261);
    play(rt, &mut calls, end, &mut replies);
}

// ---- the calls of a list, each after those before it

// The terminal's objects: an amount of 12.34 on a terminal of type 22.
fn terminal() -> [u8; 123] {
    [
        0x9A, 0x03, 0x25, 0x11, 0x15, 0x9C, 0x01, 0x00, 0x9F, 0x02, 0x06, 0x00, 0x00, 0x00, 0x00,
        0x12, 0x34, 0x9F, 0x09, 0x02, 0x00, 0x02, 0x9F, 0x1A, 0x02, 0x00, 0x56, 0x9F, 0x33, 0x03,
        0xE0, 0x68, 0xC8, 0x9F, 0x35, 0x01, 0x22, 0x9F, 0x37, 0x04, 0x01, 0x02, 0x03, 0x04, 0xDF,
        0x81, 0x1B, 0x01, 0x00, 0xDF, 0x81, 0x20, 0x05, 0x00, 0x00, 0x00, 0x00, 0x00, 0xDF, 0x81,
        0x21, 0x05, 0x00, 0x00, 0x00, 0x00, 0x00, 0xDF, 0x81, 0x22, 0x05, 0x00, 0x00, 0x00, 0x00,
        0x00, 0xDF, 0x81, 0x23, 0x06, 0x00, 0x00, 0x00, 0x01, 0x00, 0x00, 0xDF, 0x81, 0x24, 0x06,
        0x00, 0x00, 0x00, 0x02, 0x00, 0x00, 0xDF, 0x81, 0x25, 0x06, 0x99, 0x99, 0x99, 0x99, 0x99,
        0x99, 0xDF, 0x81, 0x26, 0x06, 0x00, 0x00, 0x00, 0x00, 0x10, 0x00, 0x9F, 0x6A, 0x04, 0x00,
        0x00, 0x34, 0x56,
    ]
}

fn start(calls: &mut [u8], at: usize) -> usize
    ensures { result ≤ length calls.old }
{
    put(calls, at, 1, &terminal(), 261)
}

fn answer(calls: &mut [u8], at: usize, card: &[u8]) -> usize
    ensures { result ≤ length calls.old }
{
    put(calls, at, 2, card, 261)
}

// 127 records that bring nothing.
fn empty_records(calls: &mut [u8], at: usize) -> usize {
    (0..127u8).fold(at, |end, _| answer(calls, end, b"\x70\x00\x90\x00"))
}

// Writes a call at a place of a slice of zeros; where it ends. Its buffer is of zeros.
fn put(calls: &mut [u8], at: usize, kind: u8, incoming: &[u8], capacity: usize) -> usize
    ensures { result ≤ length calls.old }
{
    let n = incoming.len();
    if calls.len() < at {
        return calls.len();
    }
    if 65535 < n || 65535 < capacity || calls.len() - at < 17 + n + capacity {
        return at;
    }
    let from = at + 17;
    let end = from + n;
    calls[at..from].copy_from_slice(&header(kind, n, capacity));
    calls[from..end].copy_from_slice(incoming);
    end + capacity
}

// The kind and the two lengths, each in eight bytes, high byte first.
fn header(kind: u8, n: usize, capacity: usize) -> [u8; 17] {
    let mut out = [kind; 17];
    out[1..9].copy_from_slice(&n.to_be_bytes());
    out[9..].copy_from_slice(&capacity.to_be_bytes());
    out
}

// ---- what is shown

// Plays the calls that end at a place, and shows the replies.
fn play(rt: &impl Print, calls: &mut [u8], end: usize, replies: &mut [u8]) {
    if calls.len() < end {
        return;
    }
    let ran = call_list::play_list(&mut calls[0..end], replies);
    lines(rt, replies);
    match ran.said {
        Ok(()) => print::print_text(rt, b"played"),
        Err(PlayError::Malformed) => print::print_text(rt, b"no list of calls"),
        Err(PlayError::TooShort) => print::print_text(rt, b"too little room"),
    }
    print::print_text(rt, b", count ");
    print::print_number(rt, usize::from(session_record::command_count(ran.session)));
    print::print_text(rt, b", commands ");
    print::print_number(rt, kinds(replies, 0));
    print::print_text(rt, b", outcomes ");
    print::print_number(rt, kinds(replies, 1));
    print::print_text(rt, b", refusals ");
    print::print_number(rt, kinds(replies, 2));
    print::print_text(rt, b"\n");
}

// Four bytes to a line; bytes after the replies too.
fn lines(rt: &impl Print, s: &[u8]) {
    for line in s.chunks(4) {
        print::print_bytes(rt, line);
        print::print_text(rt, b"\n");
    }
}

// How many replies are of a kind.
fn kinds(replies: &[u8], kind: u8) -> usize {
    replies
        .chunks_exact(4)
        .filter(|reply| reply.first() == Some(&kind))
        .count()
}

// The first bytes of the buffer of 261 bytes that ends at a place.
fn command(rt: &impl Print, calls: &[u8], end: usize, n: usize) {
    if calls.len() < end || end < 261 || 261 < n {
        return;
    }
    let from = end - 261;
    let to = from + n;
    print::print_bytes(rt, &calls[from..to]);
    print::print_text(rt, b"\n");
}
