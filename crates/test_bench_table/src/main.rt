// Every row of the bench table, run through the calls, and the object count of further answers: a line for each.
#![tactic(auto)]

use reading::{Awaited, Sfi};
use session_record::{Reply, Session};

// How many of the start bytes are before the PDOL (9F38).
const PLAIN: usize = 123;

fn main(rt: HostRuntime) {
    record_rows(&rt);
    count_rows(&rt);
    padded_rows(&rt);
    unpadded_rows(&rt);
    gpo_rows(&rt);
    result_rows(&rt);
    table_rows(&rt);
    second_rows(&rt);
    start_rows(&rt);
}

// ---- start bytes

// All that a start must bring, for a terminal type and a floor limit of so many hundreds; then a PDOL (9F38) that
// requests so many bytes of 9F02, which is 00 00 00 00 12 34.
fn terminal(kind: u8, floor: u8, asked: u8) -> [u8; 129] {
    [
        0x9A, 0x03, 0x25, 0x11, 0x15, 0x9C, 0x01, 0x00, 0x9F, 0x02, 0x06, 0x00, 0x00, 0x00, 0x00,
        0x12, 0x34, 0x9F, 0x09, 0x02, 0x00, 0x02, 0x9F, 0x1A, 0x02, 0x00, 0x56, 0x9F, 0x33, 0x03,
        0xE0, 0x68, 0xC8, 0x9F, 0x35, 0x01, kind, 0x9F, 0x37, 0x04, 0x01, 0x02, 0x03, 0x04, 0xDF,
        0x81, 0x1B, 0x01, 0x00, 0xDF, 0x81, 0x20, 0x05, 0x00, 0x00, 0x00, 0x00, 0x00, 0xDF, 0x81,
        0x21, 0x05, 0x00, 0x00, 0x00, 0x00, 0x00, 0xDF, 0x81, 0x22, 0x05, 0x00, 0x00, 0x00, 0x00,
        0x00, 0xDF, 0x81, 0x23, 0x06, 0x00, 0x00, 0x00, floor, 0x00, 0x00, 0xDF, 0x81, 0x24, 0x06,
        0x00, 0x00, 0x00, 0x02, 0x00, 0x00, 0xDF, 0x81, 0x25, 0x06, 0x99, 0x99, 0x99, 0x99, 0x99,
        0x99, 0xDF, 0x81, 0x26, 0x06, 0x00, 0x00, 0x00, 0x00, 0x10, 0x00, 0x9F, 0x6A, 0x04, 0x00,
        0x00, 0x34, 0x56, 0x9F, 0x38, 0x03, 0x9F, 0x02, asked,
    ]
}

// A start of a fresh session with no 9F38.
fn start_plain(kind: u8, floor: u8, command: &mut [u8]) -> Reply {
    let bytes = terminal(kind, floor, 0);
    session::start(session_record::fresh_session(), &bytes[..PLAIN], command)
}

// The session after it.
fn started(kind: u8, floor: u8) -> Session {
    let mut command = [0u8; 261];
    let reply = start_plain(kind, floor, &mut command);
    reply.session
}

// The session after one more answer.
fn answered(session: Session, card: &[u8]) -> Session {
    let mut command = [0u8; 261];
    let reply = session::answer(session, card, &mut command);
    reply.session
}

// The answer to the next command, shown with what follows it.
fn show_answered(rt: &impl Print, session: Session, card: &[u8]) {
    let mut command = [0u8; 261];
    let reply = session::answer(session, card, &mut command);
    print::print_reply(rt, reply, &command);
}

// ---- single answers to a record

fn record_rows(rt: &impl Print) {
    record_row(rt, b"\x70\x00\x90\x00");
    record_row(rt, b"\x70\x05\x9F\x08\x02\x00\x02\x90\x00");
    record_row(rt, b"\x70\x03\x95\x01\x00\x90\x00");
    record_row(rt, b"\x70\x05\xDF\x81\x23\x01\x00\x90\x00");
    record_row(rt, b"\x70\x07\xA5\x05\x9F\x08\x02\x00\x02\x90\x00");
    record_row(rt, b"\x70\x04\x82\x02\x19\x80\x90\x00");
    record_row(rt, b"\x70\x80\x00\x00\x90\x00");
    record_row(rt, b"\x70\x06\xE1\x04\xE1\x02\xE1\x00\x90\x00");
    record_row(rt, b"\x70\x08\xE1\x06\xE1\x04\xE1\x02\xE1\x00\x90\x00");
}

// The answer read into an empty store, and as the first of a session's two records.
fn record_row(rt: &impl Print, card: &[u8]) {
    print::print_text(rt, b"answer");
    print::print_bytes(rt, card);
    show_reading(rt, Awaited::Record(Sfi { number: 1 }), card);
    print::print_text(rt, b", ");
    let session = answered(
        started(0x22, 1),
        b"\x80\x06\x00\x80\x08\x01\x02\x00\x90\x00",
    );
    show_answered(rt, session, card);
}

// What a reading into an empty store reports and leaves.
fn show_reading(rt: &impl Print, awaited: Awaited, card: &[u8]) {
    let before = store::empty();
    let mut after = before.bytes;
    let read = reading::read_answer(&mut after, awaited, card);
    print::print_text(rt, b": reason ");
    print::print_number(rt, usize::from(reading::verdict_number(read.verdict)));
    print::print_text(rt, b", objects ");
    print::print_number(rt, read.objects);
    let kept: &[u8] = if before.bytes == after {
        b", store kept"
    } else {
        b", stored"
    };
    print::print_text(rt, kept);
}

// ---- object counts of all three answers: under 80, with a wrong outer tag, and where nothing is counted

fn count_rows(rt: &impl Print) {
    gpo_count(rt, b"\x80\x06\x00\x80\x08\x01\x01\x00\x90\x00");
    gpo_count(rt, b"\x80\x05\x00\x80\x08\x01\x01\x90\x00");
    gpo_count(rt, b"\x80\x08\x00\x80\x08\x01\x01\x00\x08\x02\x90\x00");
    gpo_count(
        rt,
        b"\x77\x0A\x82\x02\x00\x80\x94\x04\x08\x01\x01\x00\x90\x00",
    );
    gpo_count(
        rt,
        b"\x70\x0A\x82\x02\x00\x80\x94\x04\x08\x01\x01\x00\x90\x00",
    );
    gpo_count(rt, b"\x82\x02\x00\x80\x90\x00");
    record_count(rt, 1, b"\x80\x06\x00\x80\x08\x01\x01\x00\x90\x00");
    record_count(rt, 1, b"\x77\x05\x9F\x08\x02\x00\x02\x90\x00");
    record_count(rt, 1, b"\xE1\x08\xE1\x06\x95\x00\xE1\x02\x57\x00\x90\x00");
    record_count(rt, 1, b"\xE1\x08\xE1\x06\xE1\x04\xE1\x02\xE1\x00\x90\x00");
    record_count(rt, 1, b"\x70\x00\x69\x85");
    record_count(rt, 10, b"\x70\x00\x90\x00");
    record_count(rt, 11, b"\x70\x00\x90\x00");
    cryptogram_count(
        rt,
        b"\x80\x0B\x40\x00\x01\x01\x02\x03\x04\x05\x06\x07\x08\x90\x00",
    );
    cryptogram_count(
        rt,
        b"\x80\x0C\x40\x00\x01\x01\x02\x03\x04\x05\x06\x07\x08\x0A\x90\x00",
    );
    cryptogram_count(
        rt,
        b"\x80\x0A\x40\x00\x01\x01\x02\x03\x04\x05\x06\x07\x90\x00",
    );
    cryptogram_count(rt, b"\x77\x04\x9F\x27\x01\x40\x90\x00");
    cryptogram_count(rt, b"\x70\x06\xA5\x04\x9F\x27\x01\x40\x90\x00");
}

fn gpo_count(rt: &impl Print, card: &[u8]) {
    print::print_text(rt, b"options");
    count_row(rt, Awaited::Gpo, card);
}

fn record_count(rt: &impl Print, sfi: u8, card: &[u8]) {
    print::print_text(rt, b"record of file ");
    print::print_number(rt, usize::from(sfi));
    print::print_text(rt, b":");
    count_row(rt, Awaited::Record(Sfi { number: sfi }), card);
}

fn cryptogram_count(rt: &impl Print, card: &[u8]) {
    print::print_text(rt, b"cryptogram");
    count_row(rt, Awaited::Cryptogram, card);
}

// One answer, and its reading into an empty store.
fn count_row(rt: &impl Print, awaited: Awaited, card: &[u8]) {
    print::print_bytes(rt, card);
    show_reading(rt, awaited, card);
    print::print_text(rt, b"\n");
}

// ---- padding: before, between and after objects at each level; the full record with a 00 after each inner object

fn padded_rows(rt: &impl Print) {
    record_row(rt, b"\x70\x01\x00\x90\x00");
    record_row(rt, b"\x70\x07\x00\x00\x9F\x08\x02\x00\x02\x90\x00");
    record_row(rt, b"\x70\x09\x00\x9F\x08\x02\x00\x02\x00\x00\x00\x90\x00");
    record_row(
        rt,
        b"\x70\x0D\x00\x9F\x08\x02\x00\x02\x00\x5F\x25\x03\x24\x01\x01\x90\x00",
    );
    record_row(
        rt,
        b"\x70\x0B\xE1\x02\x00\x00\x00\x9F\x08\x02\x00\x02\x00\x90\x00",
    );
    record_row(rt, b"\x70\x09\x00\xE1\x06\x00\xE1\x03\xE1\x01\x00\x90\x00");
    record_row(rt, b"\x70\x04\x00\x95\x01\x00\x90\x00");
    record_row(rt, &full_record());
    gpo_count(
        rt,
        b"\x77\x0F\x00\x82\x02\x00\x80\x00\x00\x94\x04\x08\x01\x01\x00\x00\x00\x90\x00",
    );
    cryptogram_count(
        rt,
        b"\x77\x18\x00\x9F\x27\x01\x40\x00\x9F\x36\x02\x00\x01\x00\x9F\x26\x08\x01\x02\x03\x04\x05\x06\x07\x08\x00\x90\x00",
    );
}

// Where a 00 is no padding: on a fifth level, around the outer object, inside a tag, under 80; and FF.
fn unpadded_rows(rt: &impl Print) {
    record_row(
        rt,
        b"\x70\x0A\xE1\x08\xE1\x06\xE1\x04\xE1\x02\x00\x00\x90\x00",
    );
    record_row(rt, b"\x00\x70\x00\x90\x00");
    record_row(rt, b"\x70\x00\x00\x90\x00");
    record_row(rt, b"\x00\x00\x90\x00");
    record_row(rt, b"\x70\x05\x9F\x08\x02\x00\x02\x00\x90\x00");
    record_row(rt, b"\x70\x06\x9F\x00\x08\x02\x00\x02\x90\x00");
    record_row(rt, b"\x70\x02\xFF\x00\x90\x00");
    record_row(rt, b"\x61\x02\x00\x00\x90\x00");
    gpo_count(rt, b"\x80\x07\x00\x80\x08\x01\x01\x00\x00\x90\x00");
}

// Twelve objects of template 70, then twelve unknown ones, a 00 after each.
fn full_record() -> [u8; 252] {
    [
        0x70, 0x81, 0xF7, 0x57, 0x13, 0x47, 0x61, 0x73, 0x90, 0x01, 0x01, 0x00, 0x10, 0xD4, 0x91,
        0x22, 0x01, 0x00, 0x00, 0x00, 0x1F, 0x00, 0x00, 0x00, 0x00, 0x5A, 0x0A, 0x47, 0x61, 0x73,
        0x90, 0x01, 0x01, 0x00, 0x10, 0xFF, 0xFF, 0x00, 0x5F, 0x24, 0x03, 0x49, 0x12, 0x31, 0x00,
        0x5F, 0x25, 0x03, 0x20, 0x01, 0x01, 0x00, 0x5F, 0x28, 0x02, 0x00, 0x56, 0x00, 0x5F, 0x34,
        0x01, 0x01, 0x00, 0x9F, 0x07, 0x02, 0xFF, 0xC0, 0x00, 0x9F, 0x08, 0x02, 0x00, 0x02, 0x00,
        0x9F, 0x0D, 0x05, 0x00, 0x00, 0x00, 0x00, 0x00, 0x00, 0x9F, 0x0E, 0x05, 0x00, 0x00, 0x00,
        0x00, 0x00, 0x00, 0x9F, 0x0F, 0x05, 0x00, 0x00, 0x00, 0x00, 0x00, 0x00, 0x8C, 0x24, 0x9F,
        0x02, 0x06, 0x9F, 0x03, 0x06, 0x9F, 0x1A, 0x02, 0x95, 0x05, 0x5F, 0x2A, 0x02, 0x9A, 0x03,
        0x9C, 0x01, 0x9F, 0x37, 0x04, 0x9F, 0x35, 0x01, 0x9F, 0x45, 0x02, 0x9F, 0x4C, 0x08, 0x9F,
        0x34, 0x03, 0x9F, 0x21, 0x03, 0x00, 0x5F, 0x60, 0x06, 0x00, 0x11, 0x22, 0x33, 0x44, 0x55,
        0x00, 0x5F, 0x61, 0x05, 0x00, 0x11, 0x22, 0x33, 0x44, 0x00, 0x5F, 0x62, 0x05, 0x00, 0x11,
        0x22, 0x33, 0x44, 0x00, 0x5F, 0x63, 0x05, 0x00, 0x11, 0x22, 0x33, 0x44, 0x00, 0x5F, 0x64,
        0x05, 0x00, 0x11, 0x22, 0x33, 0x44, 0x00, 0x5F, 0x65, 0x05, 0x00, 0x11, 0x22, 0x33, 0x44,
        0x00, 0x5F, 0x66, 0x05, 0x00, 0x11, 0x22, 0x33, 0x44, 0x00, 0x5F, 0x67, 0x05, 0x00, 0x11,
        0x22, 0x33, 0x44, 0x00, 0x5F, 0x68, 0x05, 0x00, 0x11, 0x22, 0x33, 0x44, 0x00, 0x5F, 0x69,
        0x05, 0x00, 0x11, 0x22, 0x33, 0x44, 0x00, 0x5F, 0x6A, 0x05, 0x00, 0x11, 0x22, 0x33, 0x44,
        0x00, 0x5F, 0x6B, 0x05, 0x00, 0x11, 0x22, 0x33, 0x44, 0x00, 0x90, 0x00,
    ]
}

// ---- the first commands

fn gpo_rows(rt: &impl Print) {
    let mut command = [0u8; 261];
    let first = start_plain(0x22, 1, &mut command);
    print::print_text(rt, b"no 9F38: ");
    print::print_reply(rt, first, &command);
    print::print_text(rt, b"answer 80 06 00 80 08 01 01 00 90 00: ");
    show_answered(
        rt,
        first.session,
        b"\x80\x06\x00\x80\x08\x01\x01\x00\x90\x00",
    );
    print::print_text(rt, b"9F02 asked at 2: ");
    amount_row(rt, 2);
    print::print_text(rt, b"9F02 asked at 7: ");
    amount_row(rt, 7);
}

// A start whose list requests so many bytes of 9F02.
fn amount_row(rt: &impl Print, asked: u8) {
    let mut command = [0u8; 261];
    let bytes = terminal(0x22, 1, asked);
    let reply = session::start(session_record::fresh_session(), &bytes, &mut command);
    print::print_reply(rt, reply, &command);
}

// ---- TVR bits and the choice

fn result_rows(rt: &impl Print) {
    print::print_text(rt, b"95 asked at 3: ");
    result_row(
        rt,
        0x22,
        0,
        b"\x70\x14\x5F\x24\x03\x30\x12\x31\x5A\x08\x47\x61\x73\x90\x01\x01\x00\x10\x8C\x02\x95\x03\x90\x00",
    );
    print::print_text(rt, b"95 asked at 6: ");
    result_row(
        rt,
        0x22,
        0,
        b"\x70\x14\x5F\x24\x03\x30\x12\x31\x5A\x08\x47\x61\x73\x90\x01\x01\x00\x10\x8C\x02\x95\x06\x90\x00",
    );
    print::print_text(rt, b"type 22, no 9F0F: ");
    result_row(
        rt,
        0x22,
        1,
        b"\x70\x14\x5F\x24\x03\x30\x12\x31\x5A\x08\x47\x61\x73\x90\x01\x01\x00\x10\x8C\x02\x95\x05\x90\x00",
    );
    print::print_text(rt, b"type 22, zero 9F0F: ");
    result_row(
        rt,
        0x22,
        1,
        b"\x70\x1C\x5F\x24\x03\x30\x12\x31\x5A\x08\x47\x61\x73\x90\x01\x01\x00\x10\x8C\x02\x95\x05\x9F\x0F\x05\x00\x00\x00\x00\x00\x90\x00",
    );
    print::print_text(rt, b"type 23, no 9F0D: ");
    result_row(
        rt,
        0x23,
        1,
        b"\x70\x14\x5F\x24\x03\x30\x12\x31\x5A\x08\x47\x61\x73\x90\x01\x01\x00\x10\x8C\x02\x95\x05\x90\x00",
    );
    print::print_text(rt, b"8C of 95 05: ");
    result_row(
        rt,
        0x22,
        1,
        b"\x70\x14\x5F\x24\x03\x30\x12\x31\x5A\x08\x47\x61\x73\x90\x01\x01\x00\x10\x8C\x02\x95\x05\x90\x00",
    );
}

// A session's only record, shown with the command for the cryptogram.
fn result_row(rt: &impl Print, kind: u8, floor: u8, card: &[u8]) {
    let session = answered(
        started(kind, floor),
        b"\x80\x06\x00\x80\x08\x01\x01\x00\x90\x00",
    );
    show_answered(rt, session, card);
}

// ---- the whole dictionary: objects of the rows that annex A adds

// In a record: the named template around it and another; rows with no template; start's and session's, private and not.
fn table_rows(rt: &impl Print) {
    record_row(rt, b"\x70\x04\x50\x02\x41\x42\x90\x00");
    record_row(rt, b"\x70\x06\xA5\x04\x50\x02\x41\x42\x90\x00");
    record_row(rt, b"\x70\x09\x6F\x07\x84\x05\x01\x02\x03\x04\x05\x90\x00");
    record_row(rt, b"\x70\x04\x80\x02\x00\x00\x90\x00");
    record_row(rt, b"\x70\x05\xDF\x81\x17\x01\x00\x90\x00");
    record_row(rt, b"\x70\x05\x9F\x15\x02\x12\x34\x90\x00");
    record_row(rt, b"\x70\x04\x9F\x53\x01\x52\x90\x00");
    record_row(
        rt,
        b"\x70\x0B\xDF\x60\x08\x00\x00\x00\x00\x00\x00\x00\x00\x90\x00",
    );
    record_row(rt, b"\x70\x08\xDF\x83\x02\x04\x01\x02\x03\x04\x90\x00");
    record_row(rt, b"\x70\x06\xDF\x4B\x03\x00\x01\x00\x90\x00");
    record_row(rt, b"\x70\x05\x9F\x70\x02\x01\x02\x90\x00");
    third_party_rows(rt);
    length_rows(rt);
    left_out_rows(rt);
    gpo_objects(rt);
}

// An object of two templates: in each of them, in another, and too short.
fn third_party_rows(rt: &impl Print) {
    record_row(rt, b"\x70\x08\x9F\x6E\x05\x08\x40\x00\x01\x02\x90\x00");
    record_row(
        rt,
        b"\x70\x0B\xBF\x0C\x08\x9F\x6E\x05\x08\x40\x00\x01\x02\x90\x00",
    );
    record_row(
        rt,
        b"\x70\x0A\xA5\x08\x9F\x6E\x05\x08\x40\x00\x01\x02\x90\x00",
    );
    record_row(rt, b"\x70\x07\x9F\x6E\x04\x08\x40\x00\x01\x90\x00");
    gpo_count(rt, b"\x77\x08\x9F\x6E\x05\x08\x40\x00\x01\x02\x90\x00");
}

// Lengths from 1 to 3, and digits with Fs after them.
fn length_rows(rt: &impl Print) {
    record_row(rt, b"\x70\x03\x9F\x47\x00\x90\x00");
    record_row(rt, b"\x70\x05\x9F\x47\x02\x00\x03\x90\x00");
    record_row(rt, b"\x70\x07\x9F\x47\x04\x00\x00\x00\x03\x90\x00");
    record_row(rt, b"\x70\x05\x9F\x20\x02\x12\x3F\x90\x00");
    record_row(rt, b"\x70\x05\x9F\x20\x02\x12\xF3\x90\x00");
}

// Tags that annex A gives no greatest length.
fn left_out_rows(rt: &impl Print) {
    record_row(rt, b"\x70\x03\x92\x01\x00\x90\x00");
    record_row(rt, b"\x70\x04\x9F\x4B\x01\x00\x90\x00");
    record_row(rt, b"\x70\x05\xDF\x81\x12\x01\x00\x90\x00");
}

// In the answer to GET PROCESSING OPTIONS: what may be in 77, what may not, and what only another answer brings.
fn gpo_objects(rt: &impl Print) {
    gpo_row(rt, b"\x77\x06\xDF\x4B\x03\x00\x01\x00\x90\x00");
    gpo_row(rt, b"\x77\x05\x9F\x60\x02\x00\x01\x90\x00");
    gpo_row(rt, b"\x77\x05\x9F\x61\x02\x00\x01\x90\x00");
    gpo_row(rt, b"\x77\x05\x9F\x08\x02\x00\x02\x90\x00");
    gpo_row(rt, b"\x77\x05\x9F\x42\x02\x08\x40\x90\x00");
    gpo_row(rt, b"\x77\x03\x8F\x01\x05\x90\x00");
}

// The answer read into an empty store, and as a session's first.
fn gpo_row(rt: &impl Print, card: &[u8]) {
    print::print_text(rt, b"options");
    print::print_bytes(rt, card);
    show_reading(rt, Awaited::Gpo, card);
    print::print_text(rt, b", ");
    show_answered(rt, started(0x22, 1), card);
}

// An object of 70 and 77 that came in the answer to GPO, again in a record.
fn second_rows(rt: &impl Print) {
    print::print_text(rt, b"8F in options, then in a record: ");
    let session = answered(
        started(0x22, 1),
        b"\x77\x0D\x82\x02\x00\x80\x94\x04\x08\x01\x02\x00\x8F\x01\x05\x90\x00",
    );
    show_answered(rt, session, b"\x70\x03\x8F\x01\x05\x90\x00");
}

// Start bytes: all that they must bring, and further objects.
fn start_rows(rt: &impl Print) {
    refused_starts(rt);
    doubled_starts(rt);
    taken_starts(rt);
}

// Objects that are not the start's to set.
fn refused_starts(rt: &impl Print) {
    start_row(rt, b"\x9F\x15\x02\x12\x34");
    start_row(rt, b"\x9F\x01\x06\x00\x00\x00\x00\x00\x01");
    start_row(rt, b"\x50\x02\x41\x42");
    start_row(rt, b"\x80\x02\x00\x00");
}

// An object of a new row, the same twice, and an unknown one.
fn doubled_starts(rt: &impl Print) {
    start_row(rt, b"\x9F\x53\x01\x52");
    start_row(rt, b"\x9F\x53\x01\x52\x9F\x53\x01\x52");
    start_row(rt, b"\xDF\x81\x12\x01\x00");
}

// Lists that fill from new rows.
fn taken_starts(rt: &impl Print) {
    start_row(
        rt,
        b"\x9F\x21\x03\x12\x34\x56\x9F\x38\x06\x9F\x21\x02\x9F\x21\x05",
    );
    start_row(rt, b"\x9F\x70\x02\x01\x02\x9F\x38\x03\x9F\x70\x04");
}

// A start of the bytes with no 9F38 and at most 32 further bytes of objects after them.
fn start_row(rt: &impl Print, further: &[u8]) {
    print::print_text(rt, b"start with");
    print::print_bytes(rt, further);
    print::print_text(rt, b": ");
    let plain = terminal(0x22, 1, 0);
    let mut whole = [0u8; PLAIN + 32];
    for (to, from) in whole
        .iter_mut()
        .zip(plain.iter().take(PLAIN).chain(further))
    {
        *to = *from;
    }
    let size = further.len().saturating_add(PLAIN);
    let given = whole.get(..size).unwrap_or(&whole);
    let mut command = [0u8; 261];
    let reply = session::start(session_record::fresh_session(), given, &mut command);
    print::print_reply(rt, reply, &command);
}
