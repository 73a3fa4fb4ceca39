// A walk through every outcome: each reply of each session, a line each.
#![tactic(auto)]

use session_record::{CallResult, Phase, Reply};

fn main(rt: HostRuntime) {
    decisions(&rt);
    cvms(&rt);
    phones(&rt);
    stripes(&rt);
    card_reasons(&rt);
    later_reasons(&rt);
    broken_off(&rt);
    refusals(&rt);
    longest(&rt);
}

// ---- the steps of a session

// All that a start must bring: a terminal type, and an amount of 12.34 and so many hundreds. The floor limit is 100.00,
// the transaction limit 200.00, for on-device CVM 500.00; above 10.00 a check of the holder is required.
fn terminal(kind: u8, hundreds: u8) -> [u8; 123] {
    [
        0x9A, 0x03, 0x25, 0x11, 0x15, 0x9C, 0x01, 0x00, 0x9F, 0x02, 0x06, 0x00, 0x00, 0x00,
        hundreds, 0x12, 0x34, 0x9F, 0x09, 0x02, 0x00, 0x02, 0x9F, 0x1A, 0x02, 0x00, 0x56, 0x9F,
        0x33, 0x03, 0xE0, 0x68, 0xC8, 0x9F, 0x35, 0x01, kind, 0x9F, 0x37, 0x04, 0x01, 0x02, 0x03,
        0x04, 0xDF, 0x81, 0x1B, 0x01, 0x20, 0xDF, 0x81, 0x20, 0x05, 0x00, 0x00, 0x00, 0x00, 0x00,
        0xDF, 0x81, 0x21, 0x05, 0x00, 0x00, 0x00, 0x00, 0x00, 0xDF, 0x81, 0x22, 0x05, 0x00, 0x00,
        0x00, 0x00, 0x00, 0xDF, 0x81, 0x23, 0x06, 0x00, 0x00, 0x00, 0x01, 0x00, 0x00, 0xDF, 0x81,
        0x24, 0x06, 0x00, 0x00, 0x00, 0x02, 0x00, 0x00, 0xDF, 0x81, 0x25, 0x06, 0x00, 0x00, 0x00,
        0x05, 0x00, 0x00, 0xDF, 0x81, 0x26, 0x06, 0x00, 0x00, 0x00, 0x00, 0x10, 0x00, 0x9F, 0x6A,
        0x04, 0x00, 0x00, 0x34, 0x56,
    ]
}

// A start of a fresh session, shown.
fn begin(rt: &impl Print, kind: u8, hundreds: u8) -> Reply {
    configured(rt, 0x20, kind, hundreds)
}

// The same with another Kernel Configuration.
fn configured(rt: &impl Print, configuration: u8, kind: u8, hundreds: u8) -> Reply {
    let mut command = [0u8; 261];
    let mut bytes = terminal(kind, hundreds);
    bytes[48] = configuration;
    let reply = session::start(session_record::fresh_session(), &bytes, &mut command);
    print::print_reply_with_cvm(rt, reply, &command);
    reply
}

// The card's answer to a command, shown; nothing where no command was handed out.
fn next(rt: &impl Print, reply: Reply, card: &[u8]) -> Reply {
    let last = reply.answer;
    let CallResult::Command(_) = last else {
        return reply;
    };
    let mut command = [0u8; 261];
    let after = session::answer(reply.session, card, &mut command);
    print::print_reply_with_cvm(rt, after, &command);
    after
}

// A purchase with one record, to its outcome.
fn purchase(rt: &impl Print, kind: u8, hundreds: u8, gpo: &[u8], record: &[u8], cryptogram: &[u8]) {
    let started = begin(rt, kind, hundreds);
    let asked = next(rt, started, gpo);
    let read = next(rt, asked, record);
    next(rt, read, cryptogram);
}

// A purchase of 12.34 on a terminal of type 22, up to its record.
fn reads(rt: &impl Print, gpo: &[u8], record: &[u8]) {
    purchase(rt, 0x22, 0, gpo, record, b"\x90\x00");
}

// ---- decisions

fn decisions(rt: &impl Print) {
    let gpo = b"\x80\x06\x00\x80\x08\x01\x01\x00\x90\x00";
    let online =
        b"\x70\x14\x5F\x24\x03\x30\x12\x31\x5A\x08\x47\x61\x73\x90\x01\x01\x00\x10\x8C\x02\x95\x05\x90\x00";
    let offline =
        b"\x70\x1C\x5F\x24\x03\x30\x12\x31\x5A\x08\x47\x61\x73\x90\x01\x01\x00\x10\x8C\x02\x95\x05\x9F\x0F\x05\x00\x00\x00\x00\x00\x90\x00";
    print::print_text(rt, b"approved offline\n");
    purchase(
        rt,
        0x22,
        0,
        gpo,
        offline,
        b"\x80\x0B\x40\x00\x01\x01\x02\x03\x04\x05\x06\x07\x08\x90\x00",
    );
    print::print_text(rt, b"sent online\n");
    purchase(
        rt,
        0x22,
        0,
        gpo,
        online,
        b"\x80\x0B\x80\x00\x01\x01\x02\x03\x04\x05\x06\x07\x08\x90\x00",
    );
    print::print_text(rt, b"declined by the terminal\n");
    purchase(
        rt,
        0x23,
        0,
        gpo,
        online,
        b"\x80\x0B\x00\x00\x01\x01\x02\x03\x04\x05\x06\x07\x08\x90\x00",
    );
    print::print_text(rt, b"declined by the card\n");
    purchase(
        rt,
        0x22,
        0,
        gpo,
        offline,
        b"\x80\x0B\x00\x00\x01\x01\x02\x03\x04\x05\x06\x07\x08\x90\x00",
    );
}

// ---- CVMs

// 82 indicates that the card supports verification; 8C requests 95 and 9F34.
fn cvms(rt: &impl Print) {
    print::print_text(rt, b"online PIN\n");
    verified(
        rt,
        b"\x70\x25\x5F\x24\x03\x30\x12\x31\x5A\x08\x47\x61\x73\x90\x01\x01\x00\x10\x8C\x05\x95\x05\x9F\x34\x03\x8E\x0C\x00\x00\x00\x00\x00\x00\x00\x00\x42\x03\x5E\x03\x90\x00",
    );
    print::print_text(rt, b"signature\n");
    verified(
        rt,
        b"\x70\x23\x5F\x24\x03\x30\x12\x31\x5A\x08\x47\x61\x73\x90\x01\x01\x00\x10\x8C\x05\x95\x05\x9F\x34\x03\x8E\x0A\x00\x00\x00\x00\x00\x00\x00\x00\x5E\x03\x90\x00",
    );
    print::print_text(rt, b"no list\n");
    verified(
        rt,
        b"\x70\x17\x5F\x24\x03\x30\x12\x31\x5A\x08\x47\x61\x73\x90\x01\x01\x00\x10\x8C\x05\x95\x05\x9F\x34\x03\x90\x00",
    );
    print::print_text(rt, b"a list that fails\n");
    verified(
        rt,
        b"\x70\x23\x5F\x24\x03\x30\x12\x31\x5A\x08\x47\x61\x73\x90\x01\x01\x00\x10\x8C\x05\x95\x05\x9F\x34\x03\x8E\x0A\x00\x00\x00\x00\x00\x00\x00\x00\x00\x00\x90\x00",
    );
    print::print_text(rt, b"reason 7 after the choice of the method\n");
    verified(
        rt,
        b"\x70\x1F\x5F\x24\x03\x30\x12\x31\x5A\x08\x47\x61\x73\x90\x01\x01\x00\x10\x8C\x01\x95\x8E\x0A\x00\x00\x00\x00\x00\x00\x00\x00\x5E\x03\x90\x00",
    );
    print::print_text(rt, b"a failed link after the choice of the method\n");
    unlinked(
        rt,
        b"\x70\x23\x5F\x24\x03\x30\x12\x31\x5A\x08\x47\x61\x73\x90\x01\x01\x00\x10\x8C\x05\x95\x05\x9F\x34\x03\x8E\x0A\x00\x00\x00\x00\x00\x00\x00\x00\x5E\x03\x90\x00",
    );
}

// A purchase that the card sends online.
fn verified(rt: &impl Print, record: &[u8]) {
    let gpo = b"\x80\x06\x10\x80\x08\x01\x01\x00\x90\x00";
    purchase(
        rt,
        0x22,
        0,
        gpo,
        record,
        b"\x80\x0B\x80\x00\x01\x01\x02\x03\x04\x05\x06\x07\x08\x90\x00",
    );
}

// A purchase whose link fails after its record.
fn unlinked(rt: &impl Print, record: &[u8]) {
    let mut command = [0u8; 261];
    let started = begin(rt, 0x22, 0);
    let asked = next(rt, started, b"\x80\x06\x10\x80\x08\x01\x01\x00\x90\x00");
    let read = next(rt, asked, record);
    let failed = session::link_failed(read.session, &mut command);
    print::print_reply_with_cvm(rt, failed, &command);
}

// ---- on-device CVM

// 82 indicates a device with on-device CVM, and 8E requests an online PIN.
fn phones(rt: &impl Print) {
    let record =
        b"\x70\x23\x5F\x24\x03\x30\x12\x31\x5A\x08\x47\x61\x73\x90\x01\x01\x00\x10\x8C\x05\x95\x05\x9F\x34\x03\x8E\x0A\x00\x00\x00\x00\x00\x00\x00\x00\x42\x00\x90\x00";
    print::print_text(rt, b"a phone, 12.34\n");
    limited(rt, 0, b"\x80\x06\x12\x80\x08\x01\x01\x00\x90\x00", record);
    print::print_text(rt, b"a phone, 412.34\n");
    limited(rt, 4, b"\x80\x06\x12\x80\x08\x01\x01\x00\x90\x00", record);
    print::print_text(rt, b"a card, 412.34\n");
    limited(rt, 4, b"\x80\x06\x10\x80\x08\x01\x01\x00\x90\x00", record);
    print::print_text(rt, b"a phone, 512.34\n");
    limited(rt, 5, b"\x80\x06\x12\x80\x08\x01\x01\x00\x90\x00", record);
}

// A purchase that the card sends online, with the limit that is held after GPO.
fn limited(rt: &impl Print, hundreds: u8, gpo: &[u8], record: &[u8]) {
    let started = begin(rt, 0x22, hundreds);
    let asked = next(rt, started, gpo);
    let session = asked.session;
    let phase = session.phase;
    print::print_text(rt, b"waiting on the record");
    print::print_transaction_limit_of_phase(rt, phase);
    print::print_text(rt, b"\n");
    let read = next(rt, asked, record);
    next(
        rt,
        read,
        b"\x80\x0B\x80\x00\x01\x01\x02\x03\x04\x05\x06\x07\x08\x90\x00",
    );
}

// ---- old magnetic stripe cards

// 82 indicates that the card has no EMV mode: the checksum follows the record, and the digits go into the track.
fn stripes(rt: &impl Print) {
    let record =
        b"\x70\x24\x9F\x6B\x13\x54\x13\x12\x34\x56\x78\x48\x00\xD2\x51\x21\x01\x00\x00\x00\x00\x00\x00\x0F\x9F\x65\x02\x00\x0E\x9F\x66\x02\x0F\xF0\x9F\x67\x01\x04\x90\x00";
    let unsound =
        b"\x70\x24\x9F\x6B\x13\x54\x13\x12\x34\x56\x78\x48\x00\xD2\x51\x21\x01\x00\x00\x00\x00\x00\x00\x0F\x9F\x65\x02\x00\x0E\x9F\x66\x02\x2F\xF0\x9F\x67\x01\x05\x90\x00";
    let both = b"\x77\x0A\x9F\x36\x02\x00\x2A\x9F\x61\x02\x1F\x35\x90\x00";
    print::print_text(rt, b"an old magnetic stripe card\n");
    striped(rt, record, both);
    print::print_text(rt, b"without its code\n");
    striped(rt, record, b"\x77\x05\x9F\x36\x02\x00\x2A\x90\x00");
    print::print_text(rt, b"a track that cannot take the digits\n");
    striped(rt, unsound, both);
}

// A purchase with such a card, and the track that it leaves.
fn striped(rt: &impl Print, record: &[u8], checksum: &[u8]) {
    let started = begin(rt, 0x22, 0);
    let asked = next(rt, started, b"\x80\x06\x00\x00\x08\x01\x01\x00\x90\x00");
    let read = next(rt, asked, record);
    let ended = next(rt, read, checksum);
    let session = ended.session;
    let store = session.store;
    print::print_object_line(
        rt,
        0x9F6B,
        store::value(&store.bytes, dictionary::ROW_TRACK2_DATA),
    );
}

// ---- reasons

// Reasons 1 to 5 and 11: what the card answered to GPO and to the record.
fn card_reasons(rt: &impl Print) {
    let gpo = b"\x80\x06\x00\x80\x08\x01\x01\x00\x90\x00";
    print::print_text(rt, b"reason 1\n");
    reads(rt, b"\x69\x85", b"\x90\x00");
    print::print_text(rt, b"reason 2\n");
    reads(rt, gpo, b"\x70\x80\x00\x00\x90\x00");
    print::print_text(rt, b"reason 3\n");
    reads(rt, gpo, b"\x70\x03\x95\x01\x00\x90\x00");
    print::print_text(rt, b"reason 4\n");
    reads(rt, gpo, b"\x70\x00\x90\x00");
    print::print_text(rt, b"reason 5\n");
    reads(rt, b"\x80\x06\x00\x80\x00\x01\x01\x00\x90\x00", b"\x90\x00");
    print::print_text(rt, b"reason 11\n");
    let off = configured(rt, 0xA0, 0x22, 0);
    next(rt, off, b"\x80\x06\x00\x00\x08\x01\x01\x00\x90\x00");
}

// Reasons 6 to 8: the limit, CDOL1, and the cryptogram's type.
fn later_reasons(rt: &impl Print) {
    let gpo = b"\x80\x06\x00\x80\x08\x01\x01\x00\x90\x00";
    let record =
        b"\x70\x14\x5F\x24\x03\x30\x12\x31\x5A\x08\x47\x61\x73\x90\x01\x01\x00\x10\x8C\x02\x95\x05\x90\x00";
    print::print_text(rt, b"reason 6\n");
    purchase(rt, 0x22, 2, gpo, record, b"\x90\x00");
    print::print_text(rt, b"reason 7\n");
    reads(
        rt,
        gpo,
        b"\x70\x13\x5F\x24\x03\x30\x12\x31\x5A\x08\x47\x61\x73\x90\x01\x01\x00\x10\x8C\x01\x95\x90\x00",
    );
    print::print_text(rt, b"reason 8\n");
    purchase(
        rt,
        0x22,
        0,
        gpo,
        record,
        b"\x80\x0B\x40\x00\x01\x01\x02\x03\x04\x05\x06\x07\x08\x90\x00",
    );
}

// Reasons 9 and 10: the link fails, the terminal stops.
fn broken_off(rt: &impl Print) {
    let mut command = [0u8; 261];
    print::print_text(rt, b"reason 9\n");
    let linked = begin(rt, 0x22, 0);
    let failed = session::link_failed(linked.session, &mut command);
    print::print_reply_with_cvm(rt, failed, &command);
    print::print_text(rt, b"reason 10\n");
    let started = begin(rt, 0x22, 0);
    let stopped = session::stop(started.session, &mut command);
    print::print_reply_with_cvm(rt, stopped, &command);
}

// ---- refusals

fn refusals(rt: &impl Print) {
    let mut command = [0u8; 261];
    print::print_text(rt, b"a template in the start bytes\n");
    print::print_reply_with_cvm(
        rt,
        session::start(session_record::fresh_session(), b"\xE1\x00", &mut command),
        &command,
    );
    print::print_text(rt, b"an answer to a fresh session\n");
    print::print_reply_with_cvm(
        rt,
        session::answer(session_record::fresh_session(), b"\x90\x00", &mut command),
        &command,
    );
    print::print_text(rt, b"a command buffer of 260 bytes\n");
    let mut short = [0u8; 260];
    print::print_reply_with_cvm(
        rt,
        session::start(session_record::fresh_session(), b"", &mut short),
        &short,
    );
    print::print_text(rt, b"result bits in the start bytes\n");
    print::print_reply_with_cvm(
        rt,
        session::start(
            session_record::fresh_session(),
            b"\x95\x05\x00\x00\x00\x00\x00",
            &mut command,
        ),
        &command,
    );
    print::print_text(rt, b"no start bytes\n");
    print::print_reply_with_cvm(
        rt,
        session::start(session_record::fresh_session(), b"", &mut command),
        &command,
    );
    print::print_text(rt, b"a fresh session with a count of 1\n");
    let broken = session_record::session_in_phase_with_count(
        session_record::fresh_session(),
        Phase::Fresh,
        1,
    );
    print::print_reply_with_cvm(rt, session::start(broken, b"", &mut command), &command);
}

// ---- the longest session: 128 records

fn longest(rt: &impl Print) {
    print::print_text(rt, b"128 records\n");
    let started = begin(rt, 0x22, 0);
    let mut reply = next(rt, started, b"\x80\x06\x00\x80\x08\x01\x80\x00\x90\x00");
    for _ in 0..127u8 {
        reply = next(rt, reply, b"\x70\x00\x90\x00");
    }
    reply = next(
        rt,
        reply,
        b"\x70\x14\x5F\x24\x03\x30\x12\x31\x5A\x08\x47\x61\x73\x90\x01\x01\x00\x10\x8C\x02\x95\x05\x90\x00",
    );
    reply = next(
        rt,
        reply,
        b"\x80\x0B\x80\x00\x01\x01\x02\x03\x04\x05\x06\x07\x08\x90\x00",
    );
    let session = reply.session;
    print::print_text(rt, b"commands handed out: ");
    print::print_number(rt, usize::from(session_record::command_count(session)));
    print::print_text(rt, b"\n");
}
