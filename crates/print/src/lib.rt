// Writes what the programs show to standard output: bytes in hexadecimal, numbers, replies and data objects. Each
// function takes the runtime, whose output that is.
//
// `tree` shows the objects of a card's answer, `bits` the bits of an object in words; `names` has the names of data
// objects, and `table` finds words in a table.
#![tactic(auto)]

pub mod bits;
mod names;
mod table;
pub mod tree;

use session_record::{AwaitedResponse, CallResult, Outcome, OutcomeParameters, Phase, Reply};

// Text, as it is. What cannot be written is left out, here and in every function above it: the program goes on, and the
// command that runs it sees that its output is not whole.
pub fn print_text(rt: &impl Print, s: &[u8]) {
    let _ = rt.write_all(s);
}

// The bytes from one place to another; none where there is no such part.
fn part(s: &[u8], from: usize, to: usize) -> &[u8] {
    s.get(from..to).unwrap_or(b"")
}

// A number in decimal digits.
pub fn print_number(rt: &impl Print, n: usize) {
    let _ = rt.print(n);
}

// Bytes, two digits each, a space before each.
pub fn print_bytes(rt: &impl Print, s: &[u8]) {
    for b in s {
        let _ = print!(rt; " {b:02X}");
    }
}

// A reply, and a new line: a command with its bytes, an outcome with its reason, or a refusal.
pub fn print_reply(rt: &impl Print, reply: Reply, buffer: &[u8]) {
    answered(rt, reply.answer, buffer);
    print_text(rt, b"\n");
}

// The same, and after an outcome the CVM in words.
pub fn print_reply_with_cvm(rt: &impl Print, reply: Reply, buffer: &[u8]) {
    let answer = reply.answer;
    answered(rt, answer, buffer);
    if let CallResult::Outcome(end) = answer {
        let _ = print!(rt; " method {} {}", end.cvm, cvm_words(end.cvm));
    }
    print_text(rt, b"\n");
}

// What a call returns, by its numbers.
fn answered(rt: &impl Print, answer: CallResult, buffer: &[u8]) {
    match answer {
        CallResult::Command(issued) => {
            print_text(rt, b"command");
            print_bytes(rt, front(buffer, issued.size));
        }
        CallResult::Outcome(end) => {
            let outcome = session_record::outcome_number(end.outcome);
            let _ = print!(rt; "outcome {outcome} reason {}", end.reason);
        }
        CallResult::Refused(refusal) => {
            let _ = print!(rt; "refused {}", refusal.number);
        }
    }
}

// The front of a buffer; none where it is shorter.
fn front(buffer: &[u8], size: usize) -> &[u8] {
    buffer.get(..size).unwrap_or(b"")
}

// ---- in words

// A reply in words, with the count of commands handed out and the transaction limit, and a new line.
pub fn print_reply_in_words(rt: &impl Print, reply: Reply, buffer: &[u8]) {
    print_result_in_words(rt, reply.answer, buffer);
    let session = reply.session;
    let _ = print!(rt; ", count {}", session_record::command_count(session));
    print_transaction_limit_of_phase(rt, session.phase);
    print_text(rt, b"\n");
}

// The transaction limit after a comma, where a phase holds one: an amount's twelve digits as a number.
pub fn print_transaction_limit_of_phase(rt: &impl Print, phase: Phase) {
    if let Phase::Waiting(awaited) = phase {
        if let Some(limit) = limit_of(awaited) {
            let _ = print!(rt; ", limit {limit}");
        }
    }
}

fn limit_of(awaited: AwaitedResponse) -> Option<u64> {
    match awaited {
        AwaitedResponse::Gpo => None,
        AwaitedResponse::Record(place) => Some(place.limit),
        AwaitedResponse::Cryptogram(asked) => Some(asked.limit),
        AwaitedResponse::Checksum(checksum) => Some(checksum.limit),
    }
}

// What a call returns, in words: a command by its name with its bytes, an outcome with its reason and the CVM,
// or a refusal.
pub fn print_result_in_words(rt: &impl Print, answer: CallResult, buffer: &[u8]) {
    match answer {
        CallResult::Command(issued) => named_command(rt, issued.size, buffer),
        CallResult::Outcome(end) => ending(rt, end),
        CallResult::Refused(refusal) => {
            let number = refusal.number;
            let _ = print!(rt; "refused {number} {}", refusal_words(number));
        }
    }
}

// A command by its name, with its bytes: the front of the buffer.
fn named_command(rt: &impl Print, size: usize, buffer: &[u8]) {
    print_text(rt, b"command ");
    if let Some(sent) = buffer.get(..size) {
        command_name(rt, sent);
        print_text(rt, b":");
        print_bytes(rt, sent);
    }
}

// The name of a command, by its instruction byte (Book C-2, chapter 5).
fn command_name(rt: &impl Print, sent: &[u8]) {
    let p1 = basics::byte_at(sent, 2);
    match basics::byte_at(sent, 1) {
        0xA8 => print_text(rt, b"GET PROCESSING OPTIONS"),
        // The file is the top five bits of P2.
        0xB2 => {
            let file = basics::byte_at(sent, 3) / 8;
            let _ = print!(rt; "READ RECORD file {file} record {p1}");
        }
        0xAE => print_text(rt, cryptogram_name(p1)),
        0x2A => print_text(rt, b"COMPUTE CRYPTOGRAPHIC CHECKSUM"),
        _ => print_text(rt, b"unknown"),
    }
}

// A cryptogram by what P1 requests.
fn cryptogram_name(p1: u8) -> &'static [u8] {
    match p1 {
        0x00 => b"GENERATE AC decline",
        0x40 => b"GENERATE AC offline",
        0x80 => b"GENERATE AC online",
        _ => b"GENERATE AC",
    }
}

// An outcome, its reason and the CVM, each by its number and in words.
fn ending(rt: &impl Print, end: OutcomeParameters) {
    print_outcome_in_words(rt, end.outcome, end.reason);
    let _ = print!(rt; ", method {} {}", end.cvm, cvm_words(end.cvm));
}

// An outcome and its reason, each by its number and in words.
pub fn print_outcome_in_words(rt: &impl Print, outcome: Outcome, reason: u8) {
    let number = session_record::outcome_number(outcome);
    let _ = print!(rt;
        "outcome {number} {}, reason {reason} {}",
        outcome_words(outcome),
        reason_words(reason)
    );
}

// Kept: the type is `session_record`'s, so a `Display` of it cannot stand here.
fn outcome_words(outcome: Outcome) -> &'static str {
    match outcome {
        Outcome::Approved => "approved",
        Outcome::OnlineRequest => "online request",
        Outcome::Declined => "declined",
        Outcome::Ended => "ended",
        Outcome::SelectNext => "select next",
    }
}

// A reason in words.
pub fn print_reason_words(rt: &impl Print, reason: u8) {
    let _ = rt.print(reason_words(reason));
}

fn reason_words(number: u8) -> &'static str {
    match number {
        0 => "none",
        1 => "status of the card is not 90 00",
        2 => "answer is malformed",
        3 => "object that the card may not set so",
        4 => "mandatory object not sent by the card",
        5 => "Application File Locator breaks a rule",
        6 => "amount over the reader's transaction limit",
        7 => "PDOL, CDOL1 or UDOL cannot be filled",
        8 => "cryptogram of a type not asked for",
        9 => "no link to the card",
        10 => "stopped by the terminal",
        11 => "card without EMV mode, and mag-stripe mode is off",
        _ => "unknown",
    }
}

// The CVMs by their numbers (Book C-2, A.1.117; 4 is the kernel's own).
fn cvm_words(number: u8) -> &'static str {
    match number {
        0 => "no CVM",
        1 => "signature",
        2 => "online PIN",
        3 => "confirmation code verified",
        4 => "offline PIN",
        15 => "not applicable",
        _ => "unknown",
    }
}

fn refusal_words(number: u8) -> &'static str {
    match number {
        20 => "more than 1,024 start bytes, or other than whole primitive objects",
        21 => "wrong phase",
        22 => "command buffer shorter than 261 bytes",
        23 => "start object not allowed",
        24 => "mandatory start object missing",
        25 => "session record out of its ranges",
        _ => "unknown",
    }
}

// ---- objects

// The objects that a store holds: tag, name and value, a line each.
pub fn print_objects_without_bits(rt: &impl Print, store: &[u8]) {
    print_stored_objects(rt, store, false);
}

// The same, with the bits in words where they are requested.
pub fn print_stored_objects(rt: &impl Print, store: &[u8], in_bits: bool) {
    for row in 0..dictionary::ROWS {
        if store::is_present(store, row) {
            held_object(
                rt,
                dictionary::row_tag(row),
                store::value(store, row),
                in_bits,
            );
        }
    }
}

fn held_object(rt: &impl Print, number: u32, value: &[u8], in_bits: bool) {
    print_object_line(rt, number, value);
    if in_bits {
        bits::print_bit_lines(rt, number, value, 0);
    }
}

// A margin of four spaces and two more for each level, at most five.
pub fn print_indentation(rt: &impl Print, levels: usize) {
    let _ = print!(rt; "{:1$}", "", 4 + 2 * levels.min(5));
}

// A tag and its name.
pub fn print_tag_and_name(rt: &impl Print, number: u32) {
    print_tag(rt, number);
    print_text(rt, b" ");
    names::print_tag_name(rt, number);
}

// One object, and a new line.
pub fn print_object_line(rt: &impl Print, number: u32, value: &[u8]) {
    print_tag_and_name(rt, number);
    print_text(rt, b":");
    print_bytes(rt, value);
    if value.is_empty() {
        print_text(rt, b" empty");
    }
    print_text(rt, b"\n");
}

// A tag in hexadecimal digits, two for each byte of it, at most three.
pub fn print_tag(rt: &impl Print, number: u32) {
    let _ = match number {
        0..=0xFF => print!(rt; "{number:02X}"),
        0x100..=0xFFFF => print!(rt; "{number:04X}"),
        _ => print!(rt; "{:06X}", number % 0x1000000),
    };
}
