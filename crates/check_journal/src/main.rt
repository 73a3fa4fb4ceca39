// Reports whether a conforming kernel could have written a session's journal: the file that the argument names, or
// standard input where there is none. One line has the verdict; below a mismatching record is the conforming one, where
// there is exactly one.
//
// The file is read in parts of 4,096 bytes, up to the first record that is a mismatch. What is wrong with the file
// goes to standard error. With --tell the exit status goes to descriptor 3: 0 accepted, 1 a mismatch or truncated,
// 2 no verdict.
#![tactic(auto)]

use journal::{JournalChecker, JournalVerdict};
use program::ProgramArguments;
use session_record::{CallResult, CommandLength, Outcome};
use std::io::Read;

// What is wrong is reported under this name.
const NAME: &str = "journal";

// The exit statuses.
const ACCEPTED: u8 = 0;

const NOT_RIGHT: u8 = 1;

const NO_VERDICT: u8 = 2;

fn main(rt: HostRuntime) {
    let asked = program::arguments(&rt, NAME, |_, _| Ok(false));
    let status = judged(&rt, asked);
    program::report_status(&rt, asked, status);
}

// ---- the file

// Shows the verdict on the file, and returns the exit status.
fn judged(rt: &HostRuntime, asked: ProgramArguments) -> u8 {
    if asked.wrong {
        return NO_VERDICT;
    }
    let Some(mut source) = program::open_source(rt, asked.file) else {
        return NO_VERDICT;
    };
    let Some(checker) = read(rt, &mut source) else {
        return NO_VERDICT;
    };
    shown(rt, checker)
}

// The checker that a file is fed to, up to a record that is a mismatch; none where a part cannot be read. A proved loop
// has to end, so it has a number of iterations that no file uses up.
fn read(rt: &HostRuntime, source: &mut impl Read) -> Option<JournalChecker> {
    let mut checker = journal::begin();
    for _ in 0..u64::MAX {
        let mut part = [0u8; 4096];
        let n = program::read_part(rt, NAME, source, &mut part)?;
        if n == 0 {
            return Some(checker);
        }
        checker = journal::feed(checker, &part[..n]);
        if is_mismatch(checker) {
            return Some(checker);
        }
    }
    Some(checker)
}

// Whether a record was a mismatch; then nothing after it is examined.
fn is_mismatch(checker: JournalChecker) -> bool {
    matches!(journal::finish(checker), JournalVerdict::Mismatch(_))
}

// ---- the verdict

// Shows the verdict, and returns the exit status.
fn shown(rt: &HostRuntime, checker: JournalChecker) -> u8 {
    match journal::finish(checker) {
        JournalVerdict::Accepted(n) => {
            print::print_text(rt, b"accepted, ");
            print::print_number(rt, n);
            print::print_text(rt, b" records\n");
            ACCEPTED
        }
        JournalVerdict::Mismatch(n) => {
            named(rt, n, b" is unlike what document 01 gives\n");
            right_record(rt, checker);
            NOT_RIGHT
        }
        JournalVerdict::Truncated(n) => {
            named(rt, n, b" is cut\n");
            NOT_RIGHT
        }
    }
}

// A record by its number, and what it is.
fn named(rt: &HostRuntime, n: usize, words: &[u8]) {
    print::print_text(rt, b"record ");
    print::print_number(rt, n);
    print::print_text(rt, words);
}

// ---- the conforming record in place of a mismatching one

// A line with the reply that was expected, where one was.
fn right_record(rt: &HostRuntime, checker: JournalChecker) {
    let wanted = journal::expected_reply_record(checker);
    if wanted.size == 0 {
        return;
    }
    let bytes = wanted.bytes;
    print::print_text(rt, b"a right kernel has there: ");
    if is_command(&bytes) {
        print::print_result_in_words(rt, command_in(&bytes), body_in(&bytes));
        print::print_text(rt, b", zeros behind");
    } else {
        print::print_outcome_in_words(
            rt,
            outcome_of(basics::byte_at(&bytes, 1)),
            basics::byte_at(&bytes, 2),
        );
    }
    print::print_text(rt, b"\n");
}

// The bytes of a record after its kind and length.
fn body_in(record: &[u8]) -> &[u8] {
    record.get(3..).unwrap_or(record)
}

fn is_command(record: &[u8]) -> bool {
    basics::byte_at(record, 0) == journal::KIND_COMMAND
}

// What a command's record stands for: a command of so many bytes.
fn command_in(record: &[u8]) -> CallResult {
    let size = u16::from_be_bytes([basics::byte_at(record, 1), basics::byte_at(record, 2)]);
    let size = usize::from(size);
    CallResult::Command(CommandLength { size })
}

// The outcome of a number.
// Kept: apart from that of `layout`, which is private there and reads a byte of a session record.
fn outcome_of(number: u8) -> Outcome {
    match number {
        0 => Outcome::Approved,
        1 => Outcome::OnlineRequest,
        2 => Outcome::Declined,
        3 => Outcome::Ended,
        _ => Outcome::SelectNext,
    }
}
