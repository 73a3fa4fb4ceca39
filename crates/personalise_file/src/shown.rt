// The answer on standard output: the AFL and each record on a line, or the refusal in words.
ghost use Rattle.std.specs.Prelude.{◌≤◌, length};

use crate::front;
use crate::text::increment_saturating;
use personalise::{PersonaliseError, WrittenSizes};

// Shows an answer with what is written at the front of the buffers: whether anything is.
pub fn print_personalise_result(
    rt: &impl Print,
    answer: Result<WrittenSizes, PersonaliseError>,
    records: &[u8],
    afl: &[u8],
) -> bool {
    match answer {
        Ok(sizes) => {
            print::print_text(rt, b"locator");
            print::print_bytes(rt, front(afl, sizes.afl));
            print::print_text(rt, b"\n");
            all_records(rt, front(records, sizes.records));
            true
        }
        Err(error) => refused(rt, error),
    }
}

// ---- the records

// The records, one after another, each on a line with its number.
// Kept: a walk over templates, whose sizes are read from the bytes; `tlv::PrimitiveObjects` gives no templates.
fn all_records(rt: &impl Print, records: &[u8]) {
    let mut rest = records;
    let mut number: usize = 1;
    while rest.len() != 0 {
        let size = first_size(rest);
        if size == 0 {
            return;
        }
        record_line(rt, number, &rest[..size]);
        rest = &rest[size..];
        number = increment_saturating(number);
    }
}

// How many bytes the first record has; none where there is no whole object.
fn first_size(s: &[u8]) -> usize
    ensures { result ≤ length s.now }
{
    let Some(h) = tlv::object_header(s) else {
        return 0;
    };
    h.start + h.len
}

fn record_line(rt: &impl Print, number: usize, bytes: &[u8]) {
    print::print_text(rt, b"record ");
    print::print_number(rt, number);
    print::print_text(rt, b":");
    print::print_bytes(rt, bytes);
    print::print_text(rt, b"\n");
}

// ---- refusals

// A refusal in words.
fn refused(rt: &impl Print, error: PersonaliseError) -> bool {
    print::print_text(rt, b"refused: ");
    match error {
        PersonaliseError::ShortRecords => print::print_text(
            rt,
            b"records buffer shorter than 32,768 bytes",
        ),
        PersonaliseError::ShortAfl => print::print_text(
            rt,
            b"locator buffer shorter than 248 bytes",
        ),
        PersonaliseError::BadList => list_words(rt),
        PersonaliseError::BadEntry(i) => entry_words(rt, i),
        PersonaliseError::BadRecord(k) => record_words(rt, k),
    }
    print::print_text(rt, b"\n");
    false
}

fn list_words(rt: &impl Print) {
    print::print_text(
        rt,
        b"list: every object must be whole, of a tag for template 70, ",
    );
    print::print_text(
        rt,
        b"of a length and digits that fit, there once and placed once",
    );
}

fn entry_words(rt: &impl Print, number: usize) {
    print::print_text(rt, b"entry ");
    print::print_number(rt, number);
    print::print_text(
        rt,
        b": must be there, whole and among the first 62, byte 1 eight times a file 1 to 10, ",
    );
    print::print_text(
        rt,
        b"first record not 0, last not below it, byte 4 zero, no record named before, at most 128 in all",
    );
}

fn record_words(rt: &impl Print, number: usize) {
    print::print_text(rt, b"record ");
    print::print_number(rt, number);
    print::print_text(
        rt,
        b": must be one of the locator's, hold objects of the list only, ",
    );
    print::print_text(rt, b"with at most 253 bytes of content");
}
