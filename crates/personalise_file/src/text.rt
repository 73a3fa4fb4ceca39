// The lines of a file: `objects HEX`, `entries HEX` and `placements HEX`, each once.
use crate::complain;
use text_line::HexDecoded;

// How many bytes each line brought so far, if it was there, the number of the line that is read, and whether one was wrong.
#[derive(Clone, Copy)]
pub struct PersonaliseRequestText {
    pub objects: Option<usize>,
    pub entries: Option<usize>,
    pub placements: Option<usize>,
    pub number: usize,
    pub wrong: bool,
}

// What is wrong with a line.
#[derive(Clone, Copy)]
enum LineFault {
    UnknownWord,
    Twice,
    NoBytes,
    NoRoom,
}

// Reads all lines, up to one that is wrong, which is reported by its number.
pub fn parse_personalise_lines(
    rt: &HostRuntime,
    chars: &[u8],
    objects: &mut [u8],
    entries: &mut [u8],
    placements: &mut [u8],
) -> PersonaliseRequestText {
    let mut given = nothing();
    for ended in chars.split_inclusive(|c| *c == b'\n') {
        let line = ended.strip_suffix(b"\n".as_slice()).unwrap_or(ended);
        given = with_line(rt, given, line, objects, entries, placements);
    }
    given
}

fn nothing() -> PersonaliseRequestText {
    PersonaliseRequestText {
        objects: None,
        entries: None,
        placements: None,
        number: 1,
        wrong: false,
    }
}

// One more line; nothing after a wrong one is examined.
fn with_line(
    rt: &HostRuntime,
    given: PersonaliseRequestText,
    line: &[u8],
    objects: &mut [u8],
    entries: &mut [u8],
    placements: &mut [u8],
) -> PersonaliseRequestText {
    if given.wrong {
        return given;
    }
    let text = text_line::uncommented(line);
    let rest = text_line::after_first_word(text);
    let mut out = given;
    let read = match text_line::first_word(text) {
        b"" => Ok(()),
        b"objects" => with_part(&mut out.objects, text_line::decode_hex(rest, objects)),
        b"entries" => with_part(&mut out.entries, text_line::decode_hex(rest, entries)),
        b"placements" => with_part(&mut out.placements, text_line::decode_hex(rest, placements)),
        _ => Err(LineFault::UnknownWord),
    };
    match read {
        Ok(()) => next_line(out),
        Err(fault) => wrong_line(rt, out, fault),
    }
}

// What a line brings, unless its word comes twice or what follows the word spells no bytes.
fn with_part(part: &mut Option<usize>, d: HexDecoded) -> Result<(), LineFault> {
    if part.replace(d.size).is_some() {
        return Err(LineFault::Twice);
    }
    match d.problem {
        0 => Ok(()),
        text_line::HEX => Err(LineFault::NoBytes),
        _ => Err(LineFault::NoRoom),
    }
}

fn next_line(given: PersonaliseRequestText) -> PersonaliseRequestText {
    let mut out = given;
    out.number = increment_saturating(given.number);
    out
}

// One more; the greatest number stays.
pub fn increment_saturating(n: usize) -> usize {
    n.saturating_add(1)
}

// ---- what is wrong

// A line that is wrong, by its number, with what was expected.
fn wrong(rt: &HostRuntime, given: PersonaliseRequestText, words: &[u8]) -> PersonaliseRequestText {
    complain(rt, b"personalise: line ");
    print::print_number(&rt.stderr(), given.number);
    complain(rt, b": ");
    complain(rt, words);
    complain(rt, b"\n");
    let mut out = given;
    out.wrong = true;
    out
}

// The same for a fault of its words.
fn wrong_line(
    rt: &HostRuntime,
    given: PersonaliseRequestText,
    fault: LineFault,
) -> PersonaliseRequestText {
    match fault {
        LineFault::UnknownWord => wrong(
            rt,
            given,
            b"unknown word; expected objects HEX, entries HEX or placements HEX",
        ),
        LineFault::Twice => wrong(
            rt,
            given,
            b"this word for the second time; expected it once",
        ),
        LineFault::NoBytes => wrong(
            rt,
            given,
            b"expected bytes, each two hexadecimal digits side by side",
        ),
        LineFault::NoRoom => wrong(rt, given, b"expected at most 32,768 bytes"),
    }
}

// Whether no line was wrong and each was there; the first that is absent is reported at the line after the last.
pub fn check_request_and_print_missing(rt: &HostRuntime, given: PersonaliseRequestText) -> bool {
    if given.wrong {
        return false;
    }
    is_there(
        rt,
        given,
        given.objects,
        b"expected objects HEX; the file ends",
    ) && is_there(
        rt,
        given,
        given.entries,
        b"expected entries HEX; the file ends",
    ) && is_there(
        rt,
        given,
        given.placements,
        b"expected placements HEX; the file ends",
    )
}

fn is_there(
    rt: &HostRuntime,
    given: PersonaliseRequestText,
    part: Option<usize>,
    words: &[u8],
) -> bool {
    if part.is_none() {
        wrong(rt, given, words);
    }
    part.is_some()
}
