// Writes a list of objects as a card's records and AFL, by the lines of a text file: of the one that the argument
// names, or of standard input where there is none.
//
//     objects HEX      entries HEX      placements HEX
//
// Each appears once, in any order. The AFL and each record are shown on a line, or the refusal in words. What is
// written or refused is the library `personalise`'s matter; `text` reads the lines. What is wrong with the file goes to
// standard error. With --tell the exit status goes to descriptor 3: 0 written, 1 refused, 2 neither.
#![tactic(auto)]

mod shown;
mod text;

use program::{ProgramArguments, front};
use std::io::Read;

// What is wrong is reported under this name.
const NAME: &str = "personalise";

// The exit statuses.
const WRITTEN: u8 = 0;

const REFUSED: u8 = 1;

const NEITHER: u8 = 2;

// The most characters of a file, and room for one more, by which a longer one is known.
const MOST: usize = 65536;

const ROOM: usize = MOST + 1;

// Room for as many bytes as so many characters can spell.
const BYTES: usize = MOST / 2;

// The buffers for the records and for the AFL.
const RECORDS: usize = 32768;

const AFL: usize = 248;

fn main(rt: HostRuntime) {
    let asked = program::arguments(&rt, NAME, |_, _| Ok(false));
    let status = answered(&rt, asked);
    program::report_status(&rt, asked, status);
}

fn complain(rt: &HostRuntime, words: &[u8]) {
    print::print_text(&rt.stderr(), words);
}

// ---- the file

// Reads the file and shows the answer to it; returns the exit status.
fn answered(rt: &HostRuntime, asked: ProgramArguments) -> u8 {
    if asked.wrong {
        return NEITHER;
    }
    let Some(mut source) = program::open_source(rt, asked.file) else {
        return NEITHER;
    };
    let mut space = [0u8; ROOM];
    let Some(filled) = read(rt, &mut source, &mut space) else {
        return NEITHER;
    };
    if MOST < filled {
        program::print_wrong(rt, NAME, "expected a file of at most 65,536 characters");
        return NEITHER;
    }
    laid_out(rt, front(&space, filled))
}

// Fills the space from a file: how much of it is there, none where a part cannot be read. Each part has a character or
// more, so there are no more iterations than characters.
fn read(rt: &HostRuntime, source: &mut impl Read, space: &mut [u8]) -> Option<usize> {
    let mut filled: usize = 0;
    for _ in 0..ROOM {
        if space.len() <= filled {
            return Some(filled);
        }
        let n = program::read_part(rt, NAME, source, &mut space[filled..])?;
        if n == 0 {
            return Some(filled);
        }
        filled += n;
    }
    Some(filled)
}

// ---- the answer

// Shows the answer to a file's lines where they are valid.
fn laid_out(rt: &HostRuntime, chars: &[u8]) -> u8 {
    let mut objects = [0u8; BYTES];
    let mut entries = [0u8; BYTES];
    let mut placements = [0u8; BYTES];
    let given = text::parse_personalise_lines(
        rt,
        chars,
        &mut objects,
        &mut entries,
        &mut placements,
    );
    if !text::check_request_and_print_missing(rt, given) {
        return NEITHER;
    }
    let listed = front(&objects, given.objects.unwrap_or(0));
    let proposed = front(&entries, given.entries.unwrap_or(0));
    let placed = front(&placements, given.placements.unwrap_or(0));
    written(rt, listed, proposed, placed)
}

// Provides the buffers and shows the answer.
fn written(rt: &HostRuntime, objects: &[u8], entries: &[u8], placements: &[u8]) -> u8 {
    let mut records = [0u8; RECORDS];
    let mut afl = [0u8; AFL];
    let answer = personalise::personalise(objects, entries, placements, &mut records, &mut afl);
    if shown::print_personalise_result(rt, answer, &records, &afl) {
        return WRITTEN;
    }
    REFUSED
}
