// What is shown below a reply: the tree of an answer, the tag of a start object that is refused, those that are
// absent, and where a malformed answer cannot be read.
ghost use Rattle.std.specs.Prelude.{◌≤◌, length};

use dictionary::ROWS;
use print::tree::{TreeView, TreeWalk, WalkEnd};
use tlv::PrimitiveObjects;

// The first object of a run: its tag and how many bytes it has, no byte where there is none.
#[derive(Clone, Copy)]
struct FirstObject {
    tag: u32,
    size: usize,
}

// ---- a start

// Below a start that is refused: the tags that decided it.
pub fn print_start_refusal(rt: &impl Print, start: &[u8], number: u8) {
    match number {
        basics::REFUSED_OBJECT => refused(rt, start),
        basics::REFUSED_ABSENT => absent(rt, start),
        _ => {}
    }
}

// The first object that a start may not set: the bytes up to its end are refused for an object, those
// before it are not.
fn refused(rt: &impl Print, start: &[u8]) {
    // Kept: a step is as long as the object at its place, which the bytes tell; `tlv::PrimitiveObjects` gives no place.
    let mut at: usize = 0;
    while at < start.len() {
        let first = first_of(&start[at..]);
        let size = first.size;
        if size == 0 {
            return;
        }
        at += size;
        if is_refused(&start[..at]) {
            tag_line(rt, b"refused: ", first.tag);
            return;
        }
    }
}

// Whether start bytes are refused for an object.
fn is_refused(start: &[u8]) -> bool {
    let store = store::empty();
    let mut bytes = store.bytes;
    match start_data::load(&mut bytes, start) {
        Ok(()) => false,
        Err(refusal) => refusal.number == basics::REFUSED_OBJECT,
    }
}

// The objects that a start must bring and that are not among its bytes.
fn absent(rt: &impl Print, start: &[u8]) {
    for row in 0..ROWS {
        let tag = dictionary::row_tag(row);
        if dictionary::attributes_of(row).must != 0 && !brings(start, tag) {
            tag_line(rt, b"absent: ", tag);
        }
    }
}

// Whether an object of a tag is among the start bytes.
fn brings(start: &[u8], tag: u32) -> bool {
    PrimitiveObjects(start).any(|object| object.tag == tag)
}

// The primitive object at the front.
fn first_of(s: &[u8]) -> FirstObject
    ensures { result.size ≤ length s.now }
{
    let Some(h) = tlv::primitive_at_front(s) else {
        return FirstObject { tag: 0, size: 0 };
    };
    FirstObject {
        tag: h.tag,
        size: h.start + h.len,
    }
}

fn tag_line(rt: &impl Print, words: &[u8], tag: u32) {
    print::print_indentation(rt, 0);
    print::print_text(rt, words);
    print::print_tag_and_name(rt, tag);
    print::print_text(rt, b"\n");
}

// ---- an answer

// Below an answer: its objects where they are requested, and what is malformed where that ended the session.
pub fn print_answer_details(rt: &impl Print, card: &[u8], reason: u8, view: TreeView) {
    if card.len() < 2 {
        wrong_length(rt, card.len(), reason);
        return;
    }
    let n = card.len() - 2;
    let walk = print::tree::print_tree_walk(rt, &card[..n], view);
    if 258 < card.len() {
        wrong_length(rt, card.len(), reason);
        return;
    }
    if reason == basics::REASON_MALFORMED {
        malformed(rt, walk);
    }
}

fn wrong_length(rt: &impl Print, size: usize, reason: u8) {
    if reason == basics::REASON_MALFORMED {
        print::print_indentation(rt, 0);
        let _ = print!(rt; "malformed: length {size}, and an answer has 2 to 258 bytes\n");
    }
}

// Where the answer cannot be read, counted from 0, and why. Where all its objects can be, the outer one is at fault.
fn malformed(rt: &impl Print, walk: TreeWalk) {
    let (place, why) = match walk.ended {
        Some(WalkEnd::Broken) => (walk.at, "no whole object"),
        Some(WalkEnd::Fifth) => (walk.at, "template on the fifth level"),
        Some(WalkEnd::Behind) => (walk.at, "behind the one object of an answer"),
        _ => (0, "outer tag or body that this answer does not take"),
    };
    print::print_indentation(rt, 0);
    let _ = print!(rt; "malformed at byte {place}: {why}\n");
}
