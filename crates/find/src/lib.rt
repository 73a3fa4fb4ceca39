// The first object of a tag in a card's bytes: where its value is and how long it is.
//
// The bytes are read as the contents of a template are, at most 65,535 of them and templates at most four levels deep.
// `find` reports the place; `find_word` reports it as one word, for a host in C.
#![tactic(auto)]

ghost use Rattle.std.specs.Prelude.{◌≡◌, ◌≤◌, ◌<◌, [], ◌∷◌, length, MatchOption, MatchBool};
ghost use Rattle.find.specs.Find.{found_if_tag_matches, first_found_unless_malformed, find_tag_within_levels, find_tag};
ghost use Rattle.find.specs.InTree.{TagFoundMatchesTree, tree_of_card_bytes};
ghost use Rattle.find.specs.Word.{find_word};
ghost use Rattle.find.specs.Inner.{FoundSpanWithin65535Bytes, ends_around};

use tlv::NextInTemplate;

// The most bytes that are searched.
pub const MOST: usize = 65535;

// How many levels of templates may nest.
pub const LEVELS: usize = 4;

// The word where no object has the tag.
pub const NONE: u64 = 0xFFFFFFFFFFFFFFFF;

// The word of malformed bytes.
pub const BROKEN: u64 = 0xFFFFFFFFFFFFFFFE;

// Where a value is: its first byte, counted from 0, and how many there are.
#[derive(Clone, Copy)]
pub struct ValueSpan {
    pub start: usize,
    pub len: usize,
}

// What a search finds: the value of the first object of the tag, no such object, or bytes that are malformed. An enum
// of its own, since it has three cases.
#[derive(Clone, Copy)]
pub enum TagFound {
    At(ValueSpan),
    Absent,
    Malformed,
}

// The open templates, the innermost last: for each, where the bytes around it end.
#[derive(Drop)]
struct OpenTemplates {
    ends: [usize; LEVELS],
    depth: usize,
    ghost few: { depth ≤ 4 },
}

impl OpenTemplates {
    // Opens one more, where there is a level left for it.
    fn push(&mut self, end: usize) -> bool
        ensures { MatchBool result ((length (ends_around self.old.ends self.old.depth) < 4) × (ends_around self.new.ends self.new.depth ≡ end ∷ ends_around self.old.ends self.old.depth)) (length (ends_around self.old.ends self.old.depth) ≡ 4) }
    {
        if self.depth == LEVELS {
            return false;
        }
        self.ends[self.depth] = end;
        self.depth += 1;
        true
    }

    // Closes the innermost, and gives where the bytes around it end.
    fn pop(&mut self) -> Option<usize>
        ensures { MatchOption result (ends_around self.old.ends self.old.depth ≡ []) (λ e. ends_around self.old.ends self.old.depth ≡ e ∷ ends_around self.new.ends self.new.depth) }
    {
        self.depth = self.depth.checked_sub(1)?;
        Some(self.ends[self.depth])
    }
}

// The first object of a tag.
pub fn find(bytes: &[u8], tag: u32) -> TagFound
    ensures found { result ≡ find_tag tag bytes.now }
    ensures tree { TagFoundMatchesTree tag bytes.now (tree_of_card_bytes bytes.now) result }
{
    if MOST < bytes.len() {
        return TagFound::Malformed;
    }
    walk(bytes, tag)
}

// The same as one word.
pub fn find_word(bytes: &[u8], tag: u32) -> u64
    ensures { result ≡ find_word (find_tag tag bytes.now) }
{
    let found = find(bytes, tag);
    word(found)
}

// A find as one word: the place in bits 32 to 63, the length in bits 0 to 31.
fn word(found: TagFound) -> u64
    requires { FoundSpanWithin65535Bytes found }
    ensures { result ≡ find_word found }
{
    match found {
        TagFound::At(p) => p.start as u64 * 0x100000000 + p.len as u64,
        TagFound::Absent => NONE,
        TagFound::Malformed => BROKEN,
    }
}

// The objects one by one, a template before what it holds. `end` is where the innermost open template ends.
// Kept: a loop, since each object's size is read from its bytes.
fn walk(bytes: &[u8], tag: u32) -> TagFound
    ensures { result ≡ find_tag_within_levels tag 4 bytes.now }
{
    let mut open = OpenTemplates {
        ends: [0; LEVELS],
        depth: 0,
    };
    let mut at = 0;
    let mut end = bytes.len();
    let mut found = TagFound::Absent;
    'objects: loop {
        match tlv::next_behind_padding(&bytes[at..end]) {
            NextInTemplate::Malformed => return TagFound::Malformed,
            NextInTemplate::End => {
                let Some(around) = open.pop() else {
                    return found;
                };
                at = end;
                end = around;
            }
            NextInTemplate::Inner(h) => {
                let start = at + h.start;
                let e = start + h.len;
                found = first(found, h.tag == tag, start, h.len);
                if h.template {
                    if !open.push(end) {
                        return TagFound::Malformed;
                    }
                    at = start;
                    end = e;
                } else {
                    at = e;
                }
            }
        }
    }
}

// What was found before, or else the value here, where the tag is the one searched for.
fn first(found: TagFound, same: bool, start: usize, len: usize) -> TagFound
    ensures { result ≡ first_found_unless_malformed found (found_if_tag_matches same start len) }
{
    match found {
        TagFound::At(_) | TagFound::Malformed => found,
        TagFound::Absent if same => TagFound::At(ValueSpan { start, len }),
        TagFound::Absent => found,
    }
}
