// The same reading of an answer without recursion: the open templates are in an array, and one loop goes over
// all objects.
//
// `read_answer` and `judge_answer` promise what the crate's functions of these names promise,
// word for word, so a caller goes from one reader to the other by one line. The walk is this module's own; all else
// is the crate's.
ghost use Rattle.std.specs.Prelude.{◌≡◌, ◌+◌, ◌-◌, ◌*◌, ◌≤◌, ◌<◌, length, take, drop};
ghost use Rattle.dictionary.specs.Rows.{store_size};
ghost use Rattle.tlv.specs.Tree.{parse_tree};
ghost use Rattle.reading.specs.Count.{object_count_in_answer};
ghost use Rattle.reading.specs.InnerItems.{most_listed_items, TemplateWalkHasRoom, WalkListsTree};
ghost use Rattle.reading.specs.Answer.{ReadingAndStoreMatchOutcome, verdict_number, read_answer};

use crate::{Awaited, ITEMS, Reading, ResponseVerdict, TemplateWalk, VisitTally};
use dictionary::SIZE;
use std::ops::Range;

// How many templates may be open at once, the outer one included.
const LEVELS: usize = 4;

// The whole answer to the command that was handed out, status bytes included.
pub fn read_answer(store: &mut [u8; SIZE], awaited: Awaited, answer: &[u8]) -> Reading
    ensures given { ReadingAndStoreMatchOutcome result store.new (read_answer awaited store.old answer.now) }
    ensures half { 2 * result.objects ≤ length answer.now - 2 }
    ensures tree { result.objects ≡ object_count_in_answer awaited answer.now }
{
    crate::read_answer_by::<FlatWalk>(store, awaited, answer)
}

// What a reading reports of an answer; the store stays.
pub fn judge_answer(store: &[u8; SIZE], awaited: Awaited, answer: &[u8]) -> ResponseVerdict
    ensures { verdict_number result ≡ (read_answer awaited store.now answer.now).reason }
{
    crate::judge_answer_by::<FlatWalk>(store, awaited, answer)
}

// The walk that has the open templates in an array.
struct FlatWalk;

impl TemplateWalk for FlatWalk {
    fn walk(
        bytes: &[u8],
        contents: Range<usize>,
        tag: u32,
        items: &mut [u64; ITEMS],
    ) -> Option<VisitTally> {
        walk(bytes, contents, tag, items)
    }
}

// A template that is open: where its contents end in the bytes, and its tag.
#[derive(Clone, Copy)]
pub struct OpenTemplate {
    pub end: usize,
    pub tag: u32,
}

// The objects of the outer template's contents, whose tag this is. The array has the open templates, the outer one first
// and the innermost at `depth`. Bytes of 00 between the objects are padding.
// Kept: an array with a depth beside it, as the project has no heap.
fn walk(
    bytes: &[u8],
    contents: Range<usize>,
    tag: u32,
    items: &mut [u64; ITEMS],
) -> Option<VisitTally>
    requires template_walk_has_room { TemplateWalkHasRoom bytes.now contents.start contents.end 1 0 items.old }
    requires tag_bound { tag < 0x1000000 }
    ensures { WalkListsTree bytes.now tag
        (parse_tree 3 (take (contents.end - contents.start) (drop contents.start bytes.now)))
        1 0 items.old result items.new }
{
    let outer = OpenTemplate {
        end: contents.end,
        tag,
    };
    let mut templates = [outer; LEVELS];
    let mut depth = 0;
    let mut at = contents.start;
    let mut tally = VisitTally {
        objects: 1,
        items: 0,
    };
    // Kept: a `loop`, as it steps by sizes that it reads from the bytes.
    loop {
        let inmost = templates[depth];
        if at == inmost.end {
            if depth == 0 {
                return Some(tally);
            }
            depth -= 1;
        } else if bytes[at] == 0 {
            at += 1;
        } else {
            let h = tlv::object_header(&bytes[at..inmost.end])?;
            let from = at + h.start;
            let e = from + h.len;
            tally.objects += 1;
            if h.template {
                if depth + 1 == LEVELS {
                    return None;
                }
                depth += 1;
                templates[depth] = OpenTemplate { end: e, tag: h.tag };
                at = from;
            } else {
                items[tally.items] = crate::packed_item(h.tag, inmost.tag, from, h.len);
                tally.items += 1;
                at = e;
            }
        }
    }
}
