// Reading a card's answer into a store, whole or not at all: walk, judge, store.
//
// `read_answer` takes the whole answer with its status bytes; `judge_answer` only reports what it would give. A walk
// lists the primitive objects of the answer's template in order, a number each; a body under 80 gives such a list by
// its fixed parts. `judge_items` goes over the list once and leaves the pending values in its place, each by its row.
// `store_pending` puts them into the store where all were allowed. Until then the store is only read.
//
// Here the walk calls itself on a template's contents. The module `flat` has the same open functions with the same
// promises and a walk with no recursion; it shares all else. `read_both` runs both readers and says that they agree.
#![tactic(auto)]

pub mod flat;

ghost use Rattle.std.specs.Prelude.{◌≡◌, true, not, ◌+◌, ◌-◌, ◌*◌, ◌/◌, ◌%◌, ◌≤◌, ◌<◌, eqb, length, get_or, set, take, drop};
ghost use Rattle.basics.specs.Choice.{both};
ghost use Rattle.basics.specs.Number.{has_bit_of_weight};
ghost use Rattle.dictionary.specs.Rows.{dictionary_rows, row_count, store_size};
ghost use Rattle.dictionary.specs.Packing.{row_with_attributes_and_tag_zero};
ghost use Rattle.store.specs.Place.{is_row_absent_or_empty};
ghost use Rattle.tlv.specs.Tag.{is_private};
ghost use Rattle.tlv.specs.Tree.{parse_tree};
ghost use Rattle.reading.specs.declared.Awaited.{Awaited};
ghost use Rattle.reading.specs.declared.ResponseVerdict.TheVariants.{Malformed};
ghost use Rattle.reading.specs.Taking.{row_allows_value_from_card, card_may_set, is_template_in_set};
ghost use Rattle.reading.specs.Count.{object_count_in_answer};
ghost use Rattle.reading.specs.Both.{ReadAnswerPromises, ReadersAgree};
ghost use Rattle.reading.specs.InnerItems.{packed_item, packed_item_tag, packed_item_template_tag, packed_item_value_start, packed_item_value_length, ItemValueInside};
ghost use Rattle.reading.specs.InnerItems.{unpacked_item};
ghost use Rattle.reading.specs.InnerItems.{most_listed_items, IsItemList, unpacked_first_items, TemplateWalkHasRoom, WalkListsTree};
ghost use Rattle.reading.specs.InnerPending.{judge_item, packed_pending_entry, pending_entry_row, mark_row_filled_if_non_empty, IsPendingList, AllPendingEntriesFitRowAndBytes, store_with_pending};
ghost use Rattle.reading.specs.InnerPending.{ItemsVerdictMatchesStoringItems};
ghost use Rattle.reading.specs.Inner.{reading_of, reading_beginning, outer_object, reading_outcome_of_listing, ListedItemsLieInResponse};
ghost use Rattle.reading.specs.Inner.{ListingGivesReading};
ghost use Rattle.reading.specs.Inner.{ListingGivesPrimitiveBodyReading, OpenedResponseDescribesResponse, listing_of_template};
ghost use Rattle.reading.specs.Answer.{ReadingAndStoreMatchOutcome, verdict_number, response_bit, response_template_tag, gpo_items_under80};
ghost use Rattle.reading.specs.Answer.{cryptogram_items_under80};
ghost use Rattle.reading.specs.Answer.{primitive_body_items, is_body_to_be_read, is_status9000, read_answer};

use dictionary::{DictionaryTables, ROWS, RowAttributes, SIZE};
use std::ops::Range;
use tlv::TlvHeader;

// An answer has at most 256 bytes and the two status bytes.
const MOST_ANSWER: usize = 258;

// The bodies under 80: of GPO the AIP, two bytes, and an AFL of 4 to 248 bytes; of GENERATE AC the CID, the ATC and the
// AC, 11 bytes, and at most 32 of IAD.
const LEAST_GPO_BODY: usize = 6;

const MOST_GPO_BODY: usize = 250;

const LEAST_AC_BODY: usize = 11;

const MOST_AC_BODY: usize = 43;

// How many primitive objects can be listed: as many as 256 bytes can have, two bytes an object.
const ITEMS: usize = 128;

// An object in one number: its tag, the tag of the template directly around it, the place of the byte before its value,
// and its length. A pending value in one number: its row, the same place and length.
// Kept: packed, as the list takes the place of its pending values; `packed_item` of specs/InnerItems names the parts.
const TAG: u64 = 0x10000000000;

const AROUND: u64 = 0x10000;

const PLACE: u64 = 0x100;

const ROW: u64 = 0x10000;

// A record's file.
#[derive(Clone, Copy)]
pub struct Sfi {
    pub number: u8,
}

// The answer that is awaited.
#[derive(Clone, Copy)]
pub enum Awaited {
    Gpo,
    Record(Sfi),
    Cryptogram,
    Checksum,
}

// What a reading reports of an answer.
// Kept: four verdicts and no Result: a record that is not read is accepted before its body, so `Accepted` is decided early
// as the others are, and `Err(Ok(()))` would say so there.
#[derive(Clone, Copy)]
pub enum ResponseVerdict {
    Accepted,
    BadStatus,
    Malformed,
    NotAllowed,
}

// A reading: its verdict, and the count of objects in the answer's tree.
#[derive(Clone, Copy)]
pub struct Reading {
    pub verdict: ResponseVerdict,
    pub objects: usize,
}

// The readings of one answer by both readers.
#[derive(Clone, Copy)]
pub struct BothReadings {
    pub recursive: Reading,
    pub flat: Reading,
}

// How many objects were visited, templates included, and how many of them, the primitive ones, are listed.
// Kept: the list is an array with its count beside it, as the project has no heap.
#[derive(Clone, Copy)]
pub struct VisitTally {
    pub objects: usize,
    pub items: usize,
}

// A reading, and how many values are pending: none, unless all objects are allowed.
// Kept: a reading of any verdict with a count, and no Result: both callers take the reading whatever its verdict is.
#[derive(Clone, Copy)]
pub struct PendingReading {
    pub reading: Reading,
    pub pending: usize,
}

// The whole answer to the command that was handed out, status bytes included.
pub fn read_answer(store: &mut [u8; SIZE], awaited: Awaited, answer: &[u8]) -> Reading
    ensures given { ReadingAndStoreMatchOutcome result store.new (read_answer awaited store.old answer.now) }
    ensures half { 2 * result.objects ≤ length answer.now - 2 }
    ensures tree { result.objects ≡ object_count_in_answer awaited answer.now }
{
    read_answer_by::<RecursiveWalk>(store, awaited, answer)
}

// What a reading reports of an answer; the store stays.
pub fn judge_answer(store: &[u8; SIZE], awaited: Awaited, answer: &[u8]) -> ResponseVerdict
    ensures { verdict_number result ≡ (read_answer awaited store.now answer.now).reason }
{
    judge_answer_by::<RecursiveWalk>(store, awaited, answer)
}

// The answer by both readers, each with a store of its own; where the stores are equal, so are the readings and
// what they leave.
pub fn read_both(
    recursive: &mut [u8; SIZE],
    flat: &mut [u8; SIZE],
    awaited: Awaited,
    answer: &[u8],
) -> BothReadings
    ensures recursive { ReadAnswerPromises awaited answer.now recursive.old result.recursive recursive.new }
    ensures flat { ReadAnswerPromises awaited answer.now flat.old result.flat flat.new }
    ensures same { recursive.old ≡ flat.old → ReadersAgree result recursive.new flat.new }
{
    let first = read_answer(recursive, awaited, answer);
    let second = flat::read_answer(flat, awaited, answer);
    BothReadings {
        recursive: first,
        flat: second,
    }
}

// Document 01's number of a verdict; 0 where the answer gives no reason.
pub fn verdict_number(verdict: ResponseVerdict) -> u8
    ensures { result ≡ verdict_number verdict }
{
    match verdict {
        ResponseVerdict::Accepted => basics::REASON_NONE,
        ResponseVerdict::BadStatus => basics::REASON_STATUS,
        ResponseVerdict::Malformed => basics::REASON_MALFORMED,
        ResponseVerdict::NotAllowed => basics::REASON_NOT_ALLOWED,
    }
}

// A walk over the contents of an answer's outer template, whose tag this is: it lists the primitive objects.
trait TemplateWalk {
    fn walk(
        bytes: &[u8],
        contents: Range<usize>,
        tag: u32,
        items: &mut [u64; ITEMS],
    ) -> Option<VisitTally>
        requires template_walk_has_room { TemplateWalkHasRoom bytes.now contents.start contents.end 1 0 items.old }
        requires tag_bound { tag < 0x1000000 }
        ensures { WalkListsTree bytes.now tag
            (parse_tree 3 (take (contents.end - contents.start) (drop contents.start bytes.now)))
            1 0 items.old result items.new };
}

// The walk that calls itself.
struct RecursiveWalk;

impl TemplateWalk for RecursiveWalk {
    fn walk(
        bytes: &[u8],
        contents: Range<usize>,
        tag: u32,
        items: &mut [u64; ITEMS],
    ) -> Option<VisitTally> {
        let outer = VisitTally {
            objects: 1,
            items: 0,
        };
        walk(bytes, contents, tag, 3, outer, items)
    }
}

// `read_answer` by a walk.
fn read_answer_by<W: TemplateWalk>(
    store: &mut [u8; SIZE],
    awaited: Awaited,
    answer: &[u8],
) -> Reading
    ensures { ReadAnswerPromises awaited answer.now store.old result store.new }
{
    let mut items = [0u64; ITEMS];
    let listing = list_objects::<W>(awaited, answer, &mut items);
    take_listed(store, awaited, answer, listing, &mut items)
}

// `judge_answer` by a walk.
fn judge_answer_by<W: TemplateWalk>(
    store: &[u8; SIZE],
    awaited: Awaited,
    answer: &[u8],
) -> ResponseVerdict
    ensures { verdict_number result ≡ (read_answer awaited store.now answer.now).reason }
{
    let mut items = [0u64; ITEMS];
    let listing = list_objects::<W>(awaited, answer, &mut items);
    judge_listed(store, awaited, answer, listing, &mut items)
        .reading
        .verdict
}

// The objects of an answer, a template's by a walk.
fn list_objects<W: TemplateWalk>(
    awaited: Awaited,
    answer: &[u8],
    items: &mut [u64; ITEMS],
) -> Result<VisitTally, Reading>
    ensures { ListingGivesReading awaited answer.now (λ b. read_answer awaited b answer.now)
        result items.new }
{
    let h = open(awaited, answer)?;
    if h.template {
        let end = h.start + h.len;
        close(awaited, h.tag, W::walk(answer, h.start..end, h.tag, items))
    } else {
        list_parts(awaited, h, items)
    }
}

// The objects of a template's contents, listed behind those of the tally, with so many levels of templates still
// allowed: an object that is a template is walked by a call of this function on its contents. Bytes of 00 before, between
// and after the objects are padding, passed one at a time.
fn walk(
    bytes: &[u8],
    contents: Range<usize>,
    around: u32,
    levels: usize,
    tally: VisitTally,
    items: &mut [u64; ITEMS],
) -> Option<VisitTally>
    requires template_walk_has_room { TemplateWalkHasRoom bytes.now contents.start contents.end tally.objects tally.items items.old }
    requires around_bound { around < 0x1000000 }
    ensures { WalkListsTree bytes.now around
        (parse_tree levels (take (contents.end - contents.start) (drop contents.start bytes.now)))
        tally.objects tally.items items.old result items.new }
{
    let end = contents.end;
    let mut at = contents.start;
    let mut so_far = tally;
    // Kept: a `while`, as it steps by sizes that it reads from the bytes.
    while at < end {
        if bytes[at] == 0 {
            at += 1;
        } else {
            let Some(h) = tlv::object_header(&bytes[at..end]) else {
                return None; // no whole object is next
            };
            let from = at + h.start;
            let e = from + h.len;
            so_far.objects += 1;
            if h.template {
                if levels == 0 {
                    return None;
                }
                so_far = walk(bytes, from..e, h.tag, levels - 1, so_far, items)?;
            } else {
                items[so_far.items] = packed_item(h.tag, around, from, h.len);
                so_far.items += 1;
            }
            at = e;
        }
    }
    Some(so_far)
}

// The listed objects are judged, and the pending values put into the store.
fn take_listed(
    store: &mut [u8; SIZE],
    awaited: Awaited,
    answer: &[u8],
    listing: Result<VisitTally, Reading>,
    items: &mut [u64; ITEMS],
) -> Reading
    requires { ListedItemsLieInResponse answer.now listing items.old }
    ensures { ReadingAndStoreMatchOutcome result store.new
        (reading_outcome_of_listing awaited answer.now store.old listing items.old) }
{
    let judged = judge_listed(store, awaited, answer, listing, items);
    store_pending(store, answer, &items[..judged.pending]);
    judged.reading
}

// The reading of an answer, and how many values are pending.
fn judge_listed(
    store: &[u8; SIZE],
    awaited: Awaited,
    answer: &[u8],
    listing: Result<VisitTally, Reading>,
    items: &mut [u64; ITEMS],
) -> PendingReading
    requires { ListedItemsLieInResponse answer.now listing items.old }
    ensures given { ReadingAndStoreMatchOutcome result.reading
        (store_with_pending answer.now store.now (take result.pending items.new))
        (reading_outcome_of_listing awaited answer.now store.now listing items.old) }
    ensures pending { IsPendingList answer.now result.pending items.new }
{
    match listing {
        Err(reading) => PendingReading {
            reading,
            pending: 0,
        },
        Ok(tally) => match judge_items(items, tally.items, answer_bit(awaited), answer, store) {
            Ok(n) => pending_reading(ResponseVerdict::Accepted, tally.objects, n),
            Err(verdict) => pending_reading(verdict, tally.objects, 0),
        },
    }
}

// A reading of these parts, with so many values pending.
fn pending_reading(verdict: ResponseVerdict, objects: usize, pending: usize) -> PendingReading
    ensures { (result.reading ≡ reading_of verdict objects) × (result.pending ≡ pending) }
{
    let reading = Reading { verdict, objects };
    PendingReading { reading, pending }
}

// Puts the pending values into the store, one after the other.
fn store_pending(store: &mut [u8; SIZE], bytes: &[u8], pending: &[u64])
    requires { AllPendingEntriesFitRowAndBytes bytes.now pending.now }
    ensures { store.new ≡ store_with_pending bytes.now store.old pending.now }
{
    for value in pending {
        let start = start_in(*value);
        let e = start + len_in(*value);
        store::put(store, row_in(*value), &bytes[start..e]);
    }
}

// Length and status, and whether the body is read.
#[tactic(auto, using(basics::proofs::Laws::if_yes, basics::proofs::Laws::if_no), unfolding(crate::specs::Inner::reading_beginning, crate::specs::Answer::response_length_is2_to258, basics::specs::Choice::both))]
fn begin(awaited: Awaited, answer: &[u8]) -> Result<usize, ResponseVerdict>
    ensures { result ≡ reading_beginning awaited answer.now }
{
    let n = answer.len();
    if n < 2 || MOST_ANSWER < n {
        return Err(ResponseVerdict::Malformed);
    }
    if !is_good(answer) {
        return Err(ResponseVerdict::BadStatus);
    }
    if !is_read(awaited) {
        return Err(ResponseVerdict::Accepted);
    }
    Ok(n - 2)
}

// Whether the two bytes at the end are 90 00.
#[tactic(auto, unfolding(crate::specs::Answer::is_status9000, basics::specs::Choice::both))]
fn is_good(answer: &[u8]) -> bool
    requires { 2 ≤ length answer.now }
    ensures { result ≡ is_status9000 answer.now }
{
    let n = answer.len();
    answer[n - 2] == 0x90 && answer[n - 1] == 0
}

// Whether more than the status is read: of files 11 to 30 nothing is.
#[tactic(auto, unfolding(crate::specs::Answer::is_body_to_be_read))]
fn is_read(awaited: Awaited) -> bool
    ensures { result ≡ is_body_to_be_read awaited }
{
    match awaited {
        Awaited::Record(f) => f.number <= 10,
        Awaited::Gpo | Awaited::Cryptogram | Awaited::Checksum => true,
    }
}

// The answer that brings an object, as a bit of the dictionary's column.
fn answer_bit(awaited: Awaited) -> u8
    ensures value { result ≡ response_bit awaited }
    ensures result_nonzero { 0 < result }
{
    match awaited {
        Awaited::Gpo => dictionary::GPO,
        Awaited::Record(_) => dictionary::CARD_RECORD,
        Awaited::Cryptogram => dictionary::CRYPTOGRAM,
        Awaited::Checksum => dictionary::CHECKSUM,
    }
}

// The outer tag of an answer that is a template.
fn template_tag(awaited: Awaited) -> u32
    ensures { result ≡ response_template_tag awaited }
{
    match awaited {
        Awaited::Record(_) => 0x70,
        Awaited::Gpo | Awaited::Cryptogram | Awaited::Checksum => 0x77,
    }
}

// The body's one object, with no byte after it.
#[tactic(auto, using(basics::proofs::Laws::if_yes, basics::proofs::Laws::if_no), unfolding(crate::specs::Inner::outer_object))]
fn outer_of(body: &[u8]) -> Option<TlvHeader>
    ensures { result ≡ outer_object body.now }
{
    let h = tlv::object_header(body)?;
    if h.start + h.len == body.len() {
        Some(h)
    } else {
        None
    }
}

// Length, status and the body's one object.
fn open(awaited: Awaited, answer: &[u8]) -> Result<TlvHeader, Reading>
    ensures { OpenedResponseDescribesResponse awaited answer.now result }
{
    // Kept: a `match` and no `map_err(..)?`, whose closure would be as long as the arm.
    match begin(awaited, answer) {
        Err(verdict) => Err(Reading {
            verdict,
            objects: 0,
        }),
        Ok(n) => outer_of(&answer[..n]).ok_or(malformed(0)),
    }
}

// The reading of a malformed answer that has so many objects.
fn malformed(objects: usize) -> Reading
    ensures { result ≡ reading_of Malformed objects }
{
    Reading {
        verdict: ResponseVerdict::Malformed,
        objects,
    }
}

// The objects of a template by what the walk over its contents reports.
#[tactic(auto, using(basics::proofs::Laws::if_yes, basics::proofs::Laws::if_no), unfolding(crate::specs::Inner::listing_of_template))]
fn close(awaited: Awaited, tag: u32, walked: Option<VisitTally>) -> Result<VisitTally, Reading>
    ensures { result ≡ listing_of_template awaited tag walked }
{
    let t = walked.ok_or(malformed(0))?;
    if tag == template_tag(awaited) {
        Ok(t)
    } else {
        Err(malformed(t.objects))
    }
}

// The parts of a primitive body, which must be under 80.
fn list_parts(
    awaited: Awaited,
    h: TlvHeader,
    items: &mut [u64; ITEMS],
) -> Result<VisitTally, Reading>
    requires { (2 ≤ h.start) × (h.start + h.len ≤ 256) }
    ensures { ListingGivesPrimitiveBodyReading awaited (primitive_body_items awaited h.tag) h.start h.len
        result items.new }
{
    if h.tag != 0x80 {
        return Err(malformed(1));
    }
    match awaited {
        Awaited::Gpo => list_gpo(h.start, h.len, items),
        Awaited::Cryptogram => list_cryptogram(h.start, h.len, items),
        Awaited::Record(_) | Awaited::Checksum => Err(malformed(1)),
    }
}

// The parts of a GPO body under 80: the AIP, then the AFL.
fn list_gpo(start: usize, n: usize, items: &mut [u64; ITEMS]) -> Result<VisitTally, Reading>
    requires { (2 ≤ start) × (start + n ≤ 256) }
    ensures { ListingGivesPrimitiveBodyReading Awaited.Gpo gpo_items_under80 start n result items.new }
{
    if n < LEAST_GPO_BODY || MOST_GPO_BODY < n || (n - 2) % 4 != 0 {
        return Err(malformed(1));
    }
    // Kept: two lines and no table of parts, as the last part's length depends on the value's.
    items[0] = packed_item(0x82, 0x77, start, 2);
    items[1] = packed_item(0x94, 0x77, start + 2, n - 2);
    Ok(VisitTally {
        objects: 1,
        items: 2,
    })
}

// 9F27, 9F36 and 9F26, and 9F10 if any bytes are left.
fn list_cryptogram(start: usize, n: usize, items: &mut [u64; ITEMS]) -> Result<VisitTally, Reading>
    requires { (2 ≤ start) × (start + n ≤ 256) }
    ensures { ListingGivesPrimitiveBodyReading Awaited.Cryptogram cryptogram_items_under80 start n result items.new }
{
    if n < LEAST_AC_BODY || MOST_AC_BODY < n {
        return Err(malformed(1));
    }
    // Kept: a line for each part and no table, as the last part's length depends on the value's.
    items[0] = packed_item(0x9F27, 0x77, start, 1);
    items[1] = packed_item(0x9F36, 0x77, start + 1, 2);
    items[2] = packed_item(0x9F26, 0x77, start + 3, 8);
    if n == LEAST_AC_BODY {
        return Ok(VisitTally {
            objects: 1,
            items: 3,
        });
    }
    items[3] = packed_item(0x9F10, 0x77, start + 11, n - 11);
    Ok(VisitTally {
        objects: 1,
        items: 4,
    })
}

// The listed objects one after the other: the pending values take their place, from the front; or one is not allowed.
// Kept: `0 < answer` is asked by four functions: a bit of a column that is made once for a reading. A type for it would
// have one maker, `answer_bit`, and be taken apart at each test.
fn judge_items(
    items: &mut [u64; ITEMS],
    n: usize,
    answer: u8,
    bytes: &[u8],
    store: &[u8; SIZE],
) -> Result<usize, ResponseVerdict>
    requires is_item_list { IsItemList bytes.now n items.old }
    requires answer_nonzero { 0 < answer }
    ensures { ItemsVerdictMatchesStoringItems answer bytes.now store.now
        (unpacked_first_items bytes.now n items.old) result items.new }
{
    let mut filled = [0u8; ROWS];
    let tables = DictionaryTables::new();
    let mut pending = 0;
    // Kept: by index, as the pending values are written into the front of the list that is read.
    for i in 0..n {
        let item = items[i];
        if let Some(row) = judge_item(item, answer, bytes, &tables)? {
            if !is_free(row, store, &filled) {
                return Err(ResponseVerdict::NotAllowed);
            }
            add_pending(row, item, pending, items, &mut filled);
            pending += 1;
        }
    }
    Ok(pending)
}

// One object before the store is asked: its row, no row where it is skipped, or the verdict where it is not allowed.
fn judge_item(
    item: u64,
    answer: u8,
    bytes: &[u8],
    tables: &DictionaryTables,
) -> Result<Option<usize>, ResponseVerdict>
    requires item_value_inside { ItemValueInside bytes.now item }
    requires answer_nonzero { 0 < answer }
    ensures { result ≡ judge_item answer (unpacked_item bytes.now item) }
{
    let tag = tag_in(item);
    let Some(row) = tables.find_row(tag).found else {
        return Ok(None);
    };
    let attributes = tables.attributes_of(row);
    if is_skipped(tag, attributes) {
        return Ok(None);
    }
    let start = start_in(item);
    let e = start + len_in(item);
    if !may_come(attributes, around_in(item), answer, &bytes[start..e]) {
        return Err(ResponseVerdict::NotAllowed);
    }
    Ok(Some(row))
}

// Whether no bytes are in a row's place of the store and none are pending for it.
#[tactic(auto, using(crate::proofs::Pending::marked, crate::proofs::Pending::unmarked))]
fn is_free(row: usize, store: &[u8; SIZE], filled: &[u8; ROWS]) -> bool
    requires { row < row_count }
    ensures { result ≡ both (is_row_absent_or_empty dictionary_rows store.now row)
        (eqb (get_or filled.now row 0) 0) }
{
    filled[row] == 0 && store::length_plus_one_or_zero(store, row) <= 1
}

// An object's value is pending for a row, behind so many others; the row is marked where the value has bytes.
#[tactic(auto, using(basics::proofs::Laws::if_yes, basics::proofs::Laws::if_no))]
fn add_pending(
    row: usize,
    item: u64,
    pending: usize,
    items: &mut [u64; ITEMS],
    filled: &mut [u8; ROWS],
)
    requires { (row < row_count) × (pending < most_listed_items) }
    ensures put { items.new ≡ set items.old pending (packed_pending_entry row item) }
    ensures marked { filled.new ≡ mark_row_filled_if_non_empty filled.old row (packed_item_value_length item) }
{
    items[pending] = pending_of(row, item);
    if len_in(item) != 0 {
        filled[row] = 1;
    }
}

// An object in one number.
fn packed_item(tag: u32, around: u32, start: usize, len: usize) -> u64
    requires { (tag < 0x1000000) × (around < 0x1000000) × (1 ≤ start) × (start ≤ 256) × (len < 256) }
    ensures { result ≡ packed_item tag around start len }
{
    tag as u64 * TAG + around as u64 * AROUND + (start as u64 - 1) * PLACE + len as u64
}

// An object's value in one number, by its row.
fn pending_of(row: usize, item: u64) -> u64
    requires { row < row_count }
    ensures { result ≡ packed_pending_entry row item }
{
    row as u64 * ROW + item % ROW
}

// The parts of an object's number, and of a pending value's.
fn tag_in(item: u64) -> u32
    ensures { result ≡ packed_item_tag item }
{
    (item / TAG) as u32
}

fn around_in(item: u64) -> u32
    ensures { result ≡ packed_item_template_tag item }
{
    (item / AROUND % (TAG / AROUND)) as u32
}

fn start_in(item: u64) -> usize
    ensures { (result ≡ packed_item_value_start item) × (result ≤ 256) }
{
    (item / PLACE % PLACE) as usize + 1
}

fn len_in(item: u64) -> usize
    ensures { (result ≡ packed_item_value_length item) × (result < 256) }
{
    (item % PLACE) as usize
}

fn row_in(value: u64) -> usize
    ensures { result ≡ pending_entry_row value }
{
    (value / ROW) as usize
}

// Whether a known object is skipped: of the private class, and not the card's to set.
#[tactic(auto, unfolding(basics::specs::Choice::both))]
fn is_skipped(tag: u32, attributes: RowAttributes) -> bool
    ensures { result ≡ both (is_private tag) (not (card_may_set (row_with_attributes_and_tag_zero attributes))) }
{
    !attributes.may_be_set_by(dictionary::CARD) && tlv::is_private(tag)
}

// Whether the card may bring an object of these attributes here, with this value.
#[tactic(auto, unfolding(crate::specs::Taking::row_allows_value_from_card, crate::specs::Taking::allowed_in_template, basics::specs::Choice::both))]
fn may_come(attributes: RowAttributes, around: u32, answer: u8, v: &[u8]) -> bool
    requires { 0 < answer }
    ensures { result ≡ row_allows_value_from_card answer (row_with_attributes_and_tag_zero attributes) around v.now }
{
    attributes.may_be_set_by(dictionary::CARD)
        && is_brought_by(attributes, answer)
        && may_stand(attributes, around)
        && dictionary::length_and_digits_fit_row(attributes, v)
}

// Whether an answer is one of those that may bring an object.
// Kept: the last test would do for all, and the first two spare a division.
fn is_brought_by(attributes: RowAttributes, answer: u8) -> bool
    requires { 0 < answer }
    ensures { result ≡ has_bit_of_weight attributes.answers answer }
{
    match answer {
        dictionary::CARD_RECORD => attributes.may_be_brought_by(dictionary::CARD_RECORD),
        dictionary::CRYPTOGRAM => attributes.may_be_brought_by(dictionary::CRYPTOGRAM),
        _ => attributes.may_be_brought_by(answer),
    }
}

// Whether an object of these templates may be directly inside a template.
#[tactic(auto, using(basics::proofs::Laws::if_yes, basics::proofs::Laws::if_no))]
fn may_stand(attributes: RowAttributes, around: u32) -> bool
    ensures { result ≡ is_template_in_set attributes.templates around }
{
    match around {
        0x70 => attributes.may_be_in(dictionary::IN_70),
        0x77 => attributes.may_be_in(dictionary::IN_77),
        0xA5 => attributes.may_be_in(dictionary::IN_A5),
        0xBF0C => attributes.may_be_in(dictionary::IN_BF0C),
        0x6F => attributes.may_be_in(dictionary::IN_6F),
        _ => false,
    }
}
