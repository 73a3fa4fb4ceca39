// What the records hold: the size of each content, and the least bad record.
ghost use Rattle.std.specs.Prelude.{◌≡◌, ◌<◌, length};
ghost use Rattle.tlv.specs.Encoding.{tag_bytes, length_bytes};
ghost use Rattle.personalise.specs.Placements.{placements_in};
ghost use Rattle.personalise.specs.Records.{record_content, has_bad_placement_or_over253_bytes, first_bad_record};
ghost use Rattle.personalise.specs.Objects.{parsed_objects_or_empty};
ghost use Rattle.personalise.specs.Inner.{size_capped_at254, encoded_object_size, encoded_size_if_placed_in_record};

use crate::objects::CheckedObjects;
use crate::{objects, placements};
use tlv::PrimitiveObjects;

// The most bytes of a content, and what stands for any size above.
const MOST: usize = 253;

const OVER: usize = 254;

// The least bad record of so many.
pub(crate) fn bad_record(
    objects: CheckedObjects<'_>,
    placements: &[u8],
    records: usize,
) -> Option<usize>
    ensures { result ≡ first_bad_record (parsed_objects_or_empty objects.entry.bytes.now) (placements_in placements.now) records }
{
    let count = objects::count(objects);
    for k in 0..256 {
        if is_bad(objects, placements, k, records, count) {
            return Some(k);
        }
    }
    None
}

// Whether record k is bad: a placement strays, or the content is too long.
// Kept: objects, placements and k, here and below: two lists and a number, which a struct would only rename.
fn is_bad(
    objects: CheckedObjects<'_>,
    placements: &[u8],
    k: usize,
    records: usize,
    count: usize,
) -> bool
    requires count_value { count ≡ length (parsed_objects_or_empty objects.bytes.now) }
    ensures { result ≡ has_bad_placement_or_over253_bytes (parsed_objects_or_empty objects.entry.bytes.now) (placements_in placements.now) records k }
{
    placements::is_misplaced(placements, k, records, count) || MOST < size(objects, placements, k)
}

// How many bytes record k has inside its template; 254 for any number above 253.
pub(crate) fn size(objects: CheckedObjects<'_>, placements: &[u8], k: usize) -> usize
    ensures { result ≡ size_capped_at254 (length (record_content (parsed_objects_or_empty objects.entry.bytes.now) (placements_in placements.now) k)) }
{
    let mut total: usize = 0;
    for (i, object) in PrimitiveObjects(objects.bytes).enumerate() {
        total += placed_size(placements, k, i + 1, object.tag, object.value.len());
        if MOST < total {
            return OVER;
        }
    }
    total
}

// The size of an object in a record, 0 where it is not present; 254 for any size above 253.
fn placed_size(placements: &[u8], k: usize, number: usize, tag: u32, len: usize) -> usize
    ensures { result ≡ size_capped_at254 (encoded_size_if_placed_in_record (placements_in placements.now) k number tag len) }
{
    if !placements::is_placed(placements, k, number) {
        return 0;
    }
    object_size(tag, len)
}

// The size of an object with its shortest length; 254 for any size above 253.
fn object_size(tag: u32, len: usize) -> usize
    ensures { result ≡ size_capped_at254 (encoded_object_size tag len) }
{
    if MOST < len {
        return OVER;
    }
    let all = tag_size(tag) + length_size(len) + len;
    if MOST < all {
        return OVER;
    }
    all
}

// How many bytes a tag has.
pub(crate) fn tag_size(tag: u32) -> usize
    ensures { (result ≡ length (tag_bytes tag)) × (result < 4) }
{
    if tag < 0x100 {
        return 1;
    }
    if tag < 0x10000 {
        return 2;
    }
    3
}

// How many bytes a length below 256 has.
fn length_size(len: usize) -> usize
    requires { len < 256 }
    ensures { (result ≡ length (length_bytes len)) × (result < 3) }
{
    if len < 0x80 {
        return 1;
    }
    2
}
