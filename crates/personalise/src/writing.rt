// Writing the records: each function writes from a place of the buffer on, and gives the place after.
ghost use Rattle.std.specs.Prelude.{◌+◌, ◌*◌, ◌≤◌, ◌<◌, length};
ghost use Rattle.tlv.specs.Encoding.{tag_bytes, length_bytes, object_bytes};
ghost use Rattle.personalise.specs.Placements.{placements_in};
ghost use Rattle.personalise.specs.Records.{record_content, card_record_bytes, most_record_content_bytes};
ghost use Rattle.personalise.specs.Objects.{parsed_objects_or_empty};
ghost use Rattle.personalise.specs.Inner.{RecordContentsWithin253Bytes, WritesBytesAt, object_bytes_if_placed_in_record, concatenated_records_from_bytes};

use crate::objects::CheckedObjects;
use crate::{contents, placements};
use tlv::PrimitiveObjects;

// The tag of a record's template.
const TEMPLATE: u32 = 0x70;

// Writes the records 1 to `records`, concatenated.
pub(crate) fn put_records(
    objects: CheckedObjects<'_>,
    placements: &[u8],
    records: usize,
    out: &mut [u8],
) -> usize
    requires record_contents_within253bytes { RecordContentsWithin253Bytes (parsed_objects_or_empty objects.bytes.now) (placements_in placements.now) records }
    requires records_bound { (records < 256) × (256 * records ≤ length out.old) }
    ensures { WritesBytesAt result out.new out.old 0 (concatenated_records_from_bytes objects.entry.bytes.now placements.now records) }
{
    let mut at = 0;
    for k in 1..=records {
        at = put_record(objects, placements, k, out, at);
    }
    at
}

// Writes record k: the template's tag, the length and the objects.
fn put_record(
    objects: CheckedObjects<'_>,
    placements: &[u8],
    k: usize,
    out: &mut [u8],
    at: usize,
) -> usize
    requires k_len_bound { length (record_content (parsed_objects_or_empty objects.bytes.now) (placements_in placements.now) k) ≤ most_record_content_bytes }
    requires at_in_bounds { at + 256 ≤ length out.old }
    ensures { WritesBytesAt result out.new out.old at
        (card_record_bytes (parsed_objects_or_empty objects.entry.bytes.now) (placements_in placements.now) k) }
{
    let size = contents::size(objects, placements, k);
    let behind_tag = put_tag(out, at, TEMPLATE);
    let behind_length = put_length(out, behind_tag, size);
    put_content(objects, placements, k, out, behind_length)
}

// Writes the objects of record k, in the list's order.
fn put_content(
    objects: CheckedObjects<'_>,
    placements: &[u8],
    k: usize,
    out: &mut [u8],
    at: usize,
) -> usize
    requires k_in_bounds { at + length (record_content (parsed_objects_or_empty objects.bytes.now) (placements_in placements.now) k) ≤ length out.old }
    ensures { WritesBytesAt result out.new out.old at
        (record_content (parsed_objects_or_empty objects.entry.bytes.now) (placements_in placements.now) k) }
{
    let mut to = at;
    for (i, object) in PrimitiveObjects(objects.bytes).enumerate() {
        to = put_placed(placements, k, i + 1, object.tag, object.value, out, to);
    }
    to
}

// Writes an object where a placement puts it into record k.
fn put_placed(
    placements: &[u8],
    k: usize,
    number: usize,
    tag: u32,
    v: &[u8],
    out: &mut [u8],
    at: usize,
) -> usize
    requires tag_bound { (tag < 0x1000000) × (length v.now < 0x100) }
    requires v_in_bounds { at + length (object_bytes_if_placed_in_record (placements_in placements.now) k number tag v.now) ≤ length out.old }
    ensures { WritesBytesAt result out.new out.old at
        (object_bytes_if_placed_in_record (placements_in placements.now) k number tag v.now) }
{
    if !placements::is_placed(placements, k, number) {
        return at;
    }
    put_object(out, at, tag, v)
}

// Writes an object.
fn put_object(out: &mut [u8], at: usize, tag: u32, v: &[u8]) -> usize
    requires tag_bound { (tag < 0x1000000) × (length v.now < 0x100) }
    requires v_in_bounds { at + length (object_bytes tag v.now) ≤ length out.old }
    ensures { WritesBytesAt result out.new out.old at (object_bytes tag v.now) }
{
    let behind_tag = put_tag(out, at, tag);
    let behind_length = put_length(out, behind_tag, v.len());
    put_value(out, behind_length, v)
}

// Writes a tag.
fn put_tag(out: &mut [u8], at: usize, tag: u32) -> usize
    requires { (tag < 0x1000000) × (at + length (tag_bytes tag) ≤ length out.old) }
    ensures { WritesBytesAt result out.new out.old at (tag_bytes tag) }
{
    let [_, high, middle, low] = tag.to_be_bytes();
    match contents::tag_size(tag) {
        1 => {
            out[at] = low;
            at + 1
        }
        2 => {
            out[at] = middle;
            out[at + 1] = low;
            at + 2
        }
        _ => {
            out[at] = high;
            out[at + 1] = middle;
            out[at + 2] = low;
            at + 3
        }
    }
}

// Writes a length below 256 in as few bytes as it can be.
fn put_length(out: &mut [u8], at: usize, len: usize) -> usize
    requires { (len < 0x100) × (at + length (length_bytes len) ≤ length out.old) }
    ensures { WritesBytesAt result out.new out.old at (length_bytes len) }
{
    if len < 0x80 {
        out[at] = len as u8;
        return at + 1;
    }
    out[at] = 0x81;
    out[at + 1] = len as u8;
    at + 2
}

// Writes bytes.
fn put_value(out: &mut [u8], at: usize, v: &[u8]) -> usize
    requires { at + length v.now ≤ length out.old }
    ensures { WritesBytesAt result out.new out.old at v.now }
{
    let e = at + v.len();
    out[at..e].copy_from_slice(v);
    e
}
