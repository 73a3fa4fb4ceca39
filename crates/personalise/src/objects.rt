// The list of objects: what its rules require of each, and how many there are.
ghost use Rattle.std.specs.Prelude.{◌≡◌, length};
ghost use Rattle.tlv.specs.Primitives.{tlv_object, primitive_objects};
ghost use Rattle.dictionary.specs.Rows.{in_record_response};
ghost use Rattle.dictionary.specs.Packing.{row_with_attributes_and_tag_zero};
ghost use Rattle.reading.specs.Taking.{row_allows_value_from_card};
ghost use Rattle.personalise.specs.Objects.{tag_record_template, parsed_objects_or_empty, tag_and_value_allowed_in_record};
ghost use Rattle.personalise.specs.Placements.{placements_in};
ghost use Rattle.personalise.specs.Inner.{list_parsed_and_lacks_tag, parsed_objects_valid_and_placed_once, AreObjectsAllowedInRecord};

use crate::placements;
use dictionary::RowAttributes;
use tlv::PrimitiveObjects;

// The bytes of a list that `keeps` accepts: whole objects, all of which the card may set in a record.
#[derive(Clone, Copy)]
pub(crate) struct CheckedObjects<'a> {
    pub(crate) bytes: &'a [u8],
    ghost allowed: { AreObjectsAllowedInRecord bytes.now },
}

// Whether the bytes are a run of objects that may all be set, no tag twice, each placed once.
// Kept: a loop, here and in `lacks_tag`: what is left is walked for the tag alone, and the first object that is bad ends
// it; `PrimitiveObjects` says which objects it gives, not which bytes it leaves. A `while let` took a third longer.
#[tactic(auto, using(tlv::proofs::Primitives::read_inside))]
pub(crate) fn keeps(objects: &[u8], placements: &[u8]) -> bool
    ensures { result ≡ parsed_objects_valid_and_placed_once (placements_in placements.now) 1 (primitive_objects objects.now) }
{
    let mut s = objects;
    let mut number = 1;
    while !s.is_empty() {
        let Some(h) = tlv::primitive_at_front(s) else {
            return false;
        };
        let end = h.start + h.len;
        let value = &s[h.start..end];
        s = &s[end..];
        if !is_settable(h.tag, value) {
            return false;
        }
        if !lacks_tag(s, h.tag) {
            return false;
        }
        if placements::count_named(placements, number) != 1 {
            return false;
        }
        number += 1;
    }
    true
}

// How many objects a run has.
pub(crate) fn count(objects: CheckedObjects<'_>) -> usize
    ensures { result ≡ length (parsed_objects_or_empty objects.entry.bytes.now) }
{
    PrimitiveObjects(objects.bytes).count()
}

// Whether the bytes are a run without a tag.
#[tactic(auto, using(tlv::proofs::Primitives::read_inside))]
fn lacks_tag(objects: &[u8], tag: u32) -> bool
    ensures { result ≡ list_parsed_and_lacks_tag tag (primitive_objects objects.now) }
{
    let mut s = objects;
    while !s.is_empty() {
        let Some(h) = tlv::primitive_at_front(s) else {
            return false;
        };
        if h.tag == tag {
            return false;
        }
        s = &s[h.start + h.len..];
    }
    true
}

// Whether the card may set an object in template 70, its length and digits fitting.
fn is_settable(tag: u32, v: &[u8]) -> bool
    ensures { result ≡ tag_and_value_allowed_in_record (tlv_object tag v.now) }
{
    let Some(row) = dictionary::lookup_row(tag).found else {
        return false;
    };
    let attributes = dictionary::attributes_of(row);
    may_come(attributes, v)
}

// Whether the card may bring an object of these attributes in a record, with this value.
#[tactic(auto, using(std::proofs::lemmas::Bool::Decides::nat_tests, basics::proofs::Laws::if_yes), unfolding(reading::specs::Taking::row_allows_value_from_card, reading::specs::Taking::allowed_in_template, basics::specs::Choice::both))]
fn may_come(attributes: RowAttributes, v: &[u8]) -> bool
    ensures { result ≡ row_allows_value_from_card in_record_response (row_with_attributes_and_tag_zero attributes) tag_record_template v.now }
{
    attributes.setters / dictionary::CARD % 2 == 1
        && attributes.answers / dictionary::CARD_RECORD % 2 == 1
        && attributes.templates / dictionary::IN_70 % 2 == 1
        && dictionary::length_and_digits_fit_row(attributes, v)
}
