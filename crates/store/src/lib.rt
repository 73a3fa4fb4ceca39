// The store of a session's data objects: one array, with a fixed place for each row of the dictionary.
//
// A place is one byte of length + 1, 0 where the object is absent, and then room for the value at its greatest length.
// So absent, present and empty, and present with bytes are apart, the zero array is the empty store, and no object is
// refused for lack of room. `offsets` has where each place is; `bin/dictionary` writes it from `dictionary.tsv`.
#![tactic(auto)]

mod offsets;

ghost use Rattle.std.specs.Prelude.{option_copied, ◌≡◌, ◌+◌, ◌-◌, ◌≤◌, ◌<◌, min, length, replicate};
ghost use Rattle.dictionary.specs.Rows.{dictionary_rows, row_at, row_count, store_size};
ghost use Rattle.store.specs.Place.{row_length_plus_one_or_zero, row_value, bytes_or_empty_if_absent, is_present, stored_value_of, length_and_value_written_at, put_row};
ghost use Rattle.store.specs.Inner.{row_offset_and_max_length, unpacked_row_offset_and_max_length};

use dictionary::SIZE;
use offsets::place_at;

#[derive(Clone, Copy)]
pub struct Store {
    pub bytes: [u8; SIZE],
}

// In the number of a place: what its start is multiplied by.
const START: u32 = 256;

// A row's place: where it starts, and the greatest length of its value.
#[derive(Clone, Copy)]
pub struct RowOffsetAndMaxLength {
    pub at: usize,
    pub most: usize,
}

// The store that holds nothing.
pub fn empty() -> Store
    ensures { result.bytes ≡ replicate store_size 0 }
{
    Store { bytes: [0u8; SIZE] }
}

// Writes 0 over all of a store's bytes: the empty store.
pub fn clear(bytes: &mut [u8])
    ensures { bytes.new ≡ replicate (length bytes.old) 0 }
{
    bytes.fill(0);
}

// A row's place; past the last row it is the store's end.
#[tactic(auto, using(crate::proofs::Rows::row_placed))]
fn span_of(row: usize) -> RowOffsetAndMaxLength
    ensures value { result ≡ row_offset_and_max_length row }
    ensures at_le_store_size { result.at ≤ store_size }
{
    unpacked(place_at(row))
}

// A place's number taken apart.
fn unpacked(place: u32) -> RowOffsetAndMaxLength
    ensures { result ≡ unpacked_row_offset_and_max_length place }
{
    RowOffsetAndMaxLength {
        at: (place / START) as usize,
        most: (place % START) as usize,
    }
}

// The length byte of a row's place as it is: 0 where the object is absent, else its length + 1.
#[tactic(auto, using(crate::proofs::Laws::length_byte_at))]
pub fn length_plus_one_or_zero(bytes: &[u8], row: usize) -> u8
    ensures { result ≡ row_length_plus_one_or_zero dictionary_rows bytes.now row }
{
    basics::byte_at(bytes, span_of(row).at)
}

// Whether a row's object is present.
#[tactic(auto, using(crate::proofs::Laws::there_is))]
pub fn is_present(bytes: &[u8], row: usize) -> bool
    ensures { result ≡ is_present (row_value dictionary_rows bytes.now row) }
{
    length_plus_one_or_zero(bytes, row) != 0
}

// How many bytes a value has by its length byte, 0 where the object is absent. A length byte that is
// too large for its place counts as the greatest length.
fn value_length(stored: u8, most: usize) -> usize
    ensures value { result ≡ min (stored - 1) most }
    ensures upper_bound { result < 256 }
{
    usize::from(stored).saturating_sub(1).min(most)
}

// A row's value: its bytes, and no bytes where the object is absent.
pub fn value(bytes: &[u8], row: usize) -> &[u8]
    ensures { result.now ≡ bytes_or_empty_if_absent (row_value dictionary_rows bytes.now row) }
{
    let span = span_of(row);
    let n = value_length(basics::byte_at(bytes, span.at), span.most);
    let behind = &bytes[bytes.len().min(span.at + 1)..];
    &behind[..n.min(behind.len())]
}

// A row's value where its object is present.
pub fn value_if_present(bytes: &[u8], row: usize) -> Option<&[u8]>
    ensures { stored_value_of (option_copied result) ≡ row_value dictionary_rows bytes.now row }
{
    is_present(bytes, row).then(|| value(bytes, row))
}

// Puts a value into a row's place, over what is there.
#[tactic(auto, using(crate::proofs::Rows::row_inside), unfolding(crate::specs::Place::put_row))]
pub fn put(bytes: &mut [u8; SIZE], row: usize, v: &[u8])
    requires { (row < row_count) × (length v.now ≤ (row_at row).greatest) }
    ensures { bytes.new ≡ put_row dictionary_rows bytes.old row v.now }
{
    write(bytes, span_of(row).at, v);
}

// Writes a length byte and a value at a place.
fn write(bytes: &mut [u8], at: usize, v: &[u8])
    requires { (at + 1 + length v.now ≤ length bytes.old) × (length v.now ≤ 254) }
    ensures { bytes.new ≡ length_and_value_written_at bytes.old at v.now }
{
    let start = at + 1;
    bytes[at] = (v.len() + 1) as u8;
    // Kept: a loop, since `copy_from_slice` takes memmove, which the archives of the tests did not need.
    for (i, b) in v.iter().enumerate() {
        bytes[start + i] = *b;
    }
}
