// DOLs: a list that names tags and lengths is measured, and filled from a store.
#![tactic(auto)]

ghost use Rattle.std.specs.Prelude.{◌≡◌, ◌≤◌, length, option_map};
ghost use Rattle.dictionary.specs.Rows.{dictionary_rows};
ghost use Rattle.dol.specs.Entries.{dol_entry_at, dol_entries};
ghost use Rattle.dol.specs.Filling.{truncated_to_length, padding_byte, padded_to_length, fitted_to_length, dol_entry_bytes, dol_filled};
ghost use Rattle.dol.specs.Inner.{dol_bytes_of_form_and_value};
ghost use Rattle.dol.specs.Measure.{dol_total_if_at_most255, FilledDolFitsAt, buffer_with_filled_dol_at};

use dictionary::DictionaryTables;

// An entry of a list: the tag, and how many bytes are requested of it.
#[derive(Clone, Copy)]
pub struct DolEntry {
    pub tag: u32,
    pub asked: u8,
}

// How many bytes a list requests.
// Kept: a walk over the rest of the list, here and in `fill`: an entry's own size says where the next one is.
pub fn measure(list: &[u8]) -> Option<usize>
    ensures { result ≡ dol_total_if_at_most255 (dol_entries list.now) }
{
    let mut rest = list;
    let mut total = 0;
    while !rest.is_empty() {
        let (entry, size) = entry_at(rest)?;
        total += usize::from(entry.asked);
        if 255 < total {
            return None;
        }
        rest = &rest[size..];
    }
    Some(total)
}

// Writes the filling of a whole list from a place on. A list is measured first: this one is whole, and its filling ends
// inside the buffer.
pub fn fill(list: &[u8], store: &[u8], buffer: &mut [u8], at: usize)
    requires { FilledDolFitsAt (dol_entries list.now) at (length buffer.old) }
    ensures { buffer.new ≡ buffer_with_filled_dol_at buffer.old at (dol_filled dictionary_rows store.now list.now) }
{
    let tables = DictionaryTables::new();
    let mut rest = list;
    let mut to = at;
    while let Some((entry, size)) = entry_at(rest) {
        let end = to + usize::from(entry.asked);
        write_entry(entry, store, &mut buffer[to..end], &tables);
        to = end;
        rest = &rest[size..];
    }
}

// The entry at the front of a list, and how many of its bytes the entry takes.
#[tactic(auto, using(crate::proofs::Entries::entry_untagged, crate::proofs::Entries::entry_asked, crate::proofs::Entries::entry_short))]
fn entry_at(list: &[u8]) -> Option<(DolEntry, usize)>
    ensures { result ≡ dol_entry_at list.now }
{
    let tag = tlv::tag_at(list)?;
    let asked = *list.get(tag.size)?;
    Some((
        DolEntry {
            tag: tag.number,
            asked,
        },
        tag.size + 1,
    ))
}

// Writes an entry's bytes over as many.
fn write_entry(entry: DolEntry, store: &[u8], room: &mut [u8], tables: &DictionaryTables)
    requires { length room.old ≡ entry.asked }
    ensures { room.new ≡ dol_entry_bytes dictionary_rows store.now entry }
{
    match form_and_value(entry, store, tables) {
        Some((form, v)) => write_value(form, v, room),
        None => room.fill(0),
    }
}

// The form and the value of an entry's object; none for a template's tag, an unknown one, or an absent object.
fn form_and_value<'a>(
    entry: DolEntry,
    store: &'a [u8],
    tables: &DictionaryTables,
) -> Option<(u8, &'a [u8])>
    ensures { dol_entry_bytes dictionary_rows store.now entry ≡ dol_bytes_of_form_and_value entry.asked (option_map (λ x. (x.0, x.1.now)) result) }
{
    if tlv::is_template(entry.tag) {
        return None;
    }
    let row = tables.find_row(entry.tag).found?;
    let v = store::value_if_present(store, row)?;
    Some((tables.attributes_of(row).form, v))
}

// Writes a value as the bytes requested.
#[tactic(auto, using(crate::proofs::Fitting::fitted_cut, crate::proofs::Fitting::fitted_short, crate::proofs::Fitting::cut_length))]
fn write_value(form: u8, v: &[u8], room: &mut [u8])
    ensures { room.new ≡ fitted_to_length form (length room.old) v.now }
{
    let n = room.len();
    if n <= v.len() {
        room.copy_from_slice(truncated(form, n, v));
    } else {
        write_padded(form, v, room);
    }
}

// The part of a value that is left where fewer bytes are requested.
#[tactic(auto, using(crate::proofs::Fitting::cut_n, crate::proofs::Fitting::cut_other, std::proofs::lemmas::List::take_rest))]
fn truncated(form: u8, n: usize, v: &[u8]) -> &[u8]
    requires { n ≤ length v.now }
    ensures { result.now ≡ truncated_to_length form n v.now }
{
    if form == dictionary::FORM_N {
        &v[v.len() - n..]
    } else {
        &v[..n]
    }
}

// Writes a value and what it gains where more bytes are requested.
fn write_padded(form: u8, v: &[u8], room: &mut [u8])
    requires { length v.now ≤ length room.old }
    ensures { room.new ≡ padded_to_length form (length room.old) v.now }
{
    if form != dictionary::FORM_N {
        let (front, back) = room.split_at_mut(v.len());
        front.copy_from_slice(v);
        back.fill(padding_byte(form));
    } else {
        let (front, back) = room.split_at_mut(room.len() - v.len());
        front.fill(0);
        back.copy_from_slice(v);
    }
}

// The byte that a value grows by at its end.
fn padding_byte(form: u8) -> u8
    ensures { result ≡ padding_byte form }
{
    if form == dictionary::FORM_CN { 0xFF } else { 0 }
}
