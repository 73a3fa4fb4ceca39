// The start bytes of a session into a store, or the refusal that they meet.
//
// `load` first finds whether the bytes are a run of whole primitive objects, then sets the objects one after the
// other, then sees that all that a start must bring is present. The store is empty before the call, and a refusal
// clears it again.
#![tactic(auto)]

ghost use Rattle.std.specs.Prelude.{◌≡◌, ◌<◌, true, length, replicate};
ghost use Rattle.dictionary.specs.Rows.{row_count, store_size};
ghost use Rattle.tlv.specs.Primitives.{tlv_object, primitive_objects, are_primitive_objects_parsed};
ghost use Rattle.start_data.specs.StartData.{is_listed_if_terminal_type, start_may_set_object_in_row, set_start_object, set_parsed_start_objects, loaded_after_setting, load_start_bytes as load_of, LoadResultAndStoreMatchLoaded};
ghost use Rattle.start_data.specs.Inner.{ReportsSetOrRefused, ReportsLoaded};

use dictionary::{DictionaryTables, SIZE};
use session_record::Refusal;
use tlv::PrimitiveObjects;

// The most start bytes.
const MOST: usize = 1024;

// The refusal of an object that may not be set.
const BAD_OBJECT: Refusal = Refusal {
    number: basics::REFUSED_OBJECT,
};

// The start bytes into an empty store.
pub fn load(store: &mut [u8; SIZE], terminal: &[u8]) -> Result<(), Refusal>
    requires { store.old ≡ replicate store_size 0 }
    ensures { LoadResultAndStoreMatchLoaded result store.new store.old (load_of store.old terminal.now) }
{
    if MOST < terminal.len() || !tlv::is_primitive_list(terminal) {
        return Err(Refusal {
            number: basics::REFUSED_BYTES,
        });
    }
    let result = set_all(terminal, store);
    if result.is_err() {
        clear_refused(store);
    }
    result
}

// Leaves nothing of a refused start. It has no proof file: an edit that leaves the clearing out is then refused by what
// is promised here, and not by the shape of a proof.
fn clear_refused(store: &mut [u8; SIZE])
    ensures empty { store.new ≡ replicate (length store.old) 0 }
{
    store::clear(store);
}

// Sets the objects of a run, and sees that all that a start must bring is present.
fn set_all(terminal: &[u8], store: &mut [u8; SIZE]) -> Result<(), Refusal>
    requires { are_primitive_objects_parsed (primitive_objects terminal.now) ≡ true }
    ensures { ReportsLoaded result store.new (loaded_after_setting (set_parsed_start_objects store.old (primitive_objects terminal.now))) }
{
    set_objects(terminal, store, &DictionaryTables::new())?;
    if !session_record::all_required_at_start_present(store) {
        return Err(Refusal {
            number: basics::REFUSED_ABSENT,
        });
    }
    Ok(())
}

// Sets the objects of a run one after the other, or refuses the first that may not be set.
fn set_objects(
    terminal: &[u8],
    store: &mut [u8; SIZE],
    tables: &DictionaryTables,
) -> Result<(), Refusal>
    requires { are_primitive_objects_parsed (primitive_objects terminal.now) ≡ true }
    ensures { ReportsSetOrRefused result store.new (set_parsed_start_objects store.old (primitive_objects terminal.now)) }
{
    for object in PrimitiveObjects(terminal) {
        set_object(object.tag, object.value, store, tables)?;
    }
    Ok(())
}

// One object: skipped if unknown, set if it may be, else refused.
fn set_object(
    tag: u32,
    v: &[u8],
    store: &mut [u8; SIZE],
    tables: &DictionaryTables,
) -> Result<(), Refusal>
    ensures { ReportsSetOrRefused result store.new (set_start_object store.old (tlv_object tag v.now)) }
{
    let Some(row) = tables.find_row(tag).found else {
        return Ok(());
    };
    if !is_settable(store, row, tag, v, tables) {
        return Err(BAD_OBJECT);
    }
    store::put(store, row, v);
    Ok(())
}

// Whether a start may set a row's object, with this value.
fn is_settable(bytes: &[u8], row: usize, tag: u32, v: &[u8], tables: &DictionaryTables) -> bool
    requires { row < row_count }
    ensures { result ≡ start_may_set_object_in_row bytes.now row (tlv_object tag v.now) }
{
    let attributes = tables.attributes_of(row);
    if !attributes.may_be_set_by(dictionary::START) {
        return false;
    }
    if !dictionary::length_and_digits_fit_row(attributes, v) {
        return false;
    }
    if store::is_present(bytes, row) {
        return false;
    }
    is_type_listed(tag, v)
}

// Whether a terminal type is listed; nothing is required of other objects.
fn is_type_listed(tag: u32, v: &[u8]) -> bool
    ensures { result ≡ is_listed_if_terminal_type tag v.now }
{
    tag != 0x9F35 || dictionary::is_listed_terminal_type(basics::byte_at(v, 0))
}
