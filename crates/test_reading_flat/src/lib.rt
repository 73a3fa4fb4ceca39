// One reading of a card's answer over the caller's store by the reader without recursion, as `test_reading` has it
// of the other.
#![tactic(auto)]

ghost use Rattle.test_reading.specs.Read.{ReturnsTestReading, test_read};

use dictionary::SIZE;

// Reads an answer as `test_reading::emv_test_read` does.
// Kept: the same few lines, and not a call that takes the reader: no reader is linked but the one that the archive tests.
pub fn emv_test_read_flat(store: &mut [u8], awaited: u32, sfi: u8, card: &[u8]) -> u32
    ensures { ReturnsTestReading result store.new (test_read awaited sfi store.old card.now) }
{
    let Some(a) = test_reading::awaited_by_number(store.len(), awaited, sfi) else {
        return test_reading::NOT_READ;
    };
    let Some(store) = store.as_mut_array::<SIZE>() else {
        return test_reading::NOT_READ;
    };
    test_reading::reading_word(reading::flat::read_answer(store, a, card))
}
