// One reading of a card's answer over the caller's store, for tests that compare it with another implementation and
// with the reader without recursion, which `test_reading_flat` has.
//
// The sessions' calls do not hand out how many objects a reading counted, so these do. Each reader is in an
// archive of its own, which no host links: so it is compiled as in the library that has it alone. `test_reading_c` and
// `test_reading_flat_c` export them.
#![tactic(auto)]

ghost use Rattle.std.specs.Prelude.{◌≡◌, ◌+◌, ◌*◌, ◌%◌};
ghost use Rattle.reading.specs.Answer.{verdict_number};
ghost use Rattle.test_reading.specs.Read.{ReturnsTestReading, test_read, awaited_by_number_if_store_sized, awaited_by_number, reason_weight_in_word};

use dictionary::SIZE;
use reading::{Awaited, Reading, Sfi};

// What is given where no answer was read.
pub const NOT_READ: u32 = 0xFFFFFFFF;

// The reason is above the 16 bits of the count.
const REASON: u32 = 0x10000;

// Reads an answer, status bytes included, to GPO (0), to a record of this file (1), to the cryptogram (2) or to the
// checksum (3): the reason's number times 65,536 and the object count. A store of another size and another number
// are not read.
pub fn emv_test_read(store: &mut [u8], awaited: u32, sfi: u8, card: &[u8]) -> u32
    ensures { ReturnsTestReading result store.new (test_read awaited sfi store.old card.now) }
{
    let Some(a) = awaited_by_number(store.len(), awaited, sfi) else {
        return NOT_READ;
    };
    let Some(store) = store.as_mut_array::<SIZE>() else {
        return NOT_READ;
    };
    reading_word(reading::read_answer(store, a, card))
}

// The answer of a number, for a store of its size.
#[tactic(auto, using(basics::proofs::Laws::if_yes, basics::proofs::Laws::if_no), unfolding(crate::specs::Read::awaited_by_number_if_store_sized))]
pub fn awaited_by_number(size: usize, awaited: u32, sfi: u8) -> Option<Awaited>
    ensures { result ≡ awaited_by_number_if_store_sized size awaited sfi }
{
    if size == SIZE {
        wanted_of(awaited, sfi)
    } else {
        None
    }
}

// The answer of a number.
#[tactic(auto, using(basics::proofs::Laws::if_yes, basics::proofs::Laws::if_no), unfolding(crate::specs::Read::awaited_by_number))]
fn wanted_of(awaited: u32, sfi: u8) -> Option<Awaited>
    ensures { result ≡ awaited_by_number awaited sfi }
{
    match awaited {
        0 => Some(Awaited::Gpo),
        1 => Some(Awaited::Record(Sfi { number: sfi })),
        2 => Some(Awaited::Cryptogram),
        3 => Some(Awaited::Checksum),
        _ => None,
    }
}

// A reading as one number; of a count the lower 16 bits.
pub fn reading_word(reading: Reading) -> u32
    ensures { result ≡ verdict_number reading.verdict * reason_weight_in_word + reading.objects % reason_weight_in_word }
{
    REASON * u32::from(reading::verdict_number(reading.verdict))
        + (reading.objects % 0x10000) as u32
}
