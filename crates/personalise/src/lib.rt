// A list of objects written as a card's records and AFL, by a layout that is checked first.
//
// `personalise` takes the list, the proposed entries of the AFL and the placements, and writes into two buffers of the
// caller, or names what is refused and writes nothing. `emv_personalise` is the same for a host, with the answer as one
// word; `personalise_c` exports it. The tests are in `objects`, `entries` and `contents`, in the order of the refusals;
// `writing` writes.
#![tactic(auto)]

mod contents;
mod entries;
mod objects;
mod placements;
mod writing;

ghost use Rattle.std.specs.Prelude.{◌≡◌};
ghost use Rattle.personalise.specs.Outcome.{card_plan, personalise_result, records_buffer_after, afl_buffer_after};
ghost use Rattle.personalise.specs.Word.{PersonaliseFieldsWithinBounds, is_written, personalise_word, is_personalise_word_of_written};
ghost use Rattle.personalise.specs.Read.{CardReadsBackAsObjectsIfWritten};

// Where an object goes: the number of its record and its own, both counted from 1.
#[derive(Clone, Copy)]
pub struct Placement {
    pub into: u8,
    pub object: u8,
}

// How many bytes of records and of the AFL are written.
#[derive(Clone, Copy)]
pub struct WrittenSizes {
    pub records: usize,
    pub afl: usize,
}

// What is refused. Entries and records are counted from 1; a placement that names record 0 makes 0 the number of a bad
// record.
#[derive(Clone, Copy, PartialEq, Eq)]
pub enum PersonaliseError {
    ShortRecords,
    ShortAfl,
    BadList,
    BadEntry(usize),
    BadRecord(usize),
}

// The least sizes of the caller's buffers.
const RECORDS_ROOM: usize = 32768;

const AFL_ROOM: usize = 248;

// Where a word has the kind of an answer and the AFL's length.
const KIND: u64 = 0x1000000000000;

const AFL: u64 = 0x100000000;

// Writes the list as a card's records and AFL, or names what is refused.
#[tactic(auto, using(crate::proofs::Stages::records_stay, crate::proofs::Stages::afl_stays))]
pub fn personalise(
    objects: &[u8],
    entries: &[u8],
    placements: &[u8],
    records: &mut [u8],
    afl: &mut [u8],
) -> Result<WrittenSizes, PersonaliseError>
    ensures said { result ≡ personalise_result
        (card_plan objects.now entries.now placements.now) records.old afl.old }
    ensures wrote { records.new ≡ records_buffer_after (is_written result)
        (card_plan objects.now entries.now placements.now) records.old }
    ensures located { afl.new ≡ afl_buffer_after (is_written result) entries.now afl.old }
    ensures small { PersonaliseFieldsWithinBounds result }
    ensures reads { CardReadsBackAsObjectsIfWritten
        (card_plan objects.now entries.now placements.now) result records.new afl.new }
{
    if records.len() < RECORDS_ROOM {
        return Err(PersonaliseError::ShortRecords);
    }
    if afl.len() < AFL_ROOM {
        return Err(PersonaliseError::ShortAfl);
    }
    if !objects::keeps(objects, placements) {
        return Err(PersonaliseError::BadList);
    }
    let checked = objects::CheckedObjects { bytes: objects };
    if let Some(i) = entries::bad_entry(entries) {
        return Err(PersonaliseError::BadEntry(i));
    }
    let count = entries::count_records(entries);
    if let Some(k) = contents::bad_record(checked, placements, count) {
        return Err(PersonaliseError::BadRecord(k));
    }
    let size = writing::put_records(checked, placements, count, records);
    afl[..entries.len()].copy_from_slice(entries);
    Ok(WrittenSizes {
        records: size,
        afl: entries.len(),
    })
}

// The same for a host in C, with the answer as one word.
pub fn emv_personalise(
    objects: &[u8],
    entries: &[u8],
    placements: &[u8],
    records: &mut [u8],
    afl: &mut [u8],
) -> u64
    ensures said { result ≡ personalise_word
        (personalise_result (card_plan objects.now entries.now placements.now) records.old afl.old) }
    ensures wrote { records.new ≡ records_buffer_after (is_personalise_word_of_written result)
        (card_plan objects.now entries.now placements.now) records.old }
    ensures located { afl.new ≡ afl_buffer_after (is_personalise_word_of_written result) entries.now afl.old }
{
    let answer = personalise(objects, entries, placements, records, afl);
    word(answer)
}

// An answer as one word.
fn word(answer: Result<WrittenSizes, PersonaliseError>) -> u64
    requires { PersonaliseFieldsWithinBounds answer }
    ensures { result ≡ personalise_word answer }
{
    match answer {
        Ok(z) => (z.afl as u64) * AFL + z.records as u64,
        Err(PersonaliseError::ShortRecords) => KIND,
        Err(PersonaliseError::ShortAfl) => 2 * KIND,
        Err(PersonaliseError::BadList) => 3 * KIND,
        Err(PersonaliseError::BadEntry(i)) => 4 * KIND + i as u64,
        Err(PersonaliseError::BadRecord(k)) => 5 * KIND + k as u64,
    }
}
