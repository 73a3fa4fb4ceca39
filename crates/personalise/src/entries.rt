// The entries of the AFL as it is proposed: each against the rules and those before it.
ghost use Rattle.std.specs.Prelude.{◌≡◌, ◌≤◌, ◌%◌, length};
ghost use Rattle.std.specs.Iterator.{YieldsFirst, item_count};
ghost use Rattle.afl.specs.Entry.{first_afl_entry, entry_record_count};
ghost use Rattle.afl.specs.Records.{afl_entries as entries_in, afl_record_count};
ghost use Rattle.personalise.specs.Entries.{valid_entry_sfi1_to10_no_offline_auth, overlaps_none_before, entries_overlap as meets_both, valid_entry_after_within_count_limits, first_bad_entry};

use afl::AflEntry;

// The most entries and records, and the highest file number.
const MOST_ENTRIES: usize = 62;

const MOST_RECORDS: usize = 128;

const LAST_SFI: u8 = 10;

// The whole entries of some bytes, four bytes each, one after another.
#[derive(Drop)]
struct Entries<'a>(&'a [u8]);

impl<'a> Iterator for Entries<'a> {
    type Item = AflEntry;

    ghost next_gives = { YieldsFirst (λ s. entries_in s.0.now) };

    ghost remaining = { item_count (λ s. entries_in s.0.now) };

    fn next(&mut self) -> Option<AflEntry> {
        let (bytes, rest) = self.0.split_first_chunk()?;
        self.0 = rest;
        Some(entry_of(bytes))
    }
}

// The entry of four bytes.
// Kept: `AflEntry::at_front` is the same, but private to its crate.
fn entry_of(bytes: &[u8; 4]) -> AflEntry
    ensures { result ≡ first_afl_entry bytes.now }
{
    AflEntry {
        lead: bytes[0],
        first: bytes[1],
        last: bytes[2],
        offline: bytes[3],
    }
}

// The first bad entry, by its number from 1; the first where there is none.
pub(crate) fn bad_entry(entries: &[u8]) -> Option<usize>
    ensures { result ≡ first_bad_entry entries.now }
{
    for (i, e) in Entries(entries).enumerate() {
        if !keeps_behind(&entries[..4 * i], e) {
            return Some(i + 1);
        }
    }
    if entries.is_empty() || entries.len() % 4 != 0 {
        return Some(entries.len() / 4 + 1);
    }
    None
}

// How many records some entries name.
pub(crate) fn count_records(entries: &[u8]) -> usize
    requires { length entries.now ≤ 248 }
    ensures { (result ≡ afl_record_count entries.now) × (result ≤ 15872) }
{
    Entries(entries).map(count).sum()
}

// Whether an entry satisfies the rules after those before it.
#[tactic(auto, using(crate::proofs::Proposed::entries_count, std::proofs::lemmas::Bool::Decides::nat_tests), unfolding(crate::specs::Entries::valid_entry_after_within_count_limits, basics::specs::Choice::both))]
fn keeps_behind(before: &[u8], e: AflEntry) -> bool
    requires { length before.now % 4 ≡ 0 }
    ensures { result ≡ valid_entry_after_within_count_limits (entries_in before.now) e }
{
    before.len() / 4 < MOST_ENTRIES
        && keeps_alone(e)
        && is_apart(before, e)
        && count_records(before) + count(e) <= MOST_RECORDS
}

// Whether an entry names no record that one before it names.
fn is_apart(before: &[u8], e: AflEntry) -> bool
    ensures { result ≡ overlaps_none_before (entries_in before.now) e }
{
    Entries(before).all(|f| !meets(f, e))
}

// Whether an entry satisfies the rules by itself.
#[tactic(auto, using(std::proofs::lemmas::Bool::Decides::nat_tests), unfolding(crate::specs::Entries::valid_entry_sfi1_to10_no_offline_auth, basics::specs::Choice::both))]
fn keeps_alone(e: AflEntry) -> bool
    ensures { result ≡ valid_entry_sfi1_to10_no_offline_auth e }
{
    e.lead % 8 == 0
        && (1..=LAST_SFI).contains(&(e.lead / 8))
        && 1 <= e.first
        && e.first <= e.last
        && e.offline == 0
}

// Whether two entries name a record both.
#[tactic(auto, using(std::proofs::lemmas::Bool::Decides::nat_tests), unfolding(basics::specs::Choice::both))]
fn meets(e: AflEntry, f: AflEntry) -> bool
    ensures { result ≡ meets_both e f }
{
    e.lead / 8 == f.lead / 8 && e.first <= f.last && f.first <= e.last
}

// How many records an entry names.
// Kept: `AflEntry::record_count` is the same, but private to its crate.
fn count(e: AflEntry) -> usize
    ensures { (result ≡ entry_record_count e) × (result ≤ 256) }
{
    (usize::from(e.last) + 1).saturating_sub(usize::from(e.first))
}
