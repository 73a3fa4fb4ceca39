// The AFL (94) that a card returns in its answer to GPO: whether it satisfies the rules and how many records it names
// (`check_afl`), and the k-th of them (`kth_record_of_accepted_afl`, k from 1). An AFL comes in as plain bytes of any length and contents.
#![tactic(auto)]

ghost use Rattle.std.specs.Prelude.{◌≡◌, ◌≤◌, length};
ghost use Rattle.basics.specs.Reason.{reason_afl_invalid, reason_unless};
ghost use Rattle.afl.specs.Entry.{first_afl_entry, entry_sfi, entry_record_count, valid_entry};
ghost use Rattle.afl.specs.Records.{afl_records as records_in, accepts_afl, afl_checked, afl_reason, record_at_index, kth_record_of_accepted_afl};

// A record of a card: the file that it is in and its number there.
#[derive(Clone, Copy)]
pub struct CardRecord {
    pub sfi: u8,
    pub number: u8,
}

// One entry of an AFL: byte 1 with the short file identifier in its top five bits, the first and the last record, and
// how many of them offline authentication covers.
#[derive(Clone, Copy)]
pub struct AflEntry {
    pub lead: u8,
    pub first: u8,
    pub last: u8,
    pub offline: u8,
}

impl AflEntry {
    // The entry at the front of the bytes.
    fn at_front(s: &[u8]) -> AflEntry
        requires { 4 ≤ length s.now }
        ensures { result ≡ first_afl_entry s.now }
    {
        AflEntry {
            lead: s[0],
            first: s[1],
            last: s[2],
            offline: s[3],
        }
    }

    // The file that it is about.
    fn sfi(self) -> u8
        ensures { result ≡ entry_sfi self }
    {
        self.lead / 8
    }

    // How many records it names.
    fn record_count(self) -> usize
        ensures { (result ≡ entry_record_count self) × (result ≤ 256) }
    {
        (usize::from(self.last) + 1).saturating_sub(usize::from(self.first))
    }

    // Whether it satisfies the rules.
    #[tactic(auto, using(std::proofs::lemmas::Bool::Decides::nat_tests), unfolding(crate::specs::Entry::valid_entry, basics::specs::Choice::both))]
    fn is_valid(self) -> bool
        ensures { result ≡ valid_entry self }
    {
        self.lead % 8 == 0
            && 1 <= self.sfi()
            && self.sfi() <= 30
            && 1 <= self.first
            && self.first <= self.last
            && usize::from(self.offline) <= self.record_count()
    }
}

// What an accepted AFL amounts to: how many records it names, 1 to 128.
#[derive(Clone, Copy)]
pub struct AflExtent {
    pub records: usize,
}

// Whether an AFL satisfies the rules, and how many records it names.
pub fn check_afl(afl: &[u8]) -> Option<AflExtent>
    ensures said { result ≡ afl_checked afl.now }
    ensures reason { afl_reason result ≡ reason_unless (accepts_afl afl.now) reason_afl_invalid }
{
    if afl.len() % 4 != 0 {
        return None;
    }
    let mut records = 0;
    for bytes in afl.chunks_exact(4) {
        let e = AflEntry::at_front(bytes);
        if !e.is_valid() {
            return None;
        }
        records += e.record_count();
        if 128 < records {
            return None;
        }
    }
    if records == 0 {
        return None;
    }
    Some(AflExtent { records })
}

// The k-th record of an accepted AFL, k from 1; nothing for any other k or AFL.
pub fn kth_record_of_accepted_afl(afl: &[u8], k: usize) -> Option<CardRecord>
    ensures { result ≡ kth_record_of_accepted_afl afl.now k }
{
    check_afl(afl)?;
    seek(afl, k.checked_sub(1)?)
}

// The record at a place among those that the bytes name, places counted from 0.
fn seek(afl: &[u8], place: usize) -> Option<CardRecord>
    ensures { result ≡ record_at_index place (records_in afl.now) }
{
    let mut left = place;
    for bytes in afl.chunks_exact(4) {
        let e = AflEntry::at_front(bytes);
        let n = e.record_count();
        if left < n {
            return Some(CardRecord {
                sfi: e.sfi(),
                number: e.first + left as u8,
            });
        }
        left -= n;
    }
    None
}
