// The verdict on the caller's journal, fed in parts, and the conforming record in place of a mismatching one, for tests
// that compare them with another implementation.
//
// It is in an archive of its own, which no host links; `test_journal_c` exports it.
#![tactic(auto)]

ghost use Rattle.std.specs.Prelude.{◌≡◌, take};
ghost use Rattle.journal.specs.Verdict.{journal_verdict_of, expected_reply_at_first_mismatch};
ghost use Rattle.test_journal.specs.Word.{verdict_word, GivesBytesIfRoom};

use journal::JournalVerdict;

// The verdict on a journal: the record's number, and above 16 bits 0 for accepted, 1 for a mismatch, 2 for truncated.
// It is fed the first bytes, so many, and then parts of one size, 0 for all that is left.
pub fn emv_test_journal(bytes: &[u8], first: usize, part: usize) -> u32
    ensures { result ≡ verdict_word (journal_verdict_of bytes.now) }
{
    let (front, rest) = bytes.split_at(first.min(bytes.len()));
    let mut checker = journal::feed(journal::begin(), front);
    if part == 0 {
        return word(journal::finish(journal::feed(checker, rest)));
    }
    for piece in rest.chunks(part) {
        checker = journal::feed(checker, piece);
    }
    word(journal::finish(checker))
}

// The one conforming record in place of the first mismatching one: its size, and its bytes at the front of `out`. Size
// 0 where there is none, and where `out` has fewer bytes, which then stay.
pub fn emv_test_wanted(bytes: &[u8], out: &mut [u8]) -> usize
    ensures { GivesBytesIfRoom result out.new (expected_reply_at_first_mismatch bytes.now) out.old }
{
    let wanted = journal::expected_reply_record(journal::feed(journal::begin(), bytes));
    put(front(&wanted.bytes, wanted.size), out)
}

// The front of some bytes, all of them where there are no more.
fn front(s: &[u8], n: usize) -> &[u8]
    ensures { result.now ≡ take n s.now }
{
    s.get(..n).unwrap_or(s)
}

// Copies bytes into the front of others, where there is room, and reports how many.
fn put(s: &[u8], out: &mut [u8]) -> usize
    ensures { GivesBytesIfRoom result out.new s.now out.old }
{
    let n = s.len();
    if out.len() < n {
        return 0;
    }
    out[..n].copy_from_slice(s);
    n
}

// A verdict as one number.
fn word(verdict: JournalVerdict) -> u32
    ensures { result ≡ verdict_word verdict }
{
    match verdict {
        JournalVerdict::Accepted(n) => (n % 65536) as u32,
        JournalVerdict::Mismatch(n) => 65536 + (n % 65536) as u32,
        JournalVerdict::Truncated(n) => 131072 + (n % 65536) as u32,
    }
}
