// The calls of `test_journal` for C, in `libtest_journal.a`. Each makes the call of its name and promises the same.
#![tactic(auto)]

ghost use Rattle.std.specs.Prelude.{◌≡◌};
ghost use Rattle.journal.specs.Verdict.{journal_verdict_of, expected_reply_at_first_mismatch};
ghost use Rattle.test_journal.specs.Word.{verdict_word, GivesBytesIfRoom};

#[unsafe(no_mangle)]
pub extern "C" fn emv_test_journal(bytes: &[u8], first: usize, part: usize) -> u32
    ensures { result ≡ verdict_word (journal_verdict_of bytes.now) }
{
    test_journal::emv_test_journal(bytes, first, part)
}

#[unsafe(no_mangle)]
pub extern "C" fn emv_test_wanted(bytes: &[u8], out: &mut [u8]) -> usize
    ensures { GivesBytesIfRoom result out.new (expected_reply_at_first_mismatch bytes.now) out.old }
{
    test_journal::emv_test_wanted(bytes, out)
}
