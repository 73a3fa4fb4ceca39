// The call of `personalise` for C, in `libpersonalise.a`. It makes the call of its name and promises the same.
#![tactic(auto)]

ghost use Rattle.std.specs.Prelude.{◌≡◌};
ghost use Rattle.personalise.specs.Outcome.{card_plan, personalise_result, records_buffer_after, afl_buffer_after};
ghost use Rattle.personalise.specs.Word.{personalise_word, is_personalise_word_of_written};

#[unsafe(no_mangle)]
pub extern "C" fn emv_personalise(
    objects: &[u8],
    entries: &[u8],
    placements: &[u8],
    records: &mut [u8],
    afl: &mut [u8],
) -> u64
    ensures said { result ≡ personalise_word
        (personalise_result (card_plan objects.now entries.now placements.now) records.old afl.old) }
    ensures wrote { records.new ≡ records_buffer_after (is_personalise_word_of_written result)
        (card_plan objects.now entries.now placements.now) records.old }
    ensures located { afl.new ≡ afl_buffer_after (is_personalise_word_of_written result) entries.now afl.old }
{
    personalise::emv_personalise(objects, entries, placements, records, afl)
}
