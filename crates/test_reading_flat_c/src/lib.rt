// The call of `test_reading_flat` for C, in `libtest_reading_flat.a`. It makes the call of its name and promises the
// same.
#![tactic(auto)]

ghost use Rattle.test_reading.specs.Read.{ReturnsTestReading, test_read};

#[unsafe(no_mangle)]
pub extern "C" fn emv_test_read_flat(store: &mut [u8], awaited: u32, sfi: u8, card: &[u8]) -> u32
    ensures { ReturnsTestReading result store.new (test_read awaited sfi store.old card.now) }
{
    test_reading_flat::emv_test_read_flat(store, awaited, sfi, card)
}
