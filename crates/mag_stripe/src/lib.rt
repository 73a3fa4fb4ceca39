// Track 2 of a magnetic stripe card: whether its discretionary data can take the digits of a transaction
// (`can_take_digits`), and the digits put in (`put_digits`). A track comes in as plain bytes of any length and
// contents, the bitmaps and values as numbers, which `bitmaps_of` and `digit_values_of` read from the bytes of the
// data objects.
#![tactic(auto, using(crate::proofs::Nibbles::lengths))]

ghost use Rattle.std.specs.Prelude.{◌≡◌, true, ◌∷◌, ◌+◌, ◌≤◌, ◌<◌, length, take, drop, set, get_or};
ghost use Rattle.basics.specs.Number.{nibbles};
ghost use Rattle.basics.specs.Choice.{every, ◌≤?◌};
ghost use Rattle.mag_stripe.specs.Track.{nibbles_before, discretionary_data_of};
ghost use Rattle.mag_stripe.specs.Bitmap.{two_byte_number, bitmaps_of, bitmap_places_from_one, set_bit_count, un_digit_count, bitmap_within, track_can_take_digits};
ghost use Rattle.mag_stripe.specs.Digits.{digit_values_of, lowest_digits_at_places, placed_digits_written_before_end, track_nibbles_with_digits, track_with_digits_if_possible};
ghost use Rattle.mag_stripe.specs.OtherDigits.{OtherDigitsKept, none_of_lowest_nibbles_is_f};

// The card's bitmaps of track 2, PCVC3 (9F65) and PUNATC (9F66), and how many places of the second are the
// counter's, NATC (9F67).
#[derive(Clone, Copy)]
pub struct Bitmaps {
    pub pcvc3: u16,
    pub punatc: u16,
    pub natc: u8,
}

// CVC3 (9F61), the Unpredictable Number UN (9F6A), whose digits are its nibbles, and the Application Transaction
// Counter ATC (9F36).
#[derive(Clone, Copy)]
pub struct DigitValues {
    pub cvc3: u16,
    pub un: u32,
    pub atc: u16,
}

// The discretionary data of a track: where they end, counted in nibbles, and how many digits they have.
#[derive(Clone, Copy)]
pub struct DiscretionaryData {
    pub end: usize,
    pub count: usize,
}

// The lowest place that a bitmap sets, counted from the right, from 1, and the bitmap without it.
#[derive(Drop)]
struct NextBitmapPlace {
    place: usize,
    rest: u16,
}

// The bitmaps by the bytes of 9F65, 9F66 and 9F67. An absent byte counts as 0.
pub fn bitmaps_of(pcvc3: &[u8], punatc: &[u8], natc: &[u8]) -> Bitmaps
    ensures { result ≡ bitmaps_of pcvc3.now punatc.now natc.now }
{
    Bitmaps {
        pcvc3: word_of(pcvc3),
        punatc: word_of(punatc),
        natc: basics::byte_at(natc, 0),
    }
}

// The values by the bytes of 9F61, 9F6A and 9F36. An absent byte counts as 0.
pub fn digit_values_of(cvc3: &[u8], un: &[u8], atc: &[u8]) -> DigitValues
    ensures { result ≡ digit_values_of cvc3.now un.now atc.now }
{
    DigitValues {
        cvc3: word_of(cvc3),
        un: u32::from_be_bytes([
            basics::byte_at(un, 0),
            basics::byte_at(un, 1),
            basics::byte_at(un, 2),
            basics::byte_at(un, 3),
        ]),
        atc: word_of(atc),
    }
}

// The first two bytes as a number, high byte first.
fn word_of(s: &[u8]) -> u16
    ensures { result ≡ two_byte_number s.now }
{
    u16::from_be_bytes([basics::byte_at(s, 0), basics::byte_at(s, 1)])
}

// Whether a track can take the digits: it has discretionary digits, no bitmap sets a place past them, and nUN
// is 0 to 8.
#[tactic(auto, using(crate::proofs::Sound::tests), unfolding(crate::specs::Bitmap::track_can_take_digits))]
pub fn can_take_digits(track: &[u8], bitmaps: Bitmaps) -> bool
    ensures { result ≡ track_can_take_digits track.now bitmaps }
{
    let count = discretionary_of(track).count;
    let bits = bit_count(bitmaps.punatc);
    let counted = usize::from(bitmaps.natc);
    count >= 1
        && is_within(bitmaps.pcvc3, count)
        && is_within(bitmaps.punatc, count)
        && counted <= bits
        && bits - counted <= 8
}

// Puts the digits of CVC3, UN and ATC into a track, and nUN as its last digit. A track that cannot take them stays.
pub fn put_digits(track: &mut [u8], bitmaps: Bitmaps, values: DigitValues)
    ensures digits { track.new ≡ track_with_digits_if_possible track.old bitmaps values }
    ensures kept { OtherDigitsKept bitmaps track.old track.new }
    ensures twice { none_of_lowest_nibbles_is_f (un_digit_count bitmaps) values.un ≡ true → track_with_digits_if_possible track.new bitmaps values ≡ track.new }
{
    if can_take_digits(track, bitmaps) {
        write_digits(track, bitmaps, values);
    }
}

// The digits put into a track that can take them.
fn write_digits(track: &mut [u8], bitmaps: Bitmaps, values: DigitValues)
    requires { track_can_take_digits track.old bitmaps ≡ true }
    ensures { nibbles track.new ≡ track_nibbles_with_digits track.old bitmaps values }
{
    let end = discretionary_of(track).end;
    let bits = bit_count(bitmaps.pcvc3);
    let counted = usize::from(bitmaps.natc);
    let n = bit_count(bitmaps.punatc) - counted;
    copy(track, end, bitmaps.pcvc3, bits, u32::from(values.cvc3), 10);
    let rest = copy(track, end, bitmaps.punatc, n, values.un, 16);
    copy(track, end, rest, counted, u32::from(values.atc), 10);
    put_nibble(track, end - 1, n as u8);
}

// The discretionary data of a track.
#[tactic(auto, using(crate::proofs::Nibbles::lengths, crate::proofs::Sound::before_le), unfolding(crate::specs::Track::discretionary_data_in_nibbles))]
fn discretionary_of(track: &[u8]) -> DiscretionaryData
    ensures { result ≡ discretionary_data_of track.now }
{
    let from = first(track, 0, 0xD) + 1;
    let end = first(track, from, 0xF);
    DiscretionaryData {
        end,
        count: (end - from).saturating_sub(7),
    }
}

// Where the first nibble x from a place on is; where there is none, the track's end, or the place past it.
fn first(track: &[u8], from: usize, x: u8) -> usize
    ensures { result ≡ from + nibbles_before x (drop from (nibbles track.now)) }
{
    let end = track.len() * 2;
    (from..end)
        .find(|i| nibble(track, *i) == x)
        .unwrap_or(from.max(end))
}

// The nibble at a place, counted from the left, from 0; past the end it reads as 0.
#[tactic(auto, using(crate::proofs::Nibbles::lengths, crate::proofs::Nibbles::high_nibble, crate::proofs::Nibbles::low_nibble))]
fn nibble(track: &[u8], i: usize) -> u8
    ensures { result ≡ get_or (nibbles track.now) i 0 }
{
    let b = basics::byte_at(track, i / 2);
    if i % 2 == 0 { b / 16 } else { b % 16 }
}

// Writes a nibble at a place, counted from the left, from 0.
#[tactic(auto, using(crate::proofs::Nibbles::lengths, crate::proofs::Nibbles::high_set, crate::proofs::Nibbles::low_set))]
fn put_nibble(track: &mut [u8], i: usize, x: u8)
    requires { (i < length (nibbles track.old)) × (x < 16) }
    ensures { nibbles track.new ≡ set (nibbles track.old) i x }
{
    let b = &mut track[i / 2];
    *b = if i % 2 == 0 {
        x * 16 + *b % 16
    } else {
        *b / 16 * 16 + x
    };
}

// The number of non-zero bits of a bitmap.
#[tactic(auto, using(crate::proofs::Places::bits_counted))]
fn bit_count(bitmap: u16) -> usize
    ensures { (result ≡ set_bit_count bitmap) × (result ≤ 16) }
{
    bitmap.count_ones() as usize
}

// Whether a bitmap sets no place past the last of so many digits.
#[tactic(auto, using(crate::proofs::Places::within_by_highest))]
fn is_within(bitmap: u16, count: usize) -> bool
    ensures { result ≡ bitmap_within count bitmap }
{
    (16 - bitmap.leading_zeros()) as usize <= count
}

// Copies the lowest digits of a number in a base to as many places of a bitmap, the lowest ones, and returns the
// bitmap of the others. The discretionary data end at the nibble `end`.
fn copy(track: &mut [u8], end: usize, bitmap: u16, count: usize, number: u32, base: u32) -> u16
    requires count_bound { count ≤ set_bit_count bitmap }
    requires end_in_bounds { (end ≤ length (nibbles track.old)) × (every (λ p. p ≤? end) (bitmap_places_from_one bitmap) ≡ true) }
    requires le_base { (1 ≤ base) × (base ≤ 16) }
    ensures result_value { bitmap_places_from_one result ≡ drop count (bitmap_places_from_one bitmap) }
    ensures track_after { nibbles track.new ≡ placed_digits_written_before_end end (lowest_digits_at_places base number (take count (bitmap_places_from_one bitmap))) (nibbles track.old) }
{
    let mut rest = bitmap;
    let mut left = number;
    // Kept: tried as `for place in places.by_ref().take(count)` over an iterator of a bitmap's places. It did not close:
    // where its count is used up, std's `take` does not say that its source stays, and the bitmap of the others is read.
    for _copied in 0..count {
        let next = next_place(rest);
        put_nibble(track, end - next.place, (left % base) as u8);
        left /= base;
        rest = next.rest;
    }
    rest
}

// The lowest place that a bitmap sets, and the bitmap of the others.
fn next_place(bitmap: u16) -> NextBitmapPlace
    requires { 1 ≤ set_bit_count bitmap }
    ensures { (bitmap_places_from_one bitmap ≡ result.place ∷ bitmap_places_from_one result.rest) × (1 ≤ result.place) }
{
    let zeros = bitmap.trailing_zeros();
    let lowest = 1u16 << zeros;
    NextBitmapPlace {
        place: zeros as usize + 1,
        rest: bitmap - lowest,
    }
}
