// The first five bytes of a value, four bytes as a number, a bit of a byte, and what a bit adds to its byte.
ghost use Rattle.std.specs.Prelude.{◌≡◌, ◌<◌, ◌≤◌, drop};
ghost use Rattle.basics.specs.Choice.{if};
ghost use Rattle.basics.specs.Number.{big_endian_number};
ghost use Rattle.analysis.specs.Bits.{byte_has_bit, value_has_bit as bit_of};
ghost use Rattle.analysis.specs.Value.{first_bytes_zero_padded};

// A value as five bytes: its first five, with zeros past the end.
pub fn first_five_bytes(s: &[u8]) -> [u8; 5]
    ensures { result ≡ first_bytes_zero_padded 5 s.now }
{
    std::array::from_fn(|i| basics::byte_at(s, i))
}

// The four bytes from place i on, counted from 0, as one number, high byte first; bytes past the end are 0.
#[tactic(auto, using(crate::proofs::Value::number_four))]
pub fn four_byte_number_at(s: &[u8], i: usize) -> u64
    requires { i ≤ 4 }
    ensures { result ≡ big_endian_number (first_bytes_zero_padded 4 (drop i s.now)) }
{
    u64::from(u32::from_be_bytes([
        basics::byte_at(s, i),
        basics::byte_at(s, i + 1),
        basics::byte_at(s, i + 2),
        basics::byte_at(s, i + 3),
    ]))
}

// Bit b of byte n of a value, the first byte 1.
// Kept: `byte_at` reads 0 past the end, where `s.get(n - 1).is_some_and(..)` says the same in more words.
pub fn value_has_bit(s: &[u8], n: usize, b: usize) -> bool
    requires { (0 < n) × ((0 < b) × (b ≤ 8)) }
    ensures { result ≡ bit_of s.now n b }
{
    byte_has_bit(basics::byte_at(s, n - 1), b)
}

// Bit b of a byte, b8 the highest and b1 the lowest.
pub fn byte_has_bit(x: u8, b: usize) -> bool
    requires { (0 < b) × (b ≤ 8) }
    ensures { result ≡ byte_has_bit x b }
{
    (x >> (b - 1)) % 2 == 1
}

// What a bit adds to its byte where it is set.
pub fn weight_if_set(set: bool, weight: u8) -> u8
    ensures { (result ≡ if set weight 0) × (result ≤ weight) }
{
    if set { weight } else { 0 }
}
