// The TVR: the floor limit's byte, and the five bytes put together.
ghost use Rattle.std.specs.Prelude.{◌≡◌};
ghost use Rattle.analysis.specs.Tvr.{tvr_byte4_amount_above_floor_limit, tvr_from_bytes2_and4};

use crate::{byte, digits};

// Byte 4: the amount above the floor limit b8.
pub fn tvr_byte4(amount: &[u8], limit: &[u8]) -> u8
    ensures { result ≡ tvr_byte4_amount_above_floor_limit amount.now limit.now }
{
    byte::weight_if_set(digits::first_amount_is_above(amount, limit), 0x80)
}

// The five bytes from their parts. Byte 1 always has b8 alone: no data were authenticated offline.
pub fn tvr_from_bytes2_and4(restrictions: u8, floor: u8) -> [u8; 5]
    ensures { result ≡ tvr_from_bytes2_and4 restrictions floor }
{
    [0x80, restrictions, 0, floor, 0]
}
