// What every layer uses: the numbers of reasons and refusals, bytes widened to numbers, a byte of a list,
// and lists compared. The definitions that all specifications share are in specs/.
//
// Kept: `widen`, `widen32`, `is_between`, `bytes_equal` and `copy` say what std says; docs/CONTRACTS.md names them, and the
// library calls std itself.
#![tactic(auto)]

ghost use Rattle.std.specs.Prelude.{◌≡◌, ◌<◌, ◌≤◌, ◌++◌, length, take, drop, get_or};
ghost use Rattle.basics.specs.Number.{between};
ghost use Rattle.basics.specs.Alike.{bytes_equal};

// Why a call is refused.
// Kept: numbers, as `refuse_call` and `fail_session` of session_record take any number, and a session record may hold any
// reason: an enum would narrow both.
pub const REFUSED_BYTES: u8 = 20;

pub const REFUSED_PHASE: u8 = 21;

pub const REFUSED_BUFFER: u8 = 22;

pub const REFUSED_OBJECT: u8 = 23;

pub const REFUSED_ABSENT: u8 = 24;

pub const REFUSED_RANGES: u8 = 25;

// Why a session ends; none where a decision was reached.
pub const REASON_NONE: u8 = 0;

pub const REASON_STATUS: u8 = 1;

pub const REASON_MALFORMED: u8 = 2;

pub const REASON_NOT_ALLOWED: u8 = 3;

pub const REASON_MISSING: u8 = 4;

pub const REASON_AFL: u8 = 5;

pub const REASON_ABOVE_LIMIT: u8 = 6;

pub const REASON_DOL: u8 = 7;

pub const REASON_CRYPTOGRAM: u8 = 8;

pub const REASON_LINK: u8 = 9;

pub const REASON_STOPPED: u8 = 10;

pub const REASON_MODE: u8 = 11;

// A byte as a size.
pub fn widen(x: u8) -> usize
    ensures { (result ≡ x) × (result < 256) }
{
    usize::from(x)
}

// A byte as a 32-bit number.
pub fn widen32(x: u8) -> u32
    ensures { (result ≡ x) × (result < 256) }
{
    u32::from(x)
}

// The byte at place i, counted from 0; past the end it reads as 0.
pub fn byte_at(v: &[u8], i: usize) -> u8
    ensures { result ≡ get_or v.now i 0 }
{
    v.get(i).copied().unwrap_or(0)
}

// Whether x lies between two bytes, inclusive.
#[tactic(auto, using(std::proofs::lemmas::Bool::Decides::nat_tests), unfolding(crate::specs::Choice::both))]
pub fn is_between(low: u8, x: u8, high: u8) -> bool
    ensures { result ≡ between low x high }
{
    (low..=high).contains(&x)
}

// The same bytes.
#[tactic(auto, using(crate::proofs::Alike::alike_pointwise))]
pub fn bytes_equal(a: &[u8], b: &[u8]) -> bool
    ensures { result ≡ bytes_equal a.now b.now }
{
    a == b
}

// Copies some bytes over the front of others, which have room for them, and reports how many.
pub fn copy(src: &[u8], dst: &mut [u8]) -> usize
    requires { length src.now ≤ length dst.old }
    ensures { (result ≡ length src.now) × (dst.new ≡ take (length src.now) src.now ++ drop (length src.now) dst.old) }
{
    let n = src.len();
    dst[..n].copy_from_slice(src);
    n
}
