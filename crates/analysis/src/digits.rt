// Dates and amounts, two digits to a byte, compared as decimal numbers.
#![tactic(auto, using(crate::proofs::Tests::choices), unfolding(crate::specs::Digits::four_digit_year, crate::specs::Digits::date_as_number, crate::specs::Digits::first_date_is_later, crate::specs::Digits::amount_of, crate::specs::Digits::first_amount_is_above, crate::specs::Inner::bcd_byte))]

ghost use Rattle.std.specs.Prelude.{◌≡◌, ◌≤◌};
ghost use Rattle.analysis.specs.Digits.{four_digit_year, date_as_number, first_date_is_later, amount_of, first_amount_is_above};
ghost use Rattle.analysis.specs.Inner.{bcd_byte, bcd_three_bytes};

// Date a, YYMMDD, is later than date b, by years from 1950 to 2049. Of each the first three bytes count, and bytes past
// the end are 0.
pub fn first_date_is_later(a: &[u8], b: &[u8]) -> bool
    ensures { result ≡ first_date_is_later a.now b.now }
{
    date_of(b) < date_of(a)
}

// Amount a is above amount b; an equal one is not. Of each the first six bytes count, and bytes past the end are 0.
pub fn first_amount_is_above(a: &[u8], b: &[u8]) -> bool
    ensures { result ≡ first_amount_is_above a.now b.now }
{
    amount_of(b) < amount_of(a)
}

// The eight digits of a date, YYYYMMDD.
#[tactic(auto, using(crate::proofs::Decimal::year_digits, crate::proofs::Decimal::month_and_day), unfolding(crate::specs::Digits::date_as_number))]
fn date_of(s: &[u8]) -> u64
    ensures { result ≡ date_as_number s.now }
{
    let year = year_of(two_digits(basics::byte_at(s, 0)));
    let month = two_digits(basics::byte_at(s, 1));
    let day = two_digits(basics::byte_at(s, 2));
    year * 10000 + month * 100 + day
}

// The year of two digits: 00 to 49 are of this century.
fn year_of(year: u64) -> u64
    requires { year ≤ 165 }
    ensures { (result ≡ four_digit_year year) × (result ≤ 2065) }
{
    if year < 50 { 2000 + year } else { 1900 + year }
}

// The twelve digits of an amount.
#[tactic(auto, using(crate::proofs::Decimal::decimal_six, crate::proofs::Value::front_six), unfolding(crate::specs::Digits::amount_of))]
pub fn amount_of(s: &[u8]) -> u64
    ensures { result ≡ amount_of s.now }
{
    six_digits(s, 0) * 1000000 + six_digits(s, 3)
}

// The six digits in the three bytes from a place on.
#[tactic(auto, using(crate::proofs::Decimal::decimal_three))]
fn six_digits(s: &[u8], i: usize) -> u64
    requires { i ≤ 3 }
    ensures { (result ≡ bcd_three_bytes s.now i) × (result ≤ 1666665) }
{
    two_digits(basics::byte_at(s, i)) * 10000
        + two_digits(basics::byte_at(s, i + 1)) * 100
        + two_digits(basics::byte_at(s, i + 2))
}

// The two digits of a byte.
fn two_digits(b: u8) -> u64
    ensures { (result ≡ bcd_byte b) × (result ≤ 165) }
{
    u64::from(b / 16) * 10 + u64::from(b % 16)
}
