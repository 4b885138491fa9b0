// Units of 1/1,024 pixel: document 01, section "Units"; and the grid that they measure.
#![tactic(auto)]

mod grid;
mod margins;
mod refusal;

ghost use Rattle.std.specs.Prelude.{◌≡◌, ◌+◌, ◌*◌, ◌/◌, ◌^◌, ◌<◌, unsigned_abs, MatchOption, SomeIff};
ghost use Rattle.units.specs.Outcome.{given, refused};
ghost use Rattle.units.specs.Units.{length_outcome, in_i64, signed_ratio, less_of, at_least_one, scale_fixed, unscaled_capacity, inches_to_fixed};

pub use grid::{LARGEST_SIZE, MAX_WORKSHEET_COLUMN, MAX_WORKSHEET_ROW};
pub use margins::Margins;
pub use refusal::Refusal;
use std::fmt;
use std::fmt::Write;

// A length in units.
#[derive(Clone, Copy, Debug, PartialEq, Eq, PartialOrd, Ord, Default)]
pub struct Fixed(i64);

// A rectangle in units.
#[derive(Clone, Copy, Debug, PartialEq, Eq)]
pub struct Rect {
    pub x: Fixed,
    pub y: Fixed,
    pub width: Fixed,
    pub height: Fixed,
}

impl Fixed {
    // No length.
    pub const ZERO: Self = Self(0);

    // A length of so many units, and its units.
    pub fn from_raw(raw: i64) -> Self
        ensures { result.0 ≡ raw }
    {
        Self(raw)
    }

    pub fn raw(self) -> i64
        ensures { result ≡ self.0 }
    {
        self.0
    }

    // The length without its sign.
    pub fn magnitude(self) -> u64
        ensures { result ≡ unsigned_abs self.0 }
    {
        self.0.unsigned_abs()
    }

    // What is left of it after another, where that is an i64.
    pub fn less(self, other: Fixed) -> Result<Fixed, Refusal>
        ensures { length_outcome result ≡ less_of (given self.0) (given other.0) }
    {
        within(self.0.checked_sub(other.0))
    }

    // What is left of it after two others, one after the other.
    pub fn less_both(self, first: Fixed, second: Fixed) -> Result<Fixed, Refusal>
        ensures { length_outcome result ≡ less_of (less_of (given self.0) (given first.0)) (given second.0) }
    {
        self.less(first)?.less(second)
    }
}

// Its units, as a number.
impl fmt::Display for Fixed {
    fn fmt<W: fmt::Write>(&self, f: &mut fmt::Formatter<W>) -> fmt::Result {
        write!(f, "{}", self.0)
    }
}

// What is left of a length after another, where both are there and the difference is an i64.
pub fn less(a: Result<Fixed, Refusal>, b: Result<Fixed, Refusal>) -> Result<Fixed, Refusal>
    ensures { length_outcome result ≡ less_of (length_outcome a) (length_outcome b) }
{
    a?.less(b?)
}

// The length of so many units, where they are an i64.
fn within(units: Option<i64>) -> Result<Fixed, Refusal>
    ensures { MatchOption units (length_outcome result ≡ refused 10) (λ n. length_outcome result ≡ given n) }
{
    let units = units.ok_or(Refusal::CoordinateOverflow)?;
    Ok(Fixed(units))
}

// A number below this, times a u16, and a u16 more, is below 2^63.
const SMALL: u64 = 0x8000_0000_0000;

// (m × k + h) / d, where it is a u64: where m is not small, its quotient and its remainder apart. At k of d, as at 1,000 permille, a small m is
// not divided.
fn ratio(m: u64, k: u16, h: u16, d: u16) -> Option<u64>
    requires { 0 < d }
    ensures { SomeIff result ((m * k + h) / d < 2 ^ 64) ((m * k + h) / d) }
{
    let k = u64::from(k);
    let d = u64::from(d);
    let h = u64::from(h);
    if m < SMALL {
        if k == d && h < d {
            return Some(m);
        }
        return Some((m * k + h) / d);
    }
    (m / d).checked_mul(k)?.checked_add((m % d * k + h) / d)
}

// (|z| × k + h) / d with the sign of z, where it is an i64
fn signed_ratio(z: i64, k: u16, h: u16, d: u16) -> Result<Fixed, Refusal>
    requires { 0 < d }
    ensures { length_outcome result ≡ in_i64 (signed_ratio z k h d) }
{
    let n = ratio(z.unsigned_abs(), k, h, d).ok_or(Refusal::CoordinateOverflow)?;
    if z >= 0 {
        within(0i64.checked_add_unsigned(n))
    } else {
        within(0i64.checked_sub_unsigned(n))
    }
}

// Size × permille / 1,000, halves away from zero.
pub fn scale_fixed(size: Fixed, permille: u16) -> Result<Fixed, Refusal>
    ensures { length_outcome result ≡ scale_fixed size.0 permille }
{
    signed_ratio(size.0, permille, 500, 1000)
}

// The length, never under 1, and 1 where it overflowed.
fn at_least_one(length: Result<Fixed, Refusal>) -> Fixed
    ensures { result.0 ≡ at_least_one (length_outcome length) }
{
    length.unwrap_or(Fixed(1)).max(Fixed(1))
}

// Side × 1,000 / permille, less titles, less headings, and never under 1.
pub fn unscaled_capacity(
    side: Fixed,
    permille: u16,
    titles: Fixed,
    headings: Fixed,
) -> Result<Fixed, Refusal>
    ensures { length_outcome result ≡ unscaled_capacity side.0 permille titles.0 headings.0 }
{
    if permille == 0 {
        return Err(Refusal::CoordinateOverflow);
    }
    let whole = signed_ratio(side.0, 1000, 0, permille)?;
    Ok(at_least_one(whole.less_both(titles, headings)))
}

// Inches × 96 × 1,024, to the nearest unit.
pub fn inches_to_fixed(inches: f64) -> Result<Fixed, Refusal>
    ensures { length_outcome result ≡ inches_to_fixed inches }
{
    let raw = inches * 96.0 * 1024.0;
    if raw > -0.5 {
        if raw < 9223372036854775808.0 {
            let halves = std::num::truncating_f64_to_u64(raw * 2.0);
            let n = halves / 2 + halves % 2;
            return Ok(Fixed(i64::try_from(n).unwrap_or(i64::MAX)));
        }
        if raw == 9223372036854775808.0 {
            return Ok(Fixed(i64::MAX));
        }
    }
    Err(Refusal::CoordinateOverflow)
}
