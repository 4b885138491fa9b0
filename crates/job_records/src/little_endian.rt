// Little-endian numbers in bytes, each read where all its bytes are there: by a function of each type, since no trait has `from_le_bytes`.
ghost use Rattle.std.specs.Prelude.{◌≡◌, ◌+◌, ◌≤◌, length};
ghost use Rattle.job_records.specs.LittleEndian.{u16_at, u32_at, u64_at, i64_of, f64_of};

use std::array;

pub(crate) fn u16_at(s: &[u8], at: usize) -> u16
    requires { at + 2 ≤ length s.now }
    ensures { result ≡ u16_at s.now at }
{
    u16::from_le_bytes(array::from_fn(|k| s[at + k]))
}

pub(crate) fn u32_at(s: &[u8], at: usize) -> u32
    requires { at + 4 ≤ length s.now }
    ensures { result ≡ u32_at s.now at }
{
    u32::from_le_bytes(array::from_fn(|k| s[at + k]))
}

pub(crate) fn u64_at(s: &[u8], at: usize) -> u64
    requires { at + 8 ≤ length s.now }
    ensures { result ≡ u64_at s.now at }
{
    u64::from_le_bytes(array::from_fn(|k| s[at + k]))
}

// The signed number that 64 bits stand for. Not `cast_signed` by itself: its clause is in `i64_of`, the word that the definitions of records have.
#[tactic(auto, unfolding(crate::specs::LittleEndian::i64_of))]
pub fn signed(bits: u64) -> i64
    ensures { result ≡ i64_of bits }
{
    bits.cast_signed()
}

// The bits of infinity: without its sign, a pattern above them is a NaN.
const INFINITY: u64 = 0x7ff0_0000_0000_0000;

// The float that 64 bits stand for; any NaN pattern gives a NaN.
pub fn float(bits: u64) -> f64
    ensures { result ≡ f64_of bits }
{
    if bits % 0x8000_0000_0000_0000 > INFINITY {
        f64::NAN
    } else {
        f64::from_bits(bits)
    }
}
