// A wider number as an index.
#![tactic(auto)]

ghost use Rattle.std.specs.Prelude.{◌≡◌, min};

// The largest index that a u32 holds stands for any number above it. At `u16_from` of `yuzhbani_answers` stands why not one function serves both.
pub fn index_of(n: u64) -> u32
    ensures { result ≡ min n 4294967295 }
{
    u32::try_from(n).unwrap_or(u32::MAX)
}
