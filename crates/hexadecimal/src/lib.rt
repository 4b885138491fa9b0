// Numbers that stand in text as hexadecimal digits, for programs that replay lines of input.
#![tactic(auto)]

ghost use Rattle.std.specs.Prelude.{◌≡◌};
ghost use Rattle.hexadecimal.specs.Hex.{digit_of, number};

// What a hexadecimal digit stands for.
#[tactic(auto, unfolding(crate::specs::Hex::digit_of))]
pub fn digit(byte: u8) -> Option<u64>
    ensures { result ≡ digit_of byte }
{
    match byte {
        b'0'..=b'9' => Some(u64::from(byte - b'0')),
        b'a'..=b'f' => Some(u64::from(byte - b'a') + 10),
        _ => None,
    }
}

// The last 64 bits of the number that the digits stand for; a byte that is no digit stands for 0.
pub fn bits(digits: &[u8]) -> u64
    ensures { result ≡ number 0 digits.now }
{
    let mut value = 0;
    for &byte in digits {
        value = value << 4 | digit(byte).unwrap_or(0);
    }
    value
}
