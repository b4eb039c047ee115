//! Hexadecimal digits.
ghost use Rattle.std.specs.Prelude.{◌≡◌};
ghost use Rattle.chars.specs.Hex.{to_hex};

// The value of a hexadecimal digit; none of any other character.
#[tactic(auto, unfolding(crate::specs::Hex::to_hex, crate::specs::Hex::hex_digits, terms::specs::Terms::said, terms::specs::Terms::within))]
pub fn to_hex(c: u32) -> Option<u32>
    ensures { result ≡ to_hex c }
{
    match c {
        0x30..=0x39 => Some(c - 0x30),
        0x41..=0x46 => Some(c - 0x37),
        0x61..=0x66 => Some(c - 0x57),
        _ => None,
    }
}
