//! Encoding: the bytes of a character.
ghost use Rattle.std.specs.Prelude.{◌≡◌, length};
ghost use Rattle.chars.specs.Utf8;
ghost use Rattle.chars.specs.Utf8.{is_scalar, encoded};

// The numbers that are characters.
#[tactic(auto, unfolding(chars::specs::Utf8::is_scalar, terms::specs::Terms::within))]
pub fn is_scalar(c: u32) -> bool
    ensures { result ≡ is_scalar c }
{
    matches!(c, 0..=0xD7FF | 0xE000..=0x10FFFF)
}

// The bytes of a character go to the front of a buffer, and are counted.
// Where the number is no character, or the buffer lacks room, nothing is written and there is no count.
#[tactic(auto, unfolding(chars::specs::Utf8::encoded), using(chars::proofs::EncodeLaws::size_one, chars::proofs::EncodeLaws::size_two, chars::proofs::EncodeLaws::size_three, chars::proofs::EncodeLaws::size_four))]
pub fn encode(c: u32, buffer: &mut [u8]) -> Option<usize>
    ensures { (result, buffer.new) ≡ encoded c buffer.old }
{
    let size = width(c);
    if !is_scalar(c) || buffer.len() < size {
        return None;
    }
    match c {
        0..=0x7F => buffer[0] = c as u8,
        0x80..=0x7FF => {
            buffer[0] = (0xC0 + c / 64) as u8;
            buffer[1] = (0x80 + c % 64) as u8;
        }
        0x800..=0xFFFF => {
            buffer[0] = (0xE0 + c / 4096) as u8;
            buffer[1] = (0x80 + c / 64 % 64) as u8;
            buffer[2] = (0x80 + c % 64) as u8;
        }
        _ => {
            buffer[0] = (0xF0 + c / 262144) as u8;
            buffer[1] = (0x80 + c / 4096 % 64) as u8;
            buffer[2] = (0x80 + c / 64 % 64) as u8;
            buffer[3] = (0x80 + c % 64) as u8;
        }
    }
    Some(size)
}

// How many bytes a character has.
#[tactic(auto, unfolding(chars::specs::Utf8::encode))]
pub fn width(c: u32) -> usize
    ensures { result ≡ length (Utf8.encode c) }
{
    match c {
        0..=0x7F => 1,
        0x80..=0x7FF => 2,
        0x800..=0xFFFF => 3,
        _ => 4,
    }
}
