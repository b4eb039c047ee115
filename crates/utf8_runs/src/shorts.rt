//! Short texts: every one of one byte and of two, and every first byte with bytes at the edges of the table's ranges behind it.
//! A text of two bytes whose first starts three or four is a text that ends too early, and so is one of three whose first starts four.
ghost use Rattle.std.specs.Prelude.{◌≤◌};

use crate::tally::Tally;

// The bytes at the edges of the ranges of RFC 3629, section 4.
pub const EDGES: [u8; 10] = [0x00, 0x7F, 0x80, 0x8F, 0x90, 0x9F, 0xA0, 0xBF, 0xC0, 0xFF];

// Every byte, from the lowest on.
pub(crate) fn every_byte() -> [u8; 256] {
    let mut bytes = [0; 256];
    for (byte, value) in bytes.iter_mut().zip(0..=u8::MAX) {
        *byte = value;
    }
    bytes
}

// Counts the text with each way to choose the bytes from a place on.
fn count_from<const N: usize>(tally: &mut Tally, mut text: [u8; N], at: usize, choices: &[u8]) {
    if at >= N {
        tally.count(&text);
        return;
    }
    for byte in choices {
        text[at] = *byte;
        count_from(tally, text, at + 1, choices);
    }
}

// The texts of this many bytes: any first byte, and each byte behind it one of these.
pub(crate) fn texts_of<const N: usize>(behind: &[u8]) -> Tally
    requires { N ≤ 4 }
{
    let mut tally = Tally::default();
    for first in 0..=u8::MAX {
        count_from(&mut tally, [first; N], 1, behind);
    }
    tally
}
