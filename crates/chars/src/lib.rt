//! The character rules: what the bytes of a text read as (RFC 3629), runs of bytes, and hexadecimal digits.
//! The rooms above rest on these promises alone. Of the functions, `run_end`, `limit` and `single_at` are for those rooms; no host needs them.
#![tactic(auto)]

mod hex;
mod reading;
mod runs;

use answers::{Ill, Place};
pub use hex::to_hex;
pub use reading::{byte_at, folded_at, lead_of, read_at, single_at};
pub use runs::{limit, run_end};

// What stands at a place: nothing, where the text ends; an ill-formed sequence; or a character and the next place.
pub type Read = Result<Option<(u32, Place)>, Ill>;

// What a first byte starts: a sequence of one byte, of two, three or four with the range of the second byte, or none.
#[derive(Clone, Copy, Debug, PartialEq, Eq)]
pub enum Lead {
    Alone,
    Two(u32, u32),
    Three(u32, u32),
    Four(u32, u32),
    Never,
}

// A set of bytes below 0x80: bit b of `low` for a byte b below 64, bit b - 64 of `high` for any other.
#[derive(Clone, Copy, Debug, PartialEq, Eq)]
pub struct AsciiSet {
    pub low: u64,
    pub high: u64,
}
