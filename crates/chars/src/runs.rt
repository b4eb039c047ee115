//! Runs: bytes of one set, passed over at once. A character of one byte is its byte, so the rules above use this where it is faster.
ghost use Rattle.std.specs.Prelude.{◌≡◌, ◌<◌, min, length, ltb, if◌then◌else◌};
ghost use Rattle.answers.specs.Caps.{cap};
ghost use Rattle.chars.specs.inner.Runs.{in_set, stops_at, run_end};

use crate::AsciiSet;
use answers::Place;

// The bits of the set among which that of a byte below 0x80 is.
fn half(set: AsciiSet, b: u32) -> u64
    ensures { result ≡ (if ltb b 64 then set.low else set.high) }
{
    if b < 64 { set.low } else { set.high }
}

// The byte is of the set. A choice between two words is no branch, and so is not guessed wrong where letters and digits mix.
// As one `&&` it misses the bar of speed: the bit is then shifted out and tested, where this form tests it in place.
#[tactic(auto, unfolding(crate::specs::inner::Runs::in_set))]
fn has(set: AsciiSet, b: u32) -> bool
    ensures { result ≡ in_set set b }
{
    if b < 128 {
        return (half(set, b) >> (b % 64)) % 2 == 1;
    }
    false
}

// The place behind the last byte that is read.
pub fn limit(text: &[u8]) -> usize
    ensures { result ≡ min (length text.now) cap }
{
    text.len().min(65536)
}

// The byte at k is not of the set: a run ends there. The proof of `run_end` goes by this clause, and so not by how the test is written.
#[inline(always)]
fn stops_at(text: &[u8], k: usize, set: AsciiSet) -> bool
    requires { k < length text.now }
    ensures { result ≡ stops_at text.now set k }
{
    !has(set, text[k] as u32)
}

// The first place from `at` on whose byte is not of the set, or the end.
pub fn run_end(text: &[u8], at: Place, set: AsciiSet) -> Place
    ensures { result ≡ run_end text.now set at }
{
    let end = limit(text);
    for k in at.0 as usize..end {
        if stops_at(text, k, set) {
            return Place(k as u32);
        }
    }
    Place(at.0.max(end as u32))
}
