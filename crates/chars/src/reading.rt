//! Reading: what stands at a place of a text.
ghost use Rattle.std.specs.Prelude.{◌≡◌, ◌&&◌, ◌<◌};
ghost use Rattle.terms.specs.Terms.{within};
ghost use Rattle.answers.specs.Caps.{cap};
ghost use Rattle.chars.specs.Utf8.{byte_at, on_by, lead_of, is_tail, char_by, char_at};
ghost use Rattle.chars.specs.View.{folded_at};
ghost use Rattle.chars.specs.inner.Single.{single_at};

use crate::{Lead, Read};
use answers::{Ill, Place};

// The byte at a place, 0 past the end, which goes on with no sequence. No Option: the definition of what is read goes by that 0.
#[tactic(auto, unfolding(crate::specs::Utf8::byte_at))]
pub fn byte_at(text: &[u8], at: Place) -> u32
    ensures { result ≡ byte_at text.now at }
{
    let k = at.0 as usize;
    if k < text.len() { text[k] as u32 } else { 0 }
}

// What a first byte starts: the rows of RFC 3629, section 4.
#[tactic(auto, unfolding(crate::specs::Utf8::lead_of, crate::specs::Utf8::leads, terms::specs::Terms::said, terms::specs::Terms::within))]
pub fn lead_of(b: u32) -> Lead
    ensures { result ≡ lead_of b }
{
    match b {
        0x00..=0x7F => Lead::Alone,
        0xC2..=0xDF => Lead::Two(0x80, 0xBF),
        0xE0 => Lead::Three(0xA0, 0xBF),
        0xE1..=0xEC => Lead::Three(0x80, 0xBF),
        0xED => Lead::Three(0x80, 0x9F),
        0xEE..=0xEF => Lead::Three(0x80, 0xBF),
        0xF0 => Lead::Four(0x90, 0xBF),
        0xF1..=0xF3 => Lead::Four(0x80, 0xBF),
        0xF4 => Lead::Four(0x80, 0x8F),
        _ => Lead::Never,
    }
}

#[tactic(auto, unfolding(crate::specs::Utf8::is_tail))]
fn is_tail(b: u32) -> bool
    ensures { result ≡ is_tail b }
{
    terms::within(0x80, 0xBF, b)
}

// The second of three bytes is in its range, and the third a tail.
fn ends_three(low: u32, high: u32, c: u32, d: u32) -> bool
    ensures { result ≡ (within low high c && is_tail d) }
{
    terms::within(low, high, c) && is_tail(d)
}

// The second of four bytes is in its range, and the others tails.
fn ends_four(low: u32, high: u32, c: u32, d: u32, e: u32) -> bool
    ensures { result ≡ (within low high c && (is_tail d && is_tail e)) }
{
    ends_three(low, high, c, d) && is_tail(e)
}

// Two, three and four bytes stay three functions: one for them all would be a loop over the tails, with an invariant for their sum: no plainer.
#[tactic(auto, unfolding(crate::specs::Utf8::char_by), using(crate::proofs::Utf8Laws::two_in))]
fn two_at(text: &[u8], at: Place, b: u32, low: u32, high: u32) -> Read
    requires { (at.0 < cap) × (lead_of b ≡ Lead.Two low high) }
    ensures { result ≡ char_by at b (byte_at text.now (on_by 1 at)) 0 0 (Lead.Two low high) }
{
    let c = byte_at(text, Place(at.0 + 1));
    if terms::within(low, high, c) {
        let character = (b - 0xC0) * 64 + (c - 0x80);
        return Ok(Some((character, Place(at.0 + 2))));
    }
    Err(Ill { at })
}

#[tactic(auto, unfolding(crate::specs::Utf8::char_by), using(crate::proofs::Utf8Laws::three_in))]
fn three_at(text: &[u8], at: Place, b: u32, low: u32, high: u32) -> Read
    requires { (at.0 < cap) × (lead_of b ≡ Lead.Three low high) }
    ensures { result ≡ char_by at b (byte_at text.now (on_by 1 at)) (byte_at text.now (on_by 2 at)) 0 (Lead.Three low high) }
{
    let c = byte_at(text, Place(at.0 + 1));
    let d = byte_at(text, Place(at.0 + 2));
    if ends_three(low, high, c, d) {
        let character = (b - 0xE0) * 4096 + (c - 0x80) * 64 + (d - 0x80);
        return Ok(Some((character, Place(at.0 + 3))));
    }
    Err(Ill { at })
}

#[tactic(auto, unfolding(crate::specs::Utf8::char_by), using(crate::proofs::Utf8Laws::four_in))]
fn four_at(text: &[u8], at: Place, b: u32, low: u32, high: u32) -> Read
    requires { (at.0 < cap) × (lead_of b ≡ Lead.Four low high) }
    ensures { result ≡ char_by at b (byte_at text.now (on_by 1 at)) (byte_at text.now (on_by 2 at)) (byte_at text.now (on_by 3 at)) (Lead.Four low high) }
{
    let c = byte_at(text, Place(at.0 + 1));
    let d = byte_at(text, Place(at.0 + 2));
    let e = byte_at(text, Place(at.0 + 3));
    if ends_four(low, high, c, d, e) {
        let character = (b - 0xF0) * 262144 + (c - 0x80) * 4096 + (d - 0x80) * 64 + (e - 0x80);
        return Ok(Some((character, Place(at.0 + 4))));
    }
    Err(Ill { at })
}

// What stands at a place. Most characters have one byte, so that comes first.
#[tactic(auto, unfolding(crate::specs::Utf8::char_at, crate::specs::Utf8::char_by))]
pub fn read_at(text: &[u8], at: Place) -> Read
    ensures { result ≡ char_at text.now at }
{
    let k = at.0 as usize;
    if text.len() <= k || 65536 <= k {
        return Ok(None);
    }
    let b = byte_at(text, at);
    match lead_of(b) {
        Lead::Alone => Ok(Some((b, Place(at.0 + 1)))),
        Lead::Two(low, high) => two_at(text, at, b, low, high),
        Lead::Three(low, high) => three_at(text, at, b, low, high),
        Lead::Four(low, high) => four_at(text, at, b, low, high),
        Lead::Never => Err(Ill { at }),
    }
}

// What stands at a place is one byte that no folding changes: below 0x80, and no carriage return.
#[tactic(auto, unfolding(crate::specs::inner::Single::single_at, crate::specs::Utf8::byte_at))]
pub fn single_at(text: &[u8], at: Place) -> bool
    ensures { result ≡ single_at text.now at }
{
    let k = at.0 as usize;
    k < text.len() && k < 65536 && text[k] != 13 && text[k] < 0x80
}

// What stands at a place, with a carriage return directly followed by the byte of a newline read as one newline.
#[tactic(auto, unfolding(crate::specs::View::folded_at, crate::specs::View::folded), using(crate::proofs::Utf8Laws::onward))]
fn any_folded_at(text: &[u8], at: Place) -> Read
    ensures { result ≡ folded_at text.now at }
{
    match read_at(text, at)? {
        Some((13, next)) if byte_at(text, next) == 10 => Ok(Some((10, Place(next.0 + 1)))),
        read => Ok(read),
    }
}

// The same. Most characters are bytes that read as themselves, so that comes first.
#[tactic(auto, using(crate::proofs::SingleLaws::single_stands, crate::proofs::SingleLaws::single_is))]
pub fn folded_at(text: &[u8], at: Place) -> Read
    ensures { result ≡ folded_at text.now at }
{
    if single_at(text, at) {
        return Ok(Some((byte_at(text, at), Place(at.0 + 1))));
    }
    any_folded_at(text, at)
}
