//! The string rule from behind the opening quote on.
ghost use Rattle.std.specs.Prelude.{◌≡◌, length};
ghost use Rattle.strings.specs.Strings.{added, string_literal};
ghost use Rattle.strings.specs.inner.Walking.{ascii_at, expected_at, Sound, Leads, Raw};

use crate::{Element, Inside, Literal, More, Seen, Turn};
use answers::{Place, Position, Refusal};
use chars::AsciiSet;

// The character at a place, where one byte is all that it has. Most characters of an escape are read so.
#[tactic(auto, unfolding(crate::specs::inner::Walking::ascii_at))]
fn ascii_at(text: &[u8], at: Place) -> Option<u32>
    ensures { result ≡ ascii_at text.now at }
{
    if chars::single_at(text, at) {
        return Some(chars::byte_at(text, at));
    }
    None
}

// The character at a place, where a string cannot end, with the next place.
#[tactic(auto, unfolding(crate::specs::inner::Walking::expected_at, crate::specs::inner::Walking::expected_of))]
fn expect_any_char(text: &[u8], offset: u32, at: Place) -> Result<(u32, Place), Refusal>
    ensures { result ≡ expected_at text.now offset at }
{
    chars::folded_at(text, at)?.ok_or(Refusal::UnexpectedEof(answers::in_map(offset, at)))
}

// As many turns as there are until something is gathered: one between characters, or those of an escape.
// A loop, as each character tells the next place: an iterator of places is no plainer.
fn turns_at(text: &[u8], offset: u32, from: Inside, start: Place) -> Result<Element, Refusal>
    requires { Sound from }
    ensures { Leads text.now offset from start result }
{
    let mut inside = from;
    let mut at = start;
    loop {
        let (c, next) = expect_any_char(text, offset, at)?;
        match inside.turn(at, c)? {
            Turn::On(_, Some(more)) => return Ok(Element::Adds(more, next)),
            Turn::On(then, None) => {
                inside = then;
                at = next;
            }
            Turn::Close => return Ok(Element::Close(next)),
        }
    }
}

// What stands between characters. Behind a run of raw ones it is a quote or a backslash, or else it is refused.
pub(crate) fn element_at(text: &[u8], offset: u32, at: Place) -> Result<Element, Refusal>
    ensures { Leads text.now offset Inside.Plain at result }
{
    match ascii_at(text, at) {
        Some(0x22) => Ok(Element::Close(Place(at.0 + 1))),
        Some(0x5C) => turns_at(text, offset, Inside::Escape, Place(at.0 + 1)),
        _ => turns_at(text, offset, Inside::Plain, at),
    }
}

// The bytes that are characters by themselves, and that a string holds as they stand: 0x20 to 0x7E without `"` and `\`.
const BARE: AsciiSet = AsciiSet {
    low: 0xFFFF_FFFB_0000_0000,
    high: 0x7FFF_FFFF_EFFF_FFFF,
};

// How many bytes from a place on are characters that a string holds as they stand. Most are bare bytes, which are passed over at once.
// A loop, as above: each character tells the next place.
fn raw_run(text: &[u8], at: Place) -> u32
    ensures { Raw text.now at result }
{
    let mut next = at;
    loop {
        next = chars::run_end(text, next, BARE);
        if chars::byte_at(text, next) < 0x80 {
            return next.0 - at.0;
        }
        let Ok(Some((_, behind))) = chars::read_at(text, next) else {
            return next.0 - at.0;
        };
        next = behind;
    }
}

impl More {
    // How many bytes it adds.
    #[tactic(auto, unfolding(crate::specs::Strings::added), using(chars::proofs::EncodeLaws::encode_most))]
    fn size(self) -> u32
        ensures { result ≡ length (added self) }
    {
        match self {
            More::One(_) => 1,
            More::Whole(c) => encoding::width(c) as u32,
        }
    }
}

// The string rule from place `at` on, behind an opening quote at position `start`.
// Nothing is read at or past the cap, and no more is gathered than is read, so no count is too large.
// A loop, as above: each element tells the next place.
pub fn expect_string_literal(
    text: &[u8],
    offset: u32,
    start: Position,
    at: Place,
) -> Result<Literal, Refusal>
    ensures { result ≡ string_literal text.now offset start at }
{
    let mut here = at;
    let mut count: u32 = 0;
    let mut seen = Seen::Well;
    loop {
        let run = raw_run(text, here);
        if 0 < run {
            here = Place(here.0 + run);
            count += run;
            seen = seen.passed();
        }
        match element_at(text, offset, here)? {
            Element::Adds(more, next) => {
                seen = seen.took(count, more);
                count += more.size();
                here = next;
            }
            Element::Close(next) => return seen.closed(start, count, next),
        }
    }
}
