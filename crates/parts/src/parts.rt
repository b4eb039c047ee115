//! The parts of an identifier, between `-`.
ghost use Rattle.std.specs.Prelude.{◌≡◌};
ghost use Rattle.chars.specs.View.{chars_from};
ghost use Rattle.parts.specs.Parts.{letter_of, step_by, ended_by, parts_from};
ghost use Rattle.parts.specs.inner.Runs;

use crate::{Letter, Part};
use answers::{Place, Position, Refusal, Verdict};
use chars::AsciiSet;

#[tactic(auto, unfolding(crate::specs::Parts::letter_of, crate::specs::Parts::letters, terms::specs::Terms::said, terms::specs::Terms::within))]
fn letter_of(c: u32) -> Letter
    ensures { result ≡ letter_of c }
{
    match c {
        0x2D => Letter::Dash,
        0x30..=0x39 => Letter::Digit,
        0x41..=0x5A => Letter::Upper,
        0x61..=0x7A => Letter::Lower,
        _ => Letter::Other,
    }
}

// What a character does: a `-` ends a part that is not empty; a digit may stand anywhere but at the start of the first
// part, and a letter anywhere but in a part whose letters are of the other case. Refusals stand at the span's start.
#[tactic(auto, unfolding(crate::specs::Parts::step_by))]
fn step_by(start: Position, part: Part, c: u32) -> Result<Part, Refusal>
    ensures { result ≡ step_by start c part (letter_of c) }
{
    match (letter_of(c), part) {
        (Letter::Dash, Part::First) => Err(Refusal::IdPartEmpty(start)),
        (Letter::Dash, Part::Next) => Err(Refusal::IdPartEmpty(start)),
        (Letter::Dash, _) => Ok(Part::Next),
        (Letter::Digit, Part::First) => Err(Refusal::InvalidCharInId(start, c)),
        (Letter::Digit, Part::Next) => Ok(Part::Digits),
        (Letter::Digit, _) => Ok(part),
        (Letter::Upper, Part::Lower) => Err(Refusal::InvalidCharInId(start, c)),
        (Letter::Upper, _) => Ok(Part::Upper),
        (Letter::Lower, Part::Upper) => Err(Refusal::InvalidCharInId(start, c)),
        (Letter::Lower, _) => Ok(Part::Lower),
        (Letter::Other, _) => Err(Refusal::InvalidCharInId(start, c)),
    }
}

// Where an identifier may end: behind a part that is not empty.
#[tactic(auto, unfolding(crate::specs::Parts::ended_by))]
fn ended_by(start: Position, part: Part) -> Verdict
    ensures { result ≡ ended_by start part }
{
    match part {
        Part::First | Part::Next => Err(Refusal::IdPartEmpty(start)),
        Part::Digits | Part::Upper | Part::Lower => Ok(()),
    }
}

// The bytes that leave a part as it is.
#[tactic(auto, unfolding(crate::specs::inner::Runs::staying))]
fn staying(part: Part) -> AsciiSet
    ensures { result ≡ Runs.staying part }
{
    match part {
        Part::First | Part::Next => AsciiSet { low: 0, high: 0 },
        Part::Digits => AsciiSet {
            low: 0x03FF_0000_0000_0000,
            high: 0,
        },
        Part::Upper => AsciiSet {
            low: 0x03FF_0000_0000_0000,
            high: 0x0000_0000_07FF_FFFE,
        },
        Part::Lower => AsciiSet {
            low: 0x03FF_0000_0000_0000,
            high: 0x07FF_FFFE_0000_0000,
        },
    }
}

// The parts from a place on, up to the end, one by one; refusals stand at the span's start.
pub fn check_parts(text: &[u8], start: Position, from: Place, end: Place) -> Verdict
    ensures { result ≡ parts_from start end Part.First (chars_from text.now from) }
{
    let mut at = from;
    let mut part = Part::First;
    while at.0 < end.0 {
        let Some((c, next)) = chars::read_at(text, at)? else {
            break;
        };
        part = step_by(start, part, c)?;
        at = chars::run_end(text, next, staying(part));
    }
    ended_by(start, part)
}
