//! Screening: what a whole text is looked through for before any token is read.
ghost use Rattle.std.specs.Prelude.{◌≡◌};
ghost use Rattle.screening.specs.Screening.{offence_of, invalid_input};
ghost use Rattle.screening.specs.inner.OneWalk;

use crate::Offence;
use crate::plain::plain_end;
use answers::{Place, Refusal, Verdict};

// What is wrong with a character, where something is.
#[tactic(auto, unfolding(crate::specs::Screening::offence_of, crate::specs::Screening::offences, terms::specs::Terms::said, terms::specs::Terms::within))]
pub fn offence_of(c: u32) -> Option<Offence>
    ensures { result ≡ offence_of c }
{
    match c {
        9 | 10 | 13 => None,
        0..=0x1F | 0x7F..=0x9F => Some(Offence::Control),
        0x149 | 0x673 | 0xF77 | 0xF79 => Some(Offence::Deprecated),
        0x17A3..=0x17A4 | 0x17B4..=0x17B5 => Some(Offence::Deprecated),
        0x202A..=0x202E | 0x2066..=0x2069 => Some(Offence::Forbidden),
        _ => None,
    }
}

// What the characters before got, and after them this one.
#[tactic(auto, unfolding(crate::specs::inner::OneWalk::sooner, crate::specs::Screening::screened_by, answers::specs::Caps::first_of))]
fn sooner(so_far: Verdict, at: Place, c: u32) -> Verdict
    ensures { result ≡ OneWalk.sooner so_far at c }
{
    so_far?;
    match offence_of(c) {
        None => Ok(()),
        Some(Offence::Control) => Err(Refusal::ControlCodepoint(at, c)),
        Some(Offence::Deprecated) => Err(Refusal::DeprecatedCodepoint(at, c)),
        Some(Offence::Forbidden) => Err(Refusal::ForbiddenCodepoint(at, c)),
    }
}

// What a whole text gets: 3 at the first ill-formed sequence, wherever it stands; else 4, 5 or 6 at the first offender.
// Plain text is passed over; what else there is is read character by character.
pub fn detect_invalid_input(text: &[u8]) -> Verdict
    ensures { result ≡ invalid_input text.now }
{
    let mut at = Place(0);
    let mut so_far = Ok(());
    loop {
        // less none: 0xFF is not plain
        let here = plain_end(text, at, [0xFF; 3]);
        let Some((c, next)) = chars::read_at(text, here)? else {
            return so_far;
        };
        so_far = sooner(so_far, here, c);
        at = next;
    }
}
