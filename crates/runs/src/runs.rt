//! Runs: the longest run of characters of one class.
ghost use Rattle.std.specs.Prelude.{◌≡◌};
ghost use Rattle.chars.specs.View.{folded_from};
ghost use Rattle.runs.specs.Comments;
ghost use Rattle.runs.specs.Comments.{blank};
ghost use Rattle.runs.specs.inner.Runs.{class_of, passed_over, set_of};

use crate::{Ran, Run};
use answers::Place;
use chars::AsciiSet;

// Newline, tab, space.
#[tactic(auto, unfolding(crate::specs::Comments::blank))]
fn is_blank(c: u32) -> bool
    ensures { result ≡ blank c }
{
    matches!(c, 9 | 10 | 32)
}

impl Run {
    // The character is of the run's class.
    #[tactic(auto, unfolding(crate::specs::inner::Runs::class_of, crate::specs::Comments::digit))]
    fn has(self, c: u32) -> bool
        ensures { result ≡ class_of self c }
    {
        match self {
            Run::Blanks => is_blank(c),
            Run::Digits => terms::within(48, 57, c),
            Run::Keylike => classes::is_keylike_continue(c),
        }
    }

    // The bytes below 0x80 that are inside the run's class: they need no closer look.
    #[tactic(auto, unfolding(crate::specs::inner::Runs::set_of, classes::specs::inner::Runs::keylike_set))]
    fn set(self) -> AsciiSet
        ensures { result ≡ set_of self }
    {
        match self {
            Run::Blanks => AsciiSet {
                low: 0x0000_0001_0000_0600,
                high: 0,
            },
            Run::Digits => AsciiSet {
                low: 0x03FF_0000_0000_0000,
                high: 0,
            },
            Run::Keylike => AsciiSet {
                low: 0x03FF_2000_0000_0000,
                high: 0x07FF_FFFE_87FF_FFFE,
            },
        }
    }

    // Where a run is looked at character by character. A byte below 0xCB starts no character above U+02BF, and those need no table; behind
    // another, all of the word is passed over by one call, whose loop knows its class.
    #[tactic(auto, unfolding(crate::specs::inner::Runs::passed_over))]
    fn passed_over(self, text: &[u8], from: Place) -> Place
        ensures { result ≡ passed_over self text.now from }
    {
        match self {
            Run::Keylike if 0xCB <= chars::byte_at(text, from) => classes::keylike_end(text, from),
            _ => from,
        }
    }
}

// Where a run from a place on ends: at the end, at a character outside its class, or in a refusal.
pub fn run_on(text: &[u8], from: Place, run: Run) -> Ran
    ensures { result ≡ Comments.run (class_of run) (folded_from text.now from) }
{
    let mut at = run.passed_over(text, from);
    while let Some((c, next)) = chars::folded_at(text, at)?
        && run.has(c)
    {
        at = next;
    }
    Ok(at)
}

// The same for a run that is likely to have only bytes of its set: a byte that reads as itself and is not of the set is outside the class.
pub fn run_from(text: &[u8], from: Place, run: Run) -> Ran
    ensures { result ≡ Comments.run (class_of run) (folded_from text.now from) }
{
    let at = chars::run_end(text, from, run.set());
    if chars::single_at(text, at) {
        return Ok(at);
    }
    run_on(text, at, run)
}
