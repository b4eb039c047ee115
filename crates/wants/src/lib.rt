//! The steps for a wanted kind on a plain place, eat and expect: each answers what it found and the place where the cursor then stands.
#![tactic(auto)]

ghost use Rattle.std.specs.Prelude.{◌≡◌, ◌≤◌};
ghost use Rattle.answers.specs.Caps.{first_of};
ghost use Rattle.steps.specs.Steps.{step_verdict};
ghost use Rattle.wants.specs.Wanted.{kind_verdict, eat_step, eat_at, expect_step, expect_at};

use answers::{Place, Position, Refusal, Verdict};
use steps::Moved;

// What a step checks before it reads, 1, 2, 23, then 22 for a wanted kind above 66.
// `wanted` stays a number: C hands any, and 22 is to come after 1, 2 and 23.
#[tactic(auto, unfolding(crate::specs::Wanted::kind_verdict, answers::specs::Caps::first_of))]
fn check_wanted(text: &[u8], offset: u32, wanted: u32, at: Place) -> Verdict
    ensures { result ≡ first_of (step_verdict text.now offset at) (kind_verdict wanted) }
{
    steps::check_step(text, offset, at)?;
    if wanted <= 66 {
        return Ok(());
    }
    Err(Refusal::BadSpan)
}

// What eat makes of the next token. Eat and expect stay two functions, as in C, and share what is checked and read before.
#[tactic(auto, unfolding(crate::specs::Wanted::eat_step))]
fn eat_step(wanted: u32, from: Place, found: Moved) -> Moved
    ensures { result ≡ eat_step wanted from found.step found.at }
{
    match found.step {
        Ok(Some((kind, _))) if kind.kind() as u32 == wanted => found,
        Ok(_) => Moved {
            step: Ok(None),
            at: from,
        },
        Err(refusal) => Moved {
            step: Err(refusal),
            at: from,
        },
    }
}

// Eat: the next token only if it is of the wanted kind.
#[tactic(auto, unfolding(crate::specs::Wanted::eat_at, steps::specs::Steps::moved_by))]
pub fn eat_at(text: &[u8], offset: u32, wanted: u32, at: Place) -> Moved
    ensures { result ≡ eat_at text.now offset wanted at }
{
    match check_wanted(text, offset, wanted, at) {
        Ok(()) => eat_step(wanted, at, steps::next_step(text, offset, at)),
        Err(refusal) => Moved {
            step: Err(refusal),
            at,
        },
    }
}

// What expect makes of it: 21 at another token's start, or at the end of the text.
#[tactic(auto, unfolding(crate::specs::Wanted::expect_step))]
fn expect_step(wanted: u32, end: Position, from: Place, found: Moved) -> Moved
    requires { wanted ≤ 66 }
    ensures { result ≡ expect_step wanted end from found.step found.at }
{
    match found.step {
        Ok(Some((kind, _))) if kind.kind() as u32 == wanted => found,
        Ok(Some((kind, span))) => Moved {
            step: Err(Refusal::Wanted(span.start, wanted as u8, kind.kind())),
            at: found.at,
        },
        Ok(None) => Moved {
            step: Err(Refusal::Wanted(end, wanted as u8, 67)),
            at: found.at,
        },
        Err(refusal) => Moved {
            step: Err(refusal),
            at: from,
        },
    }
}

// Expect: the next token, which is to be of the wanted kind; else 21.
#[tactic(auto, unfolding(crate::specs::Wanted::expect_at, steps::specs::Steps::moved_by))]
pub fn expect_at(text: &[u8], offset: u32, wanted: u32, at: Place) -> Moved
    ensures { result ≡ expect_at text.now offset wanted at }
{
    match check_wanted(text, offset, wanted, at) {
        Ok(()) => {
            let end = answers::in_map(offset, Place(text.len() as u32));
            expect_step(wanted, end, at, steps::next_step(text, offset, at))
        }
        Err(refusal) => Moved {
            step: Err(refusal),
            at,
        },
    }
}
