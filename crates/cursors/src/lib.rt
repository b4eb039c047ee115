//! The cursor that the caller lends: each step reads at it and moves it on. The work is done by the plain-place functions of `steps` and `wants`.
#![tactic(auto)]

ghost use Rattle.std.specs.Prelude.{◌≡◌};
ghost use Rattle.answers.specs.Places.{place};
ghost use Rattle.steps.specs.Steps.{moved, next_raw_at, next_at};
ghost use Rattle.wants.specs.Wanted.{eat_at, expect_at};
ghost use Rattle.cursors.specs.Cursors.{opened_cursor};

use answers::{Place, Refusal};
use steps::{Moved, Step};

// Where in a text the next step reads.
#[derive(Clone, Copy, Debug, PartialEq, Eq)]
pub struct Cursor {
    pub at: Place,
}

impl Cursor {
    // Goes where a step ended, and says what the step found.
    fn follow(&mut self, found: Moved) -> Step
        ensures { moved result self.new.at ≡ found }
    {
        self.at = found.at;
        found.step
    }
}

// Opens a text: 1, 2, 3, then screening.
#[tactic(auto, unfolding(crate::specs::Cursors::opened_cursor, crate::specs::Cursors::as_cursor))]
pub fn open(text: &[u8], offset: u32) -> Result<Cursor, Refusal>
    ensures { result ≡ opened_cursor text.now offset }
{
    let at = steps::open(text, offset)?;
    Ok(Cursor { at })
}

// The four steps from a plain number on, for callers that lend no cursor. They stay four: docs/READING.md names them.
pub fn next_raw_from(text: &[u8], offset: u32, at: u32) -> Moved
    ensures { result ≡ next_raw_at text.now offset (place at) }
{
    steps::next_raw_at(text, offset, Place(at))
}

pub fn next_from(text: &[u8], offset: u32, at: u32) -> Moved
    ensures { result ≡ next_at text.now offset (place at) }
{
    steps::next_at(text, offset, Place(at))
}

pub fn eat_from(text: &[u8], offset: u32, at: u32, wanted: u32) -> Moved
    ensures { result ≡ eat_at text.now offset wanted (place at) }
{
    wants::eat_at(text, offset, wanted, Place(at))
}

pub fn expect_from(text: &[u8], offset: u32, at: u32, wanted: u32) -> Moved
    ensures { result ≡ expect_at text.now offset wanted (place at) }
{
    wants::expect_at(text, offset, wanted, Place(at))
}

// The next token, blanks and comments too.
pub fn next_raw(text: &[u8], offset: u32, cursor: &mut Cursor) -> Step
    ensures { moved result cursor.new.at ≡ next_raw_at text.now offset cursor.old.at }
{
    cursor.follow(next_raw_from(text, offset, cursor.at.0))
}

// The next token that is no blank and no comment.
pub fn next(text: &[u8], offset: u32, cursor: &mut Cursor) -> Step
    ensures { moved result cursor.new.at ≡ next_at text.now offset cursor.old.at }
{
    cursor.follow(next_from(text, offset, cursor.at.0))
}

// That token if it is of the wanted kind; else the cursor stays.
pub fn eat(text: &[u8], offset: u32, cursor: &mut Cursor, wanted: u32) -> Step
    ensures { moved result cursor.new.at ≡ eat_at text.now offset wanted cursor.old.at }
{
    cursor.follow(eat_from(text, offset, cursor.at.0, wanted))
}

// That token, which is to be of the wanted kind; else 21, with the cursor behind the token that was found.
pub fn expect(text: &[u8], offset: u32, cursor: &mut Cursor, wanted: u32) -> Step
    ensures { moved result cursor.new.at ≡ expect_at text.now offset wanted cursor.old.at }
{
    cursor.follow(expect_from(text, offset, cursor.at.0, wanted))
}
