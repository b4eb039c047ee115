//! The steps over a cursor that is made here and lent to each: what a step answers, and where it leaves the cursor.
ghost use Rattle.std.specs.Prelude.{◌≡◌};
ghost use Rattle.std.specs.Fn.{FnOnceReturnsAtMut};
ghost use Rattle.answers.specs.Places.{place};
ghost use Rattle.steps.specs.Steps.{next_raw_at, next_at};
ghost use Rattle.wants.specs.Wanted.{eat_at, expect_at};

use answers::Place;
use cursors::Cursor;
use steps::{Moved, Step};

// What a step does to a cursor at this place.
fn lend<F: FnOnce(&mut Cursor) -> Step>(from: u32, step: F) -> Moved
    requires { F.IsAlwaysCallable step }
    ensures { FnOnceReturnsAtMut F.FnOnce step (record { at = place from }) result.step (record { at = result.at }) }
{
    let mut cursor = Cursor { at: Place(from) };
    let step = step(&mut cursor);
    Moved {
        step,
        at: cursor.at,
    }
}

pub(crate) fn next_raw(text: &[u8], offset: u32, from: u32) -> Moved
    ensures { result ≡ next_raw_at text.now offset (place from) }
{
    lend(from, |cursor| cursors::next_raw(text, offset, cursor))
}

pub(crate) fn next(text: &[u8], offset: u32, from: u32) -> Moved
    ensures { result ≡ next_at text.now offset (place from) }
{
    lend(from, |cursor| cursors::next(text, offset, cursor))
}

pub(crate) fn eat(text: &[u8], offset: u32, from: u32, wanted: u32) -> Moved
    ensures { result ≡ eat_at text.now offset wanted (place from) }
{
    lend(from, |cursor| cursors::eat(text, offset, cursor, wanted))
}

pub(crate) fn expect(text: &[u8], offset: u32, from: u32, wanted: u32) -> Moved
    ensures { result ≡ expect_at text.now offset wanted (place from) }
{
    lend(from, |cursor| cursors::expect(text, offset, cursor, wanted))
}
