//! The check of the gathered bytes, as they come: a small state goes from one to the next, and no byte is kept.
ghost use Rattle.std.specs.Prelude.{◌≡◌};
ghost use Rattle.strings.specs.inner.Checking;
ghost use Rattle.strings.specs.Strings.{closed_by};
ghost use Rattle.strings.specs.inner.Checking.{part, feed, pass, verdict, Fair};

use crate::{Literal, More, Rest, Seen};
use answers::{Place, Position, Refusal};
use chars::Lead;

fn part(start: u32, low: u32, high: u32, left: u32) -> Seen
    ensures { result ≡ part start low high left }
{
    Seen::Part(Rest {
        start,
        low,
        high,
        left,
    })
}

// A byte that starts a sequence, behind n bytes that are well-formed.
#[tactic(auto, unfolding(crate::specs::inner::Checking::feed, crate::specs::inner::Checking::started))]
fn started(n: u32, b: u32) -> Seen
    ensures { result ≡ feed n Seen.Well b }
{
    match chars::lead_of(b) {
        Lead::Alone => Seen::Well,
        Lead::Two(low, high) => part(n, low, high, 1),
        Lead::Three(low, high) => part(n, low, high, 2),
        Lead::Four(low, high) => part(n, low, high, 3),
        Lead::Never => Seen::Ill(n),
    }
}

impl Seen {
    // After one byte more, behind n bytes.
    #[tactic(auto, unfolding(crate::specs::inner::Checking::feed, crate::specs::inner::Checking::went_on))]
    fn fed(self, n: u32, b: u32) -> Seen
        requires { Fair self }
        ensures { result ≡ feed n self b }
    {
        match self {
            Seen::Well => started(n, b),
            Seen::Part(rest) if !terms::within(rest.low, rest.high, b) => Seen::Ill(rest.start),
            Seen::Part(rest) if rest.left == 1 => Seen::Well,
            Seen::Part(rest) => part(rest.start, 0x80, 0xBF, rest.left - 1),
            Seen::Ill(start) => Seen::Ill(start),
        }
    }

    // After whole characters: their bytes are well-formed, and the first goes on with no sequence.
    #[tactic(auto, unfolding(crate::specs::inner::Checking::pass))]
    pub(crate) fn passed(self) -> Seen
        ensures { result ≡ pass self }
    {
        match self {
            Seen::Part(rest) => Seen::Ill(rest.start),
            _ => self,
        }
    }

    // After what a turn adds, behind n bytes.
    #[tactic(auto, unfolding(crate::specs::inner::Checking::took))]
    pub(crate) fn took(self, n: u32, more: More) -> Seen
        requires { Fair self }
        ensures { result ≡ Checking.took n self more }
    {
        match more {
            More::One(b) => self.fed(n, b),
            More::Whole(_) => self.passed(),
        }
    }

    // The answer for so many bytes, closed before the place `end`.
    #[tactic(auto, unfolding(crate::specs::Strings::closed_by, crate::specs::inner::Checking::verdict))]
    pub(crate) fn closed(self, quote: Position, count: u32, end: Place) -> Result<Literal, Refusal>
        ensures { result ≡ closed_by quote count (verdict self) end }
    {
        match self {
            Seen::Well => Ok(Literal { end, count }),
            Seen::Part(rest) => Err(Refusal::InvalidUtf8(quote, rest.start)),
            Seen::Ill(start) => Err(Refusal::InvalidUtf8(quote, start)),
        }
    }
}
