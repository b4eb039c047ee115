//! Runs of characters of one class, and comments: where each ends. Only the token rules ask; a host does not need them.
#![tactic(auto)]

mod comments;
mod runs;

use answers::{Place, Refusal};
pub use comments::{block_comment, line_comment};
pub use runs::{run_from, run_on};

// The runs that rules take: of blanks, of digits, and of keylike continuations.
// An enum with methods: a closure for each of a run's class, set and start is no plainer, since the three belong together.
#[derive(Clone, Copy, Debug, PartialEq, Eq)]
pub enum Run {
    Blanks,
    Digits,
    Keylike,
}

// Where in a block comment the walk stands: how deep, and whether a `/` or a `*` that no pair has eaten came last.
#[derive(Clone, Copy, Debug, PartialEq, Eq)]
pub enum Block {
    Other(u32),
    Slash(u32),
    Star(u32),
}

// Where a run or a comment ends: the place where the rest begins, or a refusal.
pub type Ran = Result<Place, Refusal>;
