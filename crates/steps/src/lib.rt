//! Opening a text, and the steps to its next token on a plain place: each answers what it found and the place where the cursor then stands.
//! `check_step` and `next_step` are for the room of the wanted kinds.
#![tactic(auto)]

mod opening;
mod stepping;

use answers::{Place, Refusal, Span};
use kinds::Token;
pub use opening::open;
pub use stepping::{check_step, is_blank, next_at, next_raw_at, next_step};

// What a step answers: a token with its span; no token, at the end of the text and, from eat, where the next token is another; or a refusal.
pub type Step = Result<Option<(Token, Span)>, Refusal>;

// A step's answer, and the place where the cursor then stands.
#[derive(Clone, Copy, Debug, PartialEq, Eq)]
pub struct Moved {
    pub step: Step,
    pub at: Place,
}
