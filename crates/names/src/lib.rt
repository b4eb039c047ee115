//! Identifiers: plain and explicit, as a part of the caller's own text. What their parts are is said by the room `parts`.
#![tactic(auto)]

mod single_case;
mod spans;

use answers::{Place, Refusal};
pub use spans::{parse_explicit_id, parse_id, validate_explicit_id, validate_id};

// An identifier: from one place of the text to another.
#[derive(Clone, Copy, Debug, PartialEq, Eq)]
pub struct Id {
    pub first: Place,
    pub last: Place,
}

// The identifier that a span names, or the refusal.
pub type Named = Result<Id, Refusal>;
