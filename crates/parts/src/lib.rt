//! The parts of an identifier, between `-`. For the room `names`; no host needs it.
#![tactic(auto)]

mod parts;

pub use parts::check_parts;

// What a character is to an identifier.
#[derive(Clone, Copy, Debug, PartialEq, Eq)]
pub enum Letter {
    Dash,
    Digit,
    Upper,
    Lower,
    Other,
}

// Where in the parts of an identifier the walk stands: at the start of the first part, at the start of a later one,
// in a part that has digits alone so far, or in one whose letters are of this case.
#[derive(Clone, Copy, Debug, PartialEq, Eq)]
pub enum Part {
    First,
    Next,
    Digits,
    Upper,
    Lower,
}
