//! Screening: what a whole text is looked through for before any token is read.
//! Plain text, in which it finds nothing, is passed over at once. The comment rules pass over it by the same function, `plain_end`; no host needs that.
#![tactic(auto)]

mod plain;
mod screening;

pub use plain::plain_end;
pub use screening::{detect_invalid_input, offence_of};

// What screening finds wrong with a character.
#[derive(Clone, Copy, Debug, PartialEq, Eq)]
pub enum Offence {
    Control,
    Deprecated,
    Forbidden,
}
