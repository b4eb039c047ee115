//! Encoding: which numbers are characters, and the bytes of a character (RFC 3629).
#![tactic(auto)]

mod encoding;

pub use encoding::{encode, is_scalar, width};
