//! The classes of characters: XID_Start and XID_Continue for every code point, and the keylike characters of identifiers.
//! Any 32-bit number may be asked about; one above U+10FFFF is of no class.
#![tactic(auto)]

mod characters;
mod ranges;
mod runs;
mod tables;

pub use characters::{is_keylike_continue, is_keylike_start, xid_continue, xid_start};
pub use runs::keylike_end;
