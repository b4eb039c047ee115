//! The classes of one character. Up to U+02C1 a short rule answers; above, a search of the tables.
ghost use Rattle.std.specs.Prelude.{◌≡◌};
ghost use Rattle.classes.specs.Classes.{xid_start, xid_continue, keylike_start, keylike_continue, short_start, short_continue};

use crate::ranges::in_ranges;
use crate::tables::{CONTINUES, STARTS};

// XID_Start up to U+02C1.
#[tactic(auto, unfolding(crate::specs::Classes::short_start, crate::specs::Classes::short_starts, terms::specs::Terms::said, terms::specs::Terms::within))]
fn short_start(c: u32) -> bool
    ensures { result ≡ short_start c }
{
    matches!(
        c,
        0x41..=0x5A | 0x61..=0x7A | 0xAA | 0xB5 | 0xBA | 0xC0..=0xD6 | 0xD8..=0xF6 | 0xF8..=0x2C1
    )
}

// XID_Continue up to U+02C1.
#[tactic(auto, unfolding(crate::specs::Classes::short_continue, terms::specs::Terms::within))]
fn short_continue(c: u32) -> bool
    ensures { result ≡ short_continue c }
{
    matches!(c, 0x30..=0x39 | 0x5F | 0xB7) || short_start(c)
}

// Unicode's property XID_Start.
#[tactic(auto, using(crate::proofs::ShortLaws::start_short))]
pub fn xid_start(c: u32) -> bool
    ensures { result ≡ xid_start c }
{
    if c <= 0x2C1 {
        short_start(c)
    } else {
        in_ranges(&STARTS, c)
    }
}

// Unicode's property XID_Continue. One function for both would take the short rule and the table of each: no plainer.
#[tactic(auto, using(crate::proofs::ShortLaws::continue_short))]
pub fn xid_continue(c: u32) -> bool
    ensures { result ≡ xid_continue c }
{
    if c <= 0x2C1 {
        short_continue(c)
    } else {
        in_ranges(&CONTINUES, c)
    }
}

// XID_Start, `_` or `-`. Start and continuation stay two functions, as lex.rs has them.
#[tactic(auto, unfolding(crate::specs::Classes::keylike_start))]
pub fn is_keylike_start(c: u32) -> bool
    ensures { result ≡ keylike_start c }
{
    matches!(c, 0x5F | 0x2D) || xid_start(c)
}

// XID_Continue or `-`.
#[tactic(auto, unfolding(crate::specs::Classes::keylike_continue))]
pub fn is_keylike_continue(c: u32) -> bool
    ensures { result ≡ keylike_continue c }
{
    c == 0x2D || xid_continue(c)
}
