//! Runs the character rules over every short text that RFC 3629's table can tell apart, and over every scalar, and prints counts.
//! `tools/utf8_counts.py` gives the same lines from another decoder.
#![tactic(auto)]

mod scalars;
mod shorts;
mod tally;

use scalars::Found;
use shorts::{EDGES, every_byte, texts_of};
use std::io;

fn main(rt: HostRuntime) -> io::Result<()> {
    let every = every_byte();
    print!(rt; "one byte:")?;
    texts_of::<1>(&[]).print(&rt)?;
    print!(rt; "two bytes:")?;
    texts_of::<2>(&every).print(&rt)?;
    print!(rt; "three bytes:")?;
    texts_of::<3>(&EDGES).print(&rt)?;
    print!(rt; "four bytes:")?;
    texts_of::<4>(&EDGES).print(&rt)?;
    print!(rt; "scalars:")?;
    Found::all().print(&rt)
}
