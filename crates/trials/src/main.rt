//! Runs the clerk over every sheet of up to three items and five dependencies, in every listing, and compares with a second way to find the answer:
//! the first of the items' permutations, in the order of a dictionary, that has each dependency before what needs it; and chains followed by hand
//! where there is none. For each sheet it checks every list of up to three words as a load order, and again compares with a second way. Then the
//! sheets at the edges of the caps. `sheet.rt` has the sheets, `second.rt` is the second way, `lists.rt` has that for lists.
#![tactic(auto)]

ghost use Rattle.std.specs.Prelude.{◌≤◌, length};

mod caps;
mod lists;
mod second;
mod sheet;
mod tally;

use sheet::{Edge, Sheet};
use std::io;
use tally::Tally;

// Tries each listing that begins with so many of these dependencies and has others behind them while there is room. They are too many to be kept.
fn try_listings(tally: &mut Tally, edges: &mut [Edge], count: usize)
    requires { count ≤ length edges.old }
{
    for items in 0..4 {
        if let Some(sheet) = Sheet::new(items, &edges[..count]) {
            tally.count(sheet);
        }
    }
    if count < edges.len() {
        for edge in Edge::ALL {
            edges[count] = edge;
            try_listings(tally, edges, count + 1);
        }
    }
}

fn main(rt: HostRuntime) -> io::Result<()> {
    let mut tally = Tally::default();
    try_listings(&mut tally, &mut [Edge::new(0, 0); 5], 0);
    tally.print(&rt)?;
    caps::print_all(&rt)
}
