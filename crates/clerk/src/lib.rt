//! The clerk's order: from a dependency sheet with its names to a load order, or to a refusal. `specs/Sorted.antt` says what comes back.
#![tactic(auto)]

mod placing;
mod sorting;

ghost use Rattle.std.specs.Prelude.{◌≡◌, ◌≤◌};
ghost use Rattle.clerk.specs.Sorted.{sorted};
ghost use Rattle.clerk.specs.inner.Rows.{Rows};

use answers::{Refusal, Verdict};

// The verdict, and with 0 and 30 how many listed dependencies have a target that was placed; else 0.
#[derive(Clone, Copy, Debug, PartialEq, Eq)]
pub struct Sorted {
    pub verdict: Verdict,
    pub settled: u32,
}

// The edges of so many items: edge k is one of item owners[k], and its target is item targets[k]. Two tables, as `sheets::resolve` promises them.
#[derive(Clone, Copy)]
pub struct Edges<'a> {
    pub items: usize,
    pub owners: &'a [u8],
    pub targets: &'a [u8],
    pub ghost few: { items ≤ 256 },
    pub ghost rows: { Rows owners.now targets.now },
}

// The state of the placing. What it says of the edges (`Tracks`) is no ghost field, for it does not hold at each turn of the loop of `place`.
#[derive(Drop)]
pub struct State {
    // of each item, how many of its edges have a target that is not placed; 4,096 more where the item itself is placed
    // (one array says both, so that the scan for the next item goes over one alone: a flag in a second would be scanned too)
    pub left: [u16; 256],
    // the items that are placed, in their order: an array and how much of it is used, for there is no heap
    pub order: [u8; 256],
    pub placed: usize,
    // the edges whose target is placed
    pub settled: u32,
}

// The clerk's order of the sheet's items, written to the front of `order` where every item can be placed.
pub fn toposort(sheet: &[u32], names: &[u8], order: &mut [u32]) -> Sorted
    ensures { (result, order.new) ≡ sorted sheet.now names.now order.old }
{
    let mut owners = [0u8; 2048];
    let mut targets = [0u8; 2048];
    if let Err(refusal) = sheets::resolve(sheet, names, &mut owners, &mut targets) {
        return sorting::refused(refusal);
    }
    let items = sheet[0] as usize;
    let listed = sheet[1] as usize;
    if order.len() < items {
        return sorting::refused(Refusal::NoRoom(sheet[0]));
    }
    let edges = Edges {
        items,
        owners: &owners[..listed],
        targets: &targets[..listed],
    };
    sorting::sort(edges, order)
}
