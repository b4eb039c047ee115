//! Load orders that somebody proposes: one is checked against a dependency sheet, and our own proposer offers one. `specs/Proposed.antt` says what
//! comes back.
#![tactic(auto)]

mod checking;
mod seats;

ghost use Rattle.std.specs.Prelude.{◌≡◌};
ghost use Rattle.planner.specs.Proposed.{checked_order, proposed};

use answers::Verdict;
use clerk::{Edges, Sorted};

// The checks of the sheet up to 29; then whether the list is a load order of its items, else 33 with the first index at fault.
pub fn check_order(sheet: &[u32], names: &[u8], list: &[u32]) -> Verdict
    ensures { result ≡ checked_order sheet.now names.now list.now }
{
    let mut owners = [0u8; 2048];
    let mut targets = [0u8; 2048];
    sheets::resolve(sheet, names, &mut owners, &mut targets)?;
    let listed = sheet[1] as usize;
    let edges = Edges {
        items: sheet[0] as usize,
        owners: &owners[..listed],
        targets: &targets[..listed],
    };
    checking::check_list(edges, list)
}

// A load order for every sheet that the sorter accepts, else the sorter's refusal. It is no more than a call of the sorter: what is offered is the
// clerk's order.
#[tactic(auto, unfolding(crate::specs::Proposed::proposed))]
pub fn propose(sheet: &[u32], names: &[u8], list: &mut [u32]) -> Sorted
    ensures { (result, list.new) ≡ proposed sheet.now names.now list.old }
{
    clerk::toposort(sheet, names, list)
}
