//! The check of a list against edges: each edge is looked at once.
ghost use Rattle.std.specs.Prelude.{◌≡◌};
ghost use Rattle.clerk.specs.inner.Listed.{edges_in};
ghost use Rattle.planner.specs.Proposed.{first_fault, list_verdict};
ghost use Rattle.planner.specs.inner.Seats.{sooner, Filled};

use crate::seats;
use crate::seats::Seats;
use answers::{Refusal, Verdict};
use clerk::Edges;

// The sooner fault: the item's index where its target does not stand before it, or the fault that is known.
#[tactic(auto, unfolding(crate::specs::inner::Seats::sooner))]
fn sooner(item: Option<u8>, target: Option<u8>, fault: usize) -> usize
    ensures { result ≡ sooner item target fault }
{
    let Some(item) = item else {
        return fault;
    };
    match target {
        Some(target) if target < item => fault,
        _ => fault.min(usize::from(item)),
    }
}

// The first index at fault: where the seats end, or sooner where an edge's target does not stand before its item. No Option: the length of a list
// without a fault is what 33 tells of it (`list_verdict`).
fn first_fault(s: &Seats, edges: Edges, list: &[u32]) -> usize
    requires { Filled edges.items list.now s.now }
    ensures { result ≡ first_fault (edges_in edges.entry) edges.entry.items list.now }
{
    let mut fault = s.end;
    for (item, target) in edges.owners.iter().zip(edges.targets) {
        fault = sooner(s.index[*item as usize], s.index[*target as usize], fault);
    }
    fault
}

// Whether the list is a load order of the items, else 33.
pub(crate) fn check_list(edges: Edges, list: &[u32]) -> Verdict
    ensures { result ≡ list_verdict (edges_in edges.entry) edges.entry.items list.now }
{
    let s = seats::seat(list, edges.items);
    let fault = first_fault(&s, edges, list);
    if list.len() == edges.items && fault == edges.items {
        return Ok(());
    }
    Err(Refusal::NotAnOrder(fault as u32))
}
