//! From the placing to the answer.
ghost use Rattle.std.specs.Prelude.{◌≡◌, ◌≤◌, length, Err};
ghost use Rattle.terms.specs.Terms.{over};
ghost use Rattle.clerk.specs.Sorted as T;
ghost use Rattle.clerk.specs.inner.Listed.{edges_in};
ghost use Rattle.clerk.specs.inner.State.{placed_of};

use crate::{Edges, Sorted, State};
use answers::Refusal;

// A refusal before the placing has no settled count. No From: 30 has one.
pub(crate) fn refused(refusal: Refusal) -> Sorted
    ensures { result ≡ T.answer (Err refusal) 0 }
{
    Sorted {
        verdict: Err(refusal),
        settled: 0,
    }
}

// The items that are placed are written to the front of the slice.
fn write_order(s: &State, order: &mut [u32])
    requires { (s.now.placed ≤ length order.old) × (s.now.placed ≤ 256) }
    ensures { order.new ≡ over (placed_of s.now) order.old }
{
    // by index: tried as `order.iter_mut().zip(..)`, whose turns have no index that its invariant can name, and the proof did not close
    for i in 0..s.placed {
        order[i] = u32::from(s.order[i]);
    }
}

// The clerk's order, written where every item is placed.
pub(crate) fn sort(edges: Edges, order: &mut [u32]) -> Sorted
    requires { edges.items ≤ length order.old }
    ensures { (result, order.new) ≡ T.placed (edges_in edges.entry) edges.entry.items order.old }
{
    let s = State::run(edges);
    let settled = s.settled;
    if s.placed == edges.items {
        write_order(&s, order);
        return Sorted {
            verdict: Ok(()),
            settled,
        };
    }
    let edge = s.first_stuck(edges).unwrap();
    Sorted {
        verdict: Err(Refusal::TypeCycle(edge as u32)),
        settled,
    }
}
