//! The placing: one item after another, and at each the edges that name it are scanned.
ghost use Rattle.std.specs.Prelude.{◌≡◌, false, ◌<◌, ◌≤◌, length, get_or, ltb};
ghost use Rattle.terms.specs.Terms.{first, member};
ghost use Rattle.graph.specs.Order.{first_stuck};
ghost use Rattle.sheets.specs.inner.Found.{before};
ghost use Rattle.clerk.specs.inner.Listed.{edges_in};
ghost use Rattle.clerk.specs.inner.State.{placed_of, free, Tracks, Placed, Blank, Ran};

use crate::{Edges, State};

impl State {
    // Nothing is placed, and nothing counted.
    fn blank() -> Self
        ensures { Blank result }
    {
        State {
            left: [0; 256],
            order: [0; 256],
            placed: 0,
            settled: 0,
        }
    }

    // No item is placed: each item's count is its edges.
    fn start(edges: Edges) -> Self
        ensures { Tracks (edges_in edges.entry) result × (result.placed ≡ 0) }
    {
        let mut s = State::blank();
        for o in edges.owners {
            s.left[*o as usize] += 1;
        }
        s
    }

    // The earliest item below n whose count is 0.
    fn next(&self, n: usize) -> Option<usize>
        requires { n ≤ 256 }
        ensures { result ≡ before n (first (free self.now.left) 0 n) }
    {
        self.left[..n].iter().position(|count| *count == 0)
    }

    // Item x is placed: each edge that names it is taken off its item's count, and settled.
    fn place(&mut self, edges: Edges, x: u8)
        requires { Tracks (edges_in edges) self.old × (self.old.placed < 256) × (member x (placed_of self.old) ≡ false) }
        ensures { Placed (edges_in edges.entry) self.old x self.new }
    {
        // no `for`: each search goes on behind the place that the one before it found
        let mut from = 0;
        while let Some(k) = sheets::byte_from(edges.targets, from, x) {
            self.left[edges.owners[k] as usize] -= 1;
            self.settled += 1;
            from = k + 1;
        }
        self.left[x as usize] += 4096;
        self.order[self.placed] = x;
        self.placed += 1;
    }

    // Items are placed until none can be. No `for`: how many turns that takes is what is found.
    pub(crate) fn run(edges: Edges) -> Self
        ensures { Ran (edges_in edges.entry) edges.entry.items result }
    {
        let mut s = State::start(edges);
        while s.placed < edges.items {
            let Some(i) = s.next(edges.items) else {
                return s;
            };
            s.place(edges, i as u8);
        }
        s
    }

    fn is_unplaced(&self, i: u8) -> bool
        ensures { result ≡ ltb (get_or self.now.left i 0) 4096 }
    {
        self.left[i as usize] < 4096
    }

    // The first edge whose item and target both stayed unplaced.
    pub(crate) fn first_stuck(&self, edges: Edges) -> Option<usize>
        requires { Tracks (edges_in edges) self.now }
        ensures { result ≡ before (length (edges_in edges.entry)) (first_stuck (edges_in edges.entry) (placed_of self.now)) }
    {
        let mut rows = edges.owners.iter().zip(edges.targets);
        rows.position(|(item, target)| self.is_unplaced(*item) && self.is_unplaced(*target))
    }
}
