//! Sheets: items with names of one length, and the dependencies that they list.
ghost use Rattle.std.specs.Prelude.{◌<◌, ◌≤◌, length};

// An item needs another one, its target: a byte each, since the full sheet has 2,048 of them on the stack.
#[derive(Clone, Copy, Debug, PartialEq, Eq)]
pub struct Edge {
    item: u8,
    target: u8,
}

impl Edge {
    // Each one between three items.
    pub const ALL: [Edge; 9] = [
        Edge { item: 0, target: 0 },
        Edge { item: 0, target: 1 },
        Edge { item: 0, target: 2 },
        Edge { item: 1, target: 0 },
        Edge { item: 1, target: 1 },
        Edge { item: 1, target: 2 },
        Edge { item: 2, target: 0 },
        Edge { item: 2, target: 1 },
        Edge { item: 2, target: 2 },
    ];

    pub(crate) fn new(item: u8, target: u8) -> Edge {
        Edge { item, target }
    }

    pub(crate) fn item(self) -> u32
        ensures { result < 256 }
    {
        u32::from(self.item)
    }

    pub(crate) fn target(self) -> u32
        ensures { result < 256 }
    {
        u32::from(self.target)
    }
}

#[derive(Clone, Copy, Debug)]
pub struct Sheet<'a> {
    pub items: u32,
    // in the order of the items that list them
    pub edges: &'a [Edge],
    ghost items_in: { items ≤ 256 },
    ghost edges_in: { length edges.now ≤ 2048 },
}

impl<'a> Sheet<'a> {
    // None where there are too many, the items of the dependencies go down, or one that is named is not there.
    pub(crate) fn new(items: u32, edges: &'a [Edge]) -> Option<Sheet<'a>> {
        if items > 256 || edges.len() > 2048 {
            return None;
        }
        let is_listing = edges.is_sorted_by_key(|edge| edge.item)
            && edges
                .iter()
                .all(|edge| edge.item() < items && edge.target() < items);
        is_listing.then_some(Sheet { items, edges })
    }

    // Lays the words of the sheet into the lent ones, where item i is named by the bytes from i times their number on, and gives those that it has.
    // None where they are too few.
    pub(crate) fn words<'b>(&self, name: u8, room: &'b mut [u32]) -> Option<&'b [u32]> {
        let name = u32::from(name);
        let count = self.edges.len() as u32;
        let items_end = 5 + 4 * self.items;
        let edges_end = items_end + 4 * count;
        let words = room.get_mut(..edges_end as usize)?;
        let (header, rows) = words.split_at_mut(5);
        header.copy_from_slice(&[self.items, count, 5, items_end, edges_end]);
        let (item_rows, edge_rows) = rows.split_at_mut(4 * self.items as usize);
        for (row, item) in item_rows.chunks_exact_mut(4).zip(0..=u8::MAX) {
            let first = self.edges.partition_point(|edge| edge.item < item) as u32;
            let listed = self.edges.iter().filter(|edge| edge.item == item).count() as u32;
            row.copy_from_slice(&[u32::from(item) * name, name, first, listed]);
        }
        for ((row, edge), k) in edge_rows.chunks_exact_mut(4).zip(self.edges).zip(0..) {
            row.copy_from_slice(&[edge.target() * name, name, k, k]);
        }
        Some(words)
    }
}
