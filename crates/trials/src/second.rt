//! The second way. It places nothing: it looks through the permutations of the items, and follows chains.
use crate::sheet::Sheet;

pub type Permutation = [u32; 3];

// The permutations of three items, as a dictionary has them; those of fewer items stand among them, with the others behind.
const PERMUTATIONS: [Permutation; 6] = [
    [0, 1, 2],
    [0, 2, 1],
    [1, 0, 2],
    [1, 2, 0],
    [2, 0, 1],
    [2, 1, 0],
];

// How many dependencies a chain from item to item may have before it comes again to one where it was.
const LONGEST: u32 = 3;

// Where an item stands.
fn place_of(permutation: &Permutation, item: u32) -> Option<usize> {
    permutation.iter().position(|other| *other == item)
}

impl Sheet<'_> {
    // Items that are not there stand in their own places, and each dependency stands before what needs it.
    fn is_order(&self, permutation: &Permutation) -> bool {
        (0..)
            .zip(permutation)
            .all(|(place, item)| place < self.items || *item == place)
            && self.edges.iter().all(|edge| place_of(permutation, edge.target())
                < place_of(permutation, edge.item()))
    }

    // The first permutation that is an order.
    pub(crate) fn first_order(&self) -> Option<&'static [u32]> {
        let order = PERMUTATIONS.iter().find(|order| self.is_order(order))?;
        order.get(..self.items as usize)
    }

    // The list is one of the permutations that are orders.
    pub(crate) fn has_order(&self, list: &[u32]) -> bool {
        PERMUTATIONS.iter().any(|order| order.get(..self.items as usize) == Some(list)
            && self.is_order(order))
    }

    // Item a needs item b, by a chain of at most so many dependencies.
    fn leads(&self, a: u32, b: u32, most: u32) -> bool {
        if most == 0 {
            return false;
        }
        for edge in self.edges {
            if edge.item() == a && (edge.target() == b || self.leads(edge.target(), b, most - 1)) {
                return true;
            }
        }
        false
    }

    // A chain leads from the item to itself, or to an item that a chain leads from to itself.
    fn waits_for_ever(&self, a: u32) -> bool {
        self.leads(a, a, LONGEST)
            || (0..self.items).any(|b| self.leads(a, b, LONGEST) && self.leads(b, b, LONGEST))
    }

    // How many dependencies have a target that does not.
    pub(crate) fn settled(&self) -> usize {
        self.edges
            .iter()
            .filter(|edge| !self.waits_for_ever(edge.target()))
            .count()
    }

    // The first dependency whose item and target both do.
    pub(crate) fn stuck(&self) -> Option<usize> {
        self.edges.iter().position(|edge| self.waits_for_ever(edge.item())
            && self.waits_for_ever(edge.target()))
    }
}
