//! A list, checked as the load order of a sheet. The second way to judge it: it is one of the permutations that are orders, word by word; or its
//! words are gone through by hand.
use crate::sheet::Sheet;
use answers::{Refusal, Verdict};

impl Sheet<'_> {
    // A word that is no item, repeats one that stands before it, or is an item that needs one that does not stand before it.
    fn is_fault(&self, before: &[u32], word: u32) -> bool {
        word >= self.items
            || before.contains(&word)
            || self.edges.iter().any(|edge| edge.item() == word && !before.contains(&edge.target()))
    }

    // The first index that is at fault; the length where there is none, which is what 33 tells of a list that is too short.
    fn fault(&self, list: &[u32]) -> usize {
        for (k, word) in list.iter().enumerate() {
            if self.is_fault(&list[..k], *word) {
                return k;
            }
        }
        list.len()
    }

    // The verdict on a list is that of the second way.
    pub(crate) fn agrees_on_list(&self, list: &[u32], verdict: Verdict) -> bool {
        let is_order = self.has_order(list);
        match verdict {
            Ok(()) => is_order,
            Err(Refusal::NotAnOrder(at)) => !is_order && at as usize == self.fault(list),
            Err(_) => false,
        }
    }
}
