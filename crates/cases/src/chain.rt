//! The sheet of a chain: each item but the last depends on the next one, eight times or more.

// How many words such a sheet has.
pub(crate) fn length(items: u16, edges: u16) -> usize {
    5 + 4 * (usize::from(items) + usize::from(edges))
}

// An item: its name, and its first dependency and how many it has. They are eight for each item before it, and behind the last but one all.
fn item(item: u16, items: u16, edges: u16) -> [u32; 4] {
    let (item, items, edges) = (u32::from(item), u32::from(items), u32::from(edges));
    let first = |item: u32| if item + 1 < items { 8 * item } else { edges };
    let count = first(item + 1).saturating_sub(first(item));
    [2 * item, 2, first(item), count]
}

// A dependency: the name of the item behind its own, and its number as a span.
fn edge(edge: u16, items: u16) -> [u32; 4] {
    let target = u32::from((edge / 8).min(items.saturating_sub(2))) + 1;
    let edge = u32::from(edge);
    [2 * target, 2, edge, edge]
}

// Lays the sheet at the front of some words.
pub(crate) fn lay(words: &mut [u32], items: u16, edges: u16) {
    let items_end = 5 + 4 * u32::from(items);
    let edges_end = items_end + 4 * u32::from(edges);
    let header = [u32::from(items), u32::from(edges), 5, items_end, edges_end];
    let sheet = header
        .into_iter()
        .chain((0..items).flat_map(|n| item(n, items, edges)))
        .chain((0..edges).flat_map(|n| edge(n, items)));
    for (place, word) in words.iter_mut().zip(sheet) {
        *place = word;
    }
}

// Names of two bytes: an item's number, its higher byte first.
pub(crate) fn lay_names(names: &mut [[u8; 2]]) {
    for (name, item) in names.iter_mut().zip(0u16..65535) {
        *name = item.to_be_bytes();
    }
}
