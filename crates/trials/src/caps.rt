//! The sheets at the edges of the caps: 256 items and 2,048 dependencies pass, one more of either is 27, and no items are accepted.
use crate::sheet::{Edge, Sheet};
use answers::Numbers;
use clerk::Sorted;
use std::io;

// The words of the full sheet, in the lent ones: each item but the first needs the one before it eight times, item 1 sixteen times. Out of line,
// so that its dependencies have left the stack when the sheet is sorted.
#[inline(never)]
fn full_words(words: &mut [u32]) -> Option<&[u32]> {
    let mut edges = [Edge::new(1, 0); 2048];
    for target in 0..255 {
        let item = target + 1;
        let at = 8 * usize::from(item);
        edges[at..at + 8].fill(Edge::new(item, target));
    }
    Sheet::new(256, &edges)?.words(2, words)
}

// The names of 256 items, each of two letters.
fn names() -> [u8; 512] {
    let mut names = [0; 512];
    for (name, item) in names.chunks_exact_mut(2).zip(0..=u8::MAX) {
        name.copy_from_slice(&[b'a' + item / 16, b'a' + item % 16]);
    }
    names
}

// The three numbers of an answer, each a write of its own.
fn print_answer(rt: &impl Print, label: &str, sorted: Sorted) -> io::Result<()> {
    let told = Numbers::from(sorted.verdict);
    print!(rt; "{label}: {}", told.number)?;
    print!(rt; ", detail {}", told.detail)?;
    print!(rt; ", settled {}", sorted.settled)?;
    println!(rt)
}

fn print_full(rt: &impl Print) -> io::Result<()> {
    if let Some(words) = full_words(&mut [0; 9221]) {
        let sorted = clerk::toposort(words, &names(), &mut [7; 256]);
        print_answer(rt, "256 items, 2048 dependencies", sorted)?;
    }
    Ok(())
}

// A header alone.
fn print_header(rt: &impl Print, label: &str, items: u32, edges: u32) -> io::Result<()> {
    let sorted = clerk::toposort(&[items, edges, 5, 5, 5], b"", &mut [7; 4]);
    print_answer(rt, label, sorted)
}

pub(crate) fn print_all(rt: &impl Print) -> io::Result<()> {
    print_full(rt)?;
    print_header(rt, "257 items", 257, 0)?;
    print_header(rt, "2049 dependencies", 0, 2049)?;
    print_header(rt, "no items", 0, 0)
}
