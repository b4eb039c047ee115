//! What is counted of some texts: how many read as a character, how many as ill-formed, the sum of the characters and of the next places.
use answers::Place;
use std::io;

#[derive(Clone, Copy, Debug, Default, PartialEq, Eq)]
pub struct Tally {
    characters: u64,
    ill: u64,
    ends: u64,
    sum: u64,
    places: u64,
}

impl Tally {
    // Counts what stands at the start of one more text.
    pub(crate) fn count(&mut self, text: &[u8]) {
        match chars::read_at(text, Place(0)) {
            Ok(None) => self.ends = self.ends.saturating_add(1),
            Err(_) => self.ill = self.ill.saturating_add(1),
            Ok(Some((c, next))) => {
                self.characters = self.characters.saturating_add(1);
                self.sum = self.sum.saturating_add(u64::from(c));
                self.places = self.places.saturating_add(u64::from(next.0));
            }
        }
    }

    pub(crate) fn print(&self, rt: &impl Print) -> io::Result<()> {
        print_counts(
            rt,
            &[
                (" characters ", self.characters),
                (", ill-formed ", self.ill),
                (", ends ", self.ends),
                (", sum ", self.sum),
                (", next places ", self.places),
            ],
        )
    }
}

// The counts of a line, each a write of its own: an output that has no room for all of them gets the first ones.
pub(crate) fn print_counts(rt: &impl Print, counts: &[(&str, u64)]) -> io::Result<()> {
    for (label, count) in counts {
        print!(rt; "{label}{count}")?;
    }
    println!(rt)
}
