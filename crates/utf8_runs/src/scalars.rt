//! Every number up to U+10FFFF: encoded, read back, and screened.
use crate::tally::print_counts;
use answers::{Place, Refusal};
use std::io;

// How many are no scalars, how many read back as themselves behind all of their bytes, how many do not, and what screening says of them.
#[derive(Clone, Copy, Debug, Default, PartialEq, Eq)]
pub struct Found {
    none: u32,
    same: u32,
    other: u32,
    passed: u32,
    four: u32,
    five: u32,
    six: u32,
}

// The bytes of a character read as that character, and nothing is left.
fn reads_back(text: &[u8], c: u32) -> bool {
    match chars::read_at(text, Place(0)) {
        Ok(Some((d, next))) => c == d && next.0 as usize == text.len(),
        _ => false,
    }
}

fn add_one(count: &mut u32) {
    *count = count.saturating_add(1);
}

impl Found {
    pub(crate) fn all() -> Found {
        let mut found = Found::default();
        for c in 0..=0x10FFFF {
            found.count(c);
        }
        found
    }

    fn count(&mut self, c: u32) {
        let mut bytes = [0; 4];
        let size = encoding::encode(c, &mut bytes);
        match size.and_then(|n| bytes.get(..n)) {
            Some(text) => self.count_text(text, c),
            None => add_one(&mut self.none),
        }
    }

    fn count_text(&mut self, text: &[u8], c: u32) {
        add_one(if reads_back(text, c) {
            &mut self.same
        } else {
            &mut self.other
        });
        add_one(match screening::detect_invalid_input(text) {
            Ok(()) => &mut self.passed,
            Err(Refusal::ControlCodepoint(..)) => &mut self.four,
            Err(Refusal::DeprecatedCodepoint(..)) => &mut self.five,
            Err(Refusal::ForbiddenCodepoint(..)) => &mut self.six,
            Err(_) => &mut self.other,
        });
    }

    pub(crate) fn print(&self, rt: &impl Print) -> io::Result<()> {
        print_counts(
            rt,
            &[
                (" none ", u64::from(self.none)),
                (", read back ", u64::from(self.same)),
                (", not ", u64::from(self.other)),
                (", pass screening ", u64::from(self.passed)),
                (", refused by 4 ", u64::from(self.four)),
                (", by 5 ", u64::from(self.five)),
                (", by 6 ", u64::from(self.six)),
            ],
        )
    }
}
