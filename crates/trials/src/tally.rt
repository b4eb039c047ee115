//! What is counted of the sheets.
use crate::sheet::Sheet;
use answers::Refusal;
use clerk::Sorted;
use std::io;

// As many words as the largest sheet that is tried has, one of three items and five dependencies.
const SHEET_WORDS: usize = 37;

// How many sheets were tried, how many got an order, how many 30; how many lists were checked and how many accepted; and how many answers differ.
#[derive(Clone, Copy, Debug, Default, PartialEq, Eq)]
pub struct Tally {
    sheets: u32,
    orders: u32,
    cycles: u32,
    lists: u32,
    accepted: u32,
    differ: u32,
}

// None of these counts comes near its end. `utf8_runs` has the same line: the two programs share no crate for it.
fn add_one(count: &mut u32) {
    *count = count.saturating_add(1);
}

// The answer and the four words of the slice are those of the second way; four sevens stood there before.
fn agrees(sheet: &Sheet<'_>, sorted: Sorted, written: &[u32; 4]) -> bool {
    let mut wanted = [7; 4];
    let is_told = match (sheet.first_order(), sorted.verdict) {
        (Some(order), Ok(())) => {
            for (word, item) in wanted.iter_mut().zip(order) {
                *word = *item;
            }
            true
        }
        (None, Err(Refusal::TypeCycle(at))) => sheet.stuck() == Some(at as usize),
        _ => false,
    };
    is_told && sorted.settled as usize == sheet.settled() && *written == wanted
}

impl Tally {
    // Tries one sheet, and each list of up to three words as its load order, the shorter ones first.
    pub(crate) fn count(&mut self, sheet: Sheet<'_>) {
        let mut room = [0; SHEET_WORDS];
        let Some(words) = sheet.words(1, &mut room) else {
            return;
        };
        let mut order = [7; 4];
        let sorted = clerk::toposort(words, b"abc", &mut order);
        add_one(&mut self.sheets);
        add_one(match sheet.first_order() {
            Some(_) => &mut self.orders,
            None => &mut self.cycles,
        });
        if !agrees(&sheet, sorted, &order) {
            add_one(&mut self.differ);
        }
        let mut list = [0; 3];
        for size in 0..=3 {
            self.count_lists(&sheet, words, &mut list[..size], 0);
        }
    }

    // Checks the list with each way to choose its words from a place on.
    fn count_lists(&mut self, sheet: &Sheet<'_>, words: &[u32], list: &mut [u32], at: usize) {
        if at >= list.len() {
            self.count_list(sheet, words, list);
            return;
        }
        for word in 0..4 {
            list[at] = word;
            self.count_lists(sheet, words, list, at + 1);
        }
    }

    // Checks one list.
    fn count_list(&mut self, sheet: &Sheet<'_>, words: &[u32], list: &[u32]) {
        add_one(&mut self.lists);
        if sheet.has_order(list) {
            add_one(&mut self.accepted);
        }
        if !sheet.agrees_on_list(list, planner::check_order(words, b"abc", list)) {
            add_one(&mut self.differ);
        }
    }

    // Each count is a write of its own: an output that has no room for all of them gets the first ones.
    pub(crate) fn print(&self, rt: &impl Print) -> io::Result<()> {
        print!(rt; "sheets {}", self.sheets)?;
        print!(rt; ", orders {}", self.orders)?;
        print!(rt; ", cycles {}", self.cycles)?;
        print!(rt; ", lists {}", self.lists)?;
        print!(rt; ", accepted {}", self.accepted)?;
        print!(rt; ", answers that differ {}", self.differ)?;
        println!(rt)
    }
}
