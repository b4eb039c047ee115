//! The dependency sheet of a list: a header of five words, then rows of four, of the items first and of what they need behind them. Its names are
//! the text of the list.
use crate::kept::Kept;
use crate::lists::{List, MOST_ITEMS, MOST_NEEDS};
use crate::words::number;

// As many as the longest list that is kept takes.
const MOST_WORDS: usize = 5 + 4 * MOST_ITEMS + 4 * MOST_NEEDS;

/// Words of a sheet.
pub type Sheet = Kept<u32, MOST_WORDS>;

// How many items and dependencies there are; and where the rows of each start, and end.
fn header(items: u32, needs: u32) -> [u32; 5] {
    let first_need = items.saturating_mul(4).saturating_add(5);
    let end = needs.saturating_mul(4).saturating_add(first_need);
    [items, needs, 5, first_need, end]
}

/// Lays the sheet of a list.
pub(crate) fn lay(sheet: &mut Sheet, list: &List<'_>) {
    sheet.extend(&header(number(list.items().len()), number(list.needs().len())));
    for item in list.items() {
        let name = item.name;
        sheet.extend(&[
            name.start(),
            name.length(),
            u32::from(item.first),
            u32::from(item.count),
        ]);
    }
    for need in list.needs() {
        sheet.extend(&[need.start(), need.length(), need.start(), need.start()]);
    }
}
