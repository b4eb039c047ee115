//! What no line holds: the caps, each tried at the last input that passes and at the first that does not.
use crate::answer::Answer;
use crate::chain;
use crate::fields::{BYTES, WORDS};
use crate::memory::{fill, is_as_wanted};
use crate::pieces::print;
use crate::tally::{EDGES, Tally};
use listing::Listing;

const OFFSET: u32 = 7;

// The kind of `;`.
const SEMICOLON: u32 = 6;

// The three numbers of a call that is refused.
fn refused(number: u32, position: u32, detail: u32) -> Answer {
    Answer {
        number,
        position,
        detail,
        ..Answer::default()
    }
}

// Lists a text into a table, which should then have these rows.
fn lists(text: &[u8], answer: Answer, rows: &[u32]) -> bool {
    let mut table = [0; WORDS];
    fill(&mut table);
    let listed = listing::list(text, OFFSET, Listing::Raw, &mut table);
    Answer::from(listed) == answer && is_as_wanted(&table, rows)
}

// The rows of semicolons.
fn lay_rows(rows: &mut [u32]) {
    let all = (0..4096u16).flat_map(|row| {
        let start = OFFSET + u32::from(row);
        [SEMICOLON, start, start + 1]
    });
    for (place, word) in rows.iter_mut().zip(all) {
        *place = word;
    }
}

// 4,096 rows pass, and fill a table; 4,097 rows are too many, and a refusal behind them wins.
#[inline(never)]
fn try_rows() -> [bool; 3] {
    let mut text = [b';'; 4098];
    text[4097] = b'?';
    let mut rows = [0; WORDS];
    lay_rows(&mut rows);
    [
        lists(&text[..4096], Answer::from(4096), &rows),
        lists(&text[..4097], refused(24, 0, 4097), &[]),
        lists(&text, refused(7, OFFSET + 4097, 63), &[]),
    ]
}

fn opens(text: &[u8], offset: u32, answer: Answer) -> bool {
    Answer::from(steps::open(text, offset)) == answer
}

// 65,536 bytes pass, and one more does not; so does the map's last position, 4,294,967,294.
#[inline(never)]
fn try_lengths() -> [bool; 4] {
    let blanks = [b' '; BYTES];
    [
        opens(&blanks[..65536], OFFSET, Answer::default()),
        opens(&blanks, OFFSET, refused(1, 0, 65537)),
        opens(&blanks[..65536], 4294901758, Answer::default()),
        opens(&blanks[..65536], 4294901759, refused(2, 0, 0)),
    ]
}

// Sorts a chain of so many items and dependencies into memory that should then have this order.
fn sorts(items: u16, edges: u16, answer: Answer, wanted: &[u32]) -> bool {
    let mut sheet = [0; WORDS];
    chain::lay(&mut sheet, items, edges);
    let mut names = [[0; 2]; 257];
    chain::lay_names(&mut names);
    let mut order = [0; 300];
    fill(&mut order);
    let sheet = sheet.get(..chain::length(items, edges)).unwrap_or_default();
    let sorted = clerk::toposort(sheet, names.as_flattened(), &mut order);
    Answer::from(sorted) == answer && is_as_wanted(&order, wanted)
}

// 257 items are too many, and so are 2,049 dependencies; none at all pass, and write nothing. 256 items and 2,048 dependencies pass: the last item
// comes first.
#[inline(never)]
fn try_sheets() -> [bool; 4] {
    let mut last_first = [0; 256];
    for (place, item) in last_first.iter_mut().rev().zip(0..256) {
        *place = item;
    }
    [
        sorts(257, 2048, refused(27, 0, 0), &[]),
        sorts(256, 2049, refused(27, 0, 0), &[]),
        sorts(0, 0, Answer::default(), &[]),
        sorts(256, 2048, Answer::from(2048), &last_first),
    ]
}

// An edge that differs is named by its number.
pub(crate) fn try_all(rt: &impl Print, tally: &mut Tally) {
    let tries = try_rows()
        .into_iter()
        .chain(try_lengths())
        .chain(try_sheets());
    for (n, is_same) in (1u32..).zip(tries) {
        tally.edges.add(is_same);
        if !is_same {
            print(rt, format_args!("edge {n} differs: {EDGES}\n"));
        }
    }
}
