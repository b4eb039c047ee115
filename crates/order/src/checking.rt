//! A proposed order, checked against a list. What is wrong with it is said by the names of its items.
use crate::kept::Kept;
use crate::lists::{List, MOST_ITEMS, Order};
use crate::sheet::{Sheet, lay};
use crate::sorting::refuse;
use crate::words::{Names, number};
use crate::wrong::{Wrong, place};
use answers::Refusal;
use files::{InNumbers, InWords, Source};
use std::io;
use std::io::Write;

// The index of the item of each name; the number of items where it names none, which the checker takes as a word that is no item.
fn indices(list: &List<'_>, names: Names<'_>) -> Kept<u32, MOST_ITEMS> {
    let none = list.items().len();
    let mut indices = Kept::new();
    for word in names.words {
        indices.push(number(list.index_of(word.bytes(names.text)).unwrap_or(none)));
    }
    indices
}

// The list goes on where the order ends.
fn print_short(
    out: &mut impl Write,
    file: &[u8],
    order: Names<'_>,
    list: &List<'_>,
    refusal: Refusal,
) -> io::Result<()> {
    out.write_all(file)?;
    write!(out, ": {}: it ends without ", InWords(refusal))?;
    let lacking = list
        .items()
        .iter()
        .find(|item| !order.has(item.name.bytes(list.text)));
    if let Some(item) = lacking {
        out.write_all(item.name.bytes(list.text))?;
    }
    writeln!(out, " {}", InNumbers(refusal))
}

// A name that is no item or comes again, or an item whose dependency does not stand before it.
fn print_fault(
    out: &mut impl Write,
    before: Names<'_>,
    name: &[u8],
    list: &List<'_>,
) -> io::Result<()> {
    let Some(item) = list.item_of(name) else {
        return write!(out, " is no item of the list");
    };
    if before.has(name) {
        return write!(out, " comes again");
    }
    write!(out, " needs ")?;
    let unmet = list
        .needs_of(item)
        .iter()
        .find(|need| !before.has(need.bytes(list.text)));
    if let Some(need) = unmet {
        out.write_all(need.bytes(list.text))?;
    }
    write!(out, ", which does not stand before it")
}

// The first fault of an order is at an index of it.
fn print_wrong(
    out: &mut impl Write,
    file: &[u8],
    order: Names<'_>,
    list: &List<'_>,
    refusal: Refusal,
    index: usize,
) -> io::Result<()> {
    let Some(word) = order.words.get(index) else {
        return print_short(out, file, order, list, refusal);
    };
    let name = word.bytes(order.text);
    place(out, file, word.line(order.text))?;
    write!(out, "{}: ", InWords(refusal))?;
    out.write_all(name)?;
    print_fault(out, order.before(index), name, list)?;
    writeln!(out, " {}", InNumbers(refusal))
}

// A frame of its own, since an order that is wrong by itself is not to have room for the list and its sheet.
#[inline(never)]
fn check_by<'a>(
    out: &mut impl Write,
    order: &Source<'a>,
    names: Names<'_>,
    source: &Source<'a>,
) -> Result<(), Wrong<'a>> {
    let mut list = List::new(source.text);
    list.read(source.name)?;
    let mut sheet = Sheet::new();
    lay(&mut sheet, &list);
    // of a list that is too long no name is looked up: it is refused whatever the order is
    let asked = if list.is_too_long() {
        names.before(0)
    } else {
        names
    };
    let verdict = planner::check_order(
        sheet.as_slice(),
        list.text,
        indices(&list, asked).as_slice(),
    );
    match verdict {
        Ok(()) => {
            out.write_all(order.name)?;
            Ok(writeln!(out, ": a load order of {} items", list.items().len())?)
        }
        // 33 is about the order, the other refusals are about the list.
        Err(refusal @ Refusal::NotAnOrder(index)) => {
            Ok(print_wrong(out, order.name, names, &list, refusal, index as usize)?)
        }
        Err(refusal) => refuse(out, source.name, &list, refusal, 0),
    }
}

/// Says whether an order is a load order of a list.
pub(crate) fn check<'a>(
    out: &mut impl Write,
    order: &Source<'a>,
    source: &Source<'a>,
) -> Result<(), Wrong<'a>> {
    let proposed = Order::read(order.name, order.text)?;
    check_by(out, order, proposed.names(), source)
}
