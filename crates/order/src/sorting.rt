//! The order that the clerk gives, or that our proposer offers, or what is wrong.
use crate::lists::List;
use crate::sheet::{Sheet, lay};
use crate::wrong::{Wrong, place};
use answers::Refusal;
use clerk::Sorted;
use files::{InNumbers, InWords, Source};
use std::io;
use std::io::Write;

// The items by their names.
fn print_order(out: &mut impl Write, list: &List, order: &[u32]) -> io::Result<()> {
    for &index in order.iter().take(list.items().len()) {
        if let Some(item) = list.items().get(index as usize) {
            out.write_all(item.name.bytes(list.text))?;
            writeln!(out)?;
        }
    }
    Ok(())
}

// The dependency that an item is refused for.
fn print_need(
    out: &mut impl Write,
    file: &[u8],
    list: &List,
    index: u32,
    refusal: Refusal,
) -> io::Result<()> {
    if let Some((item, need)) = list.need(index as usize) {
        place(out, file, need.line(list.text))?;
        write!(out, "{}: ", InWords(refusal))?;
        out.write_all(item.name.bytes(list.text))?;
        write!(out, " needs ")?;
        out.write_all(need.bytes(list.text))?;
    }
    Ok(())
}

/// What is wrong with the sheet of a list, at the item or the dependency that it is about.
pub(crate) fn refuse<'a>(
    out: &mut impl Write,
    file: &'a [u8],
    list: &List,
    refusal: Refusal,
    settled: u32,
) -> Result<(), Wrong<'a>> {
    match refusal {
        Refusal::RepeatedName(index) => {
            if let Some(item) = list.items().get(index as usize) {
                place(out, file, item.name.line(list.text))?;
                write!(out, "{}: ", InWords(refusal))?;
                out.write_all(item.name.bytes(list.text))?;
            }
        }
        Refusal::ItemNotFound(index) => print_need(out, file, list, index, refusal)?,
        // The first dependency that could not be settled and whose item could not be placed; it need not lie on the circle itself.
        Refusal::TypeCycle(index) => {
            print_need(out, file, list, index, refusal)?;
            write!(out, ", which cannot be placed; settled {settled}")?;
        }
        _ => return Err(Wrong::Whole { file, refusal }),
    }
    Ok(writeln!(out, " {}", InNumbers(refusal))?)
}

/// Prints the order that a planner gives, and answers how many dependencies it settles; or prints what is wrong in its place, and answers `None`.
pub(crate) fn print<'a, P>(
    out: &mut impl Write,
    source: &Source<'a>,
    planner: P,
) -> Result<Option<u32>, Wrong<'a>>
where
    P: FnOnce(&[u32], &[u8], &mut [u32]) -> Sorted,
    requires { P.IsAlwaysCallable planner }
{
    let mut list = List::new(source.text);
    list.read(source.name)?;
    let mut sheet = Sheet::new();
    lay(&mut sheet, &list);
    let mut order = [0; 256];
    let sorted = planner(sheet.as_slice(), list.text, &mut order);
    if let Err(refusal) = sorted.verdict {
        refuse(out, source.name, &list, refusal, sorted.settled)?;
        return Ok(None);
    }
    print_order(out, &list, &order)?;
    Ok(Some(sorted.settled))
}
