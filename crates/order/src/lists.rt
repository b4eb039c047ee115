//! A list of items with what each needs, and an order, which is names alone.
use crate::kept::Kept;
use crate::words::{Names, Part, Word, behind, short};
use crate::wrong::{Fault, Wrong};

/// One more than a sheet may have, by which it is too long; an order of more names is wrong by the first of them. What stands behind so many is
/// read, since a line may be wrong, but not kept.
pub const MOST_ITEMS: usize = 257;

pub const MOST_NEEDS: usize = 2049;

/// An item: its name, and where among the needs of all items its own start, and how many they are.
#[derive(Clone, Copy, Debug, Default)]
pub struct Item {
    pub name: Word,
    pub first: u16,
    pub count: u16,
}

/// The items of a list, in their order, and what they need.
#[derive(Debug, Drop)]
pub struct List<'t> {
    pub text: &'t [u8],
    items: Kept<Item, MOST_ITEMS>,
    needs: Kept<Word, MOST_NEEDS>,
}

/// The names of an order.
#[derive(Debug, Drop)]
pub struct Order<'t> {
    pub text: &'t [u8],
    names: Kept<Word, MOST_ITEMS>,
}

// Hands each line that is not blank on, without its comment, up to the first that is wrong.
fn each_line<'a, 't, F>(file: &'a [u8], text: &'t [u8], mut take: F) -> Result<(), Wrong<'a>>
where
    F: FnMut(Part<'t>) -> Result<(), Fault>,
    requires { F.IsAlwaysCallable take }
{
    let mut start = 0;
    for (line, bytes) in (1..).zip(text.split(|&b| b == b'\n')) {
        let part = Part::line(bytes, start);
        start = behind(start, bytes);
        if !part.is_blank() {
            take(part).map_err(|fault| Wrong::Line { file, line, fault })?;
        }
    }
    Ok(())
}

impl<'t> Order<'t> {
    pub(crate) fn read<'a>(file: &'a [u8], text: &'t [u8]) -> Result<Order<'t>, Wrong<'a>> {
        let mut names = Kept::new();
        each_line(file, text, |line| {
            if line.bytes.contains(&b':') {
                return Err(Fault::ColonInOrder);
            }
            names.push_words(line);
            Ok(())
        })?;
        Ok(Order { text, names })
    }

    pub(crate) fn names(&self) -> Names<'_> {
        Names {
            text: self.text,
            words: self.names.as_slice(),
        }
    }
}

// The name before the colon of a line: one, and no second.
fn name_of(before: Part<'_>) -> Result<Word, Fault> {
    let mut names: Kept<Word, 2> = Kept::new();
    names.push_words(before);
    match names.as_slice() {
        [] => Err(Fault::NoName),
        [name] => Ok(*name),
        _ => Err(Fault::NoColon),
    }
}

impl<'t> List<'t> {
    /// No items yet of a list with this text.
    #[inline(always)]
    pub(crate) fn new(text: &'t [u8]) -> List<'t> {
        List {
            text,
            items: Kept::new(),
            needs: Kept::new(),
        }
    }

    /// Reads the text. In place, since a list is too long to be handed back by value.
    pub(crate) fn read<'a>(&mut self, file: &'a [u8]) -> Result<(), Wrong<'a>> {
        each_line(file, self.text, |line| self.read_item(line))
    }

    // A line that is not blank: a name, a colon, and what the item needs.
    fn read_item(&mut self, line: Part<'t>) -> Result<(), Fault> {
        let Some((before, rest)) = line.split_colon() else {
            return Err(Fault::NoColon);
        };
        let name = name_of(before)?;
        if rest.bytes.contains(&b':') {
            return Err(Fault::SecondColon);
        }
        if !self.items.is_full() {
            let first = self.needs().len();
            self.needs.push_words(rest);
            let count = self.needs().len().saturating_sub(first);
            self.items.push(Item {
                name,
                first: short(first),
                count: short(count),
            });
        }
        Ok(())
    }

    pub(crate) fn items(&self) -> &[Item] {
        self.items.as_slice()
    }

    /// What all items need, in the order of the items.
    pub(crate) fn needs(&self) -> &[Word] {
        self.needs.as_slice()
    }

    /// What an item needs.
    pub(crate) fn needs_of(&self, item: Item) -> &[Word] {
        let first = item.first as usize;
        self.needs()
            .get(first..first + item.count as usize)
            .unwrap_or(&[])
    }

    /// There are more items than a sheet may have.
    pub(crate) fn is_too_long(&self) -> bool {
        self.items.is_full()
    }

    /// The item of this name, by its index.
    pub(crate) fn index_of(&self, name: &[u8]) -> Option<usize> {
        self.items()
            .iter()
            .position(|item| item.name.bytes(self.text) == name)
    }

    /// The item of this name.
    pub(crate) fn item_of(&self, name: &[u8]) -> Option<Item> {
        self.items().get(self.index_of(name)?).copied()
    }

    /// The item that has the dependency of this index, counted over all items, and its name.
    pub(crate) fn need(&self, index: usize) -> Option<(Item, Word)> {
        let need = self.needs().get(index)?;
        let item = self
            .items()
            .iter()
            .rfind(|item| item.count > 0 && item.first as usize <= index)?;
        Some((*item, *need))
    }
}
