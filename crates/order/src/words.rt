//! Names, and the parts of lines where they stand. Names stay in their text, which need not be UTF-8.
use crate::kept::Kept;

/// A name: the places of its first byte and its last in its text, of which there are 65,536 at most. No name is empty.
#[derive(Clone, Copy, Debug, Default)]
pub struct Word {
    first: u16,
    last: u16,
}

/// Some names of a text.
#[derive(Clone, Copy, Debug)]
pub struct Names<'t> {
    pub text: &'t [u8],
    pub words: &'t [Word],
}

/// A part of a text, and where it starts there.
#[derive(Clone, Copy, Debug)]
pub struct Part<'t> {
    pub bytes: &'t [u8],
    pub start: usize,
}

/// A place, or how many needs come before another, as it is kept. No number is cut.
pub(crate) fn short(n: usize) -> u16 {
    u16::try_from(n).unwrap_or(u16::MAX)
}

/// A count of items or needs. No number is cut.
pub(crate) fn number(n: usize) -> u32 {
    u32::try_from(n).unwrap_or(u32::MAX)
}

/// Where that starts which stands behind these bytes and the one that ends them.
pub(crate) fn behind(start: usize, bytes: &[u8]) -> usize {
    start.saturating_add(bytes.len()).saturating_add(1)
}

// What stands between names.
fn is_blank(b: u8) -> bool {
    matches!(b, b' ' | b'\t' | b'\r')
}

impl Word {
    pub(crate) fn bytes(self, text: &[u8]) -> &[u8] {
        text.get(self.first as usize..self.last as usize + 1)
            .unwrap_or(&[])
    }

    pub(crate) fn start(self) -> u32 {
        u32::from(self.first)
    }

    pub(crate) fn length(self) -> u32 {
        1 + u32::from(self.last.saturating_sub(self.first))
    }

    /// The number of its line, counted from 1.
    pub(crate) fn line(self, text: &[u8]) -> usize {
        files::line_behind(text.get(..self.first as usize).unwrap_or(text))
    }
}

impl<'t> Names<'t> {
    pub(crate) fn has(self, name: &[u8]) -> bool {
        self.words.iter().any(|word| word.bytes(self.text) == name)
    }

    /// Those before an index.
    pub(crate) fn before(self, index: usize) -> Names<'t> {
        Names {
            text: self.text,
            words: self.words.get(..index).unwrap_or(self.words),
        }
    }
}

impl<'t> Part<'t> {
    /// A line, without its comment.
    pub(crate) fn line(bytes: &'t [u8], start: usize) -> Part<'t> {
        let bytes = bytes.split(|&b| b == b'#').next().unwrap_or(bytes);
        Part { bytes, start }
    }

    /// No name stands there, and no colon.
    pub(crate) fn is_blank(self) -> bool {
        self.bytes.iter().all(|&b| is_blank(b))
    }

    /// The part before the first colon, and the one behind it.
    pub(crate) fn split_colon(self) -> Option<(Part<'t>, Part<'t>)> {
        let colon = self.bytes.iter().position(|&b| b == b':')?;
        let before = Part {
            bytes: &self.bytes[..colon],
            start: self.start,
        };
        let rest = Part {
            bytes: &self.bytes[colon + 1..],
            start: behind(self.start, before.bytes),
        };
        Some((before, rest))
    }
}

impl<const N: usize> Kept<Word, N> {
    /// Pushes the names of a part, with blanks between.
    pub(crate) fn push_words(&mut self, part: Part<'_>) {
        let mut start = part.start;
        for bytes in part.bytes.split(|&b| is_blank(b)) {
            if !bytes.is_empty() {
                self.push(Word {
                    first: short(start),
                    last: short(start.saturating_add(bytes.len() - 1)),
                });
            }
            start = behind(start, bytes);
        }
    }
}
