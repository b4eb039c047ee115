//! The line of a place.
ghost use Rattle.std.specs.Prelude.{◌≤◌, length};

use std::fmt;

const BYTE_ORDER_MARK: &[u8] = b"\xEF\xBB\xBF";

/// The line that a place stands in, without its end, and what stands there before the place.
#[derive(Clone, Copy, Debug)]
pub struct Line<'a> {
    pub number: usize,
    pub whole: &'a [u8],
    pub before: &'a [u8],
}

// Behind the newline before the place, or where the text starts for people: behind a byte order mark. A place within a text is asked for here and
// below, and made at one call alone: a type for it is no plainer.
fn start(text: &[u8], at: usize) -> usize
    requires { at ≤ length text.now }
    ensures { result ≤ at }
{
    let before = &text[..at];
    match before.iter().rposition(|&b| b == b'\n') {
        Some(newline) => newline + 1,
        None if text.starts_with(BYTE_ORDER_MARK) => at.min(3),
        None => 0,
    }
}

// Where the line's last character ends: a carriage return before the newline is part of the newline.
fn end(text: &[u8], at: usize) -> usize
    requires { at ≤ length text.now }
    ensures behind { at ≤ result }
    ensures within { result ≤ length text.now }
{
    let behind = &text[at..];
    match behind.iter().position(|&b| b == b'\n') {
        Some(length) if length > 0 && behind[length - 1] == b'\r' => at + length - 1,
        Some(length) => at + length,
        None => text.len(),
    }
}

// The byte starts a character: it is none of 80 to BF.
fn is_start(b: u8) -> bool {
    !matches!(b, 0x80..=0xBF)
}

impl<'a> Line<'a> {
    /// The line of a place of a text.
    pub(crate) fn around(text: &'a [u8], at: usize) -> Line<'a>
        requires { at ≤ length text.now }
    {
        let start = start(text, at);
        Line {
            number: files::line_behind(&text[..at]),
            whole: &text[start..end(text, at)],
            before: &text[start..at],
        }
    }

    /// Characters are counted from 1. Those before a refusal are well formed, so each has one byte that starts it.
    pub(crate) fn column(&self) -> usize {
        1 + self.before.iter().filter(|&&b| is_start(b)).count()
    }
}

/// A caret under a place, behind these bytes: as many blanks as they have characters, and tabs where they have tabs.
#[derive(Clone, Copy, Debug)]
pub struct Caret<'a>(pub &'a [u8]);

impl fmt::Display for Caret<'_> {
    fn fmt<W: fmt::Write>(&self, f: &mut fmt::Formatter<W>) -> fmt::Result {
        for &b in self.0 {
            match b {
                b'\t' => f.write_str("\t")?,
                _ if is_start(b) => f.write_str(" ")?,
                _ => {}
            }
        }
        f.write_str("^")
    }
}
