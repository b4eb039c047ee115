//! A refusal for people: FILE:LINE:COLUMN, what is wrong, its three numbers, and the line with a caret under the place.
use crate::characters::{Named, Plain};
use crate::lines::{Caret, Line};
use answers::Refusal;
use files::{InNumbers, InWords};
use std::io::Write;
use std::{fmt, io};

/// What a refusal of a text says, and the character or number that it is about.
#[derive(Clone, Copy, Debug)]
struct Message(Refusal);

impl fmt::Display for Message {
    fn fmt<W: fmt::Write>(&self, f: &mut fmt::Formatter<W>) -> fmt::Result {
        write!(f, "{}", InWords(self.0))?;
        match self.0 {
            Refusal::ControlCodepoint(_, c)
            | Refusal::DeprecatedCodepoint(_, c)
            | Refusal::ForbiddenCodepoint(_, c)
            | Refusal::Unexpected(_, c)
            | Refusal::InvalidStringElement(_, c)
            | Refusal::InvalidStringEscape(_, c)
            | Refusal::WantedChar(_, c)
            | Refusal::InvalidHexDigit(_, c) => write!(f, ": {}", Named(c)),
            Refusal::InvalidUtf8(_, byte) => write!(f, ": byte {byte}"),
            Refusal::InvalidUnicodeValue(_, n) => write!(f, ": {n:x}"),
            _ => Ok(()),
        }
    }
}

/// The text is at offset 0, so places and positions are the same numbers.
pub(crate) fn print(
    out: &mut impl Write,
    name: &[u8],
    text: &[u8],
    refusal: Refusal,
) -> io::Result<()> {
    let at = (refusal.position() as usize).min(text.len());
    let line = Line::around(text, at);
    out.write_all(name)?;
    write!(out, ":{}:{}: ", line.number, line.column())?;
    writeln!(out, "{} {}", Message(refusal), InNumbers(refusal))?;
    writeln!(out, "{}\n{}", Plain(line.whole), Caret(line.before))
}
