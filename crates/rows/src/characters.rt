//! Characters as a terminal can show them.
use std::fmt;
use std::fmt::Write;

// Characters that show as nothing, end a line or change the direction of what follows.
fn is_hidden(c: char) -> bool {
    matches!(c, '\0'..='\u{1F}' | '\u{7F}'..='\u{9F}' | '\u{2028}'..='\u{202E}' | '\u{2066}'..='\u{2069}')
}

/// As between the quotes of a string of Rust: one line, from which the text can be told.
#[derive(Clone, Copy, Debug)]
pub struct Quoted<'a>(pub &'a [u8]);

impl fmt::Display for Quoted<'_> {
    fn fmt<W: fmt::Write>(&self, f: &mut fmt::Formatter<W>) -> fmt::Result {
        for chunk in self.0.utf8_chunks() {
            for c in chunk.valid().chars() {
                write_quoted(f, c)?;
            }
            for byte in chunk.invalid() {
                write!(f, "\\x{byte:02x}")?;
            }
        }
        Ok(())
    }
}

fn write_quoted<W: fmt::Write>(f: &mut fmt::Formatter<W>, c: char) -> fmt::Result {
    match c {
        '\t' => f.write_str("\\t"),
        '\n' => f.write_str("\\n"),
        '\r' => f.write_str("\\r"),
        '"' => f.write_str("\\\""),
        '\\' => f.write_str("\\\\"),
        _ if is_hidden(c) => write!(f, "\\u{{{:x}}}", u32::from(c)),
        _ => f.write_char(c),
    }
}

/// As it stands, with U+FFFD for what can't be shown, so that each character takes one column.
#[derive(Clone, Copy, Debug)]
pub struct Plain<'a>(pub &'a [u8]);

impl fmt::Display for Plain<'_> {
    fn fmt<W: fmt::Write>(&self, f: &mut fmt::Formatter<W>) -> fmt::Result {
        for chunk in self.0.utf8_chunks() {
            for c in chunk.valid().chars() {
                f.write_char(if c != '\t' && is_hidden(c) {
                    '\u{FFFD}'
                } else {
                    c
                })?;
            }
            for _ in chunk.invalid() {
                f.write_char('\u{FFFD}')?;
            }
        }
        Ok(())
    }
}

/// A character by its number, as Unicode writes it, and as it looks where it can be shown.
#[derive(Clone, Copy, Debug)]
pub struct Named(pub u32);

impl fmt::Display for Named {
    fn fmt<W: fmt::Write>(&self, f: &mut fmt::Formatter<W>) -> fmt::Result {
        write!(f, "U+{:04X}", self.0)?;
        match char::from_u32(self.0) {
            Some(c) if !is_hidden(c) => write!(f, " '{c}'"),
            _ => Ok(()),
        }
    }
}
