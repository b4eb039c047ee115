//! What is wrong with the files that are asked about.
use answers::Refusal;
use files::{InNumbers, InWords};
use std::io::Write;
use std::{fmt, io};

/// What is wrong with a line that is no item and what it needs, or, in an order, no names.
#[derive(Clone, Copy, Debug, PartialEq, Eq)]
pub enum Fault {
    NoName,
    NoColon,
    SecondColon,
    ColonInOrder,
}

impl fmt::Display for Fault {
    fn fmt<W: fmt::Write>(&self, f: &mut fmt::Formatter<W>) -> fmt::Result {
        f.write_str(match self {
            Fault::NoName => "a colon with no name before it",
            Fault::NoColon => "a name with no colon behind it",
            Fault::SecondColon => "a second colon",
            Fault::ColonInOrder => "a colon, where an order has names alone",
        })
    }
}

/// The file and the line, before what is wrong there.
pub(crate) fn place(out: &mut impl Write, file: &[u8], line: usize) -> io::Result<()> {
    out.write_all(file)?;
    write!(out, ":{line}: ")
}

/// Why a list or an order that was read has no answer. No Debug: that of an error asks the system for its words, by a call in C that nothing else
/// here makes.
#[derive(Clone, Copy)]
pub enum Wrong<'a> {
    Line {
        file: &'a [u8],
        line: usize,
        fault: Fault,
    },
    /// What no line of the file is the place of.
    Whole {
        file: &'a [u8],
        refusal: Refusal,
    },
    /// The writer takes no more.
    Lost(io::Error),
}

impl From<io::Error> for Wrong<'_> {
    fn from(error: io::Error) -> Self {
        Wrong::Lost(error)
    }
}

impl Wrong<'_> {
    /// Says it in one line.
    pub(crate) fn say(self, out: &mut impl Write) -> io::Result<()> {
        match self {
            Wrong::Line { file, line, fault } => {
                place(out, file, line)?;
                writeln!(out, "{fault}")
            }
            Wrong::Whole { file, refusal } => {
                out.write_all(file)?;
                writeln!(out, ": {} {}", InWords(refusal), InNumbers(refusal))
            }
            Wrong::Lost(error) => Err(error),
        }
    }
}
