//! What is wrong with a file, or with an argument that is to name one.
ghost use Rattle.std.specs.Prelude.{◌++◌, ◌∷◌, [], Some, codes, OnOk};
ghost use Rattle.std.specs.Io.KnownBytes.{Appends};
ghost use Rattle.files.specs.inner.Faults.{words_of};

use std::error::Error;
use std::io::{ErrorKind, Write};
use std::str::Utf8Error;
use std::{fmt, io};

// The system's number for a file that this user may not read.
const EACCES: i32 = 13;

/// Why a file is not read.
#[derive(Clone, Copy, Debug, PartialEq, Eq)]
pub enum Fault {
    NoName,
    NameTooLong,
    NameNotUtf8,
    NotFound,
    NotADirectory,
    IsADirectory,
    Forbidden,
    TooLong,
    Unreadable,
}

impl fmt::Display for Fault {
    ghost output = { λ fault. Some (words_of fault) };

    fn fmt<W: fmt::Write>(&self, f: &mut fmt::Formatter<W>) -> fmt::Result {
        f.write_str(match self {
            Fault::NoName => "the name of a file is wanted",
            Fault::NameTooLong => "too long for the name of a file",
            Fault::NameNotUtf8 => "cannot be opened: its name is not UTF-8",
            Fault::NotFound => "no such file",
            Fault::NotADirectory => "no such file: a part of its path is no directory",
            Fault::IsADirectory => "a directory, where a file is wanted",
            Fault::Forbidden => "may not be read",
            Fault::TooLong => "over 65,536 bytes, the most that is read",
            Fault::Unreadable => "cannot be read",
        })
    }
}

impl Error for Fault {}

// The library opens no file whose name is not UTF-8.
impl From<Utf8Error> for Fault {
    fn from(_error: Utf8Error) -> Fault {
        Fault::NameNotUtf8
    }
}

impl From<io::Error> for Fault {
    fn from(error: io::Error) -> Fault {
        match error.kind() {
            ErrorKind::NotFound => Fault::NotFound,
            ErrorKind::NotADirectory => Fault::NotADirectory,
            ErrorKind::IsADirectory => Fault::IsADirectory,
            ErrorKind::InvalidFilename => Fault::NameTooLong,
            ErrorKind::PermissionDenied if error.raw_os_error() == Some(EACCES) => Fault::Forbidden,
            _ => Fault::Unreadable,
        }
    }
}

/// A fault, and the name of the file that has it, which need not be text.
#[derive(Clone, Copy, Debug)]
pub struct Complaint<'a> {
    pub name: &'a [u8],
    pub fault: Fault,
}

impl Complaint<'_> {
    /// Says it in one line.
    pub fn say<W: Write>(self, out: &mut W) -> io::Result<()>
        ensures { OnOk result (Appends (W.contents out.old) (W.contents out.new) (self.entry.name.now ++ codes ": " ++ words_of self.entry.fault ++ (10 ∷ []))) }
    {
        out.write_all(self.name)?;
        writeln!(out, ": {}", self.fault)
    }
}
