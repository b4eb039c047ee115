//! What is counted: lines, comments, lines that cannot be read, and the cases of each call and of the edges with how many of them differ.
use crate::call::{CALLS, Call};
use std::fmt;

// What the program's own tries are called, which no line holds.
pub const EDGES: &str = "edges";

#[derive(Clone, Copy, Debug, Default, PartialEq, Eq)]
pub struct Group {
    cases: u32,
    differ: u32,
}

impl Group {
    pub(crate) fn add(&mut self, is_same: bool) {
        self.cases = self.cases.saturating_add(1);
        if !is_same {
            self.differ = self.differ.saturating_add(1);
        }
    }
}

// The end of its line belongs to its last piece.
impl fmt::Display for Group {
    fn fmt<W: fmt::Write>(&self, f: &mut fmt::Formatter<W>) -> fmt::Result {
        write!(f, "{} cases, {} differ\n", self.cases, self.differ)
    }
}

#[derive(Clone, Copy, Debug, Default, PartialEq, Eq)]
pub struct Tally {
    lines: u32,
    comments: u32,
    malformed: u32,
    calls: [Group; CALLS],
    pub edges: Group,
}

impl Tally {
    // One more line; its number.
    pub(crate) fn add_line(&mut self) -> u32 {
        self.lines = self.lines.saturating_add(1);
        self.lines
    }

    pub(crate) fn add_comment(&mut self) {
        self.comments = self.comments.saturating_add(1);
    }

    pub(crate) fn add_malformed(&mut self) {
        self.malformed = self.malformed.saturating_add(1);
    }

    pub(crate) fn add_case(&mut self, call: Call, is_same: bool) {
        self.calls[call as usize].add(is_same);
    }
}

impl fmt::Display for Tally {
    fn fmt<W: fmt::Write>(&self, f: &mut fmt::Formatter<W>) -> fmt::Result {
        write!(f, "{} lines: {} comments, ", self.lines, self.comments)?;
        write!(f, "{} malformed\n", self.malformed)?;
        for (call, group) in Call::ALL.iter().zip(&self.calls) {
            write!(f, "{call}: {group}")?;
        }
        write!(f, "{EDGES}: {}", self.edges)
    }
}
