//! Refusals for people, by the order of docs/REFUSALS.md.
ghost use Rattle.std.specs.Prelude.{Some};
ghost use Rattle.files.specs.inner.Refusals.{numbers_of, shown};

use answers::{Numbers, Refusal};
use std::fmt;

// What each number says. 33 is no number of theirs: of an order that is none more is said than that.
const WORDS: [&str; 31] = [
    "nothing is wrong",
    "over 65,536 bytes",
    "a text that would end behind position 4,294,967,294 of the map",
    "bytes that are no UTF-8",
    "a control character",
    "a character that Unicode deprecates or discourages",
    "a character that overrides the direction of text",
    "a character that begins no token",
    "a block comment that does not end",
    "a number that is not given any more",
    "a character that no string may hold as it is",
    "a backslash with no escape behind it",
    "something else, where this is wanted",
    "a string that does not end",
    "a string whose bytes are no UTF-8",
    "a number in \\u{...} that is over 4,294,967,295",
    "a number in \\u{...} that ends in an underscore",
    "a character that is no hexadecimal digit",
    "a number in \\u{...} that is no character",
    "an identifier with an empty part",
    "a character that an identifier may not have there",
    "another token than the wanted one",
    "a bad span, or a kind that there is not",
    "a cursor beyond the text",
    "over 4,096 rows",
    "a table or buffer that lacks room",
    "a sheet of another shape",
    "over 256 items or 2,048 dependencies",
    "a name that an earlier item has",
    "a dependency on a name that no item has",
    "dependencies that run in a circle",
];

/// What a refusal's number says; nothing where there is no such number.
pub(crate) fn words(number: u32) -> &'static str {
    match WORDS.get(number as usize) {
        Some(words) => words,
        None => "",
    }
}

/// What a refusal says.
#[derive(Clone, Copy, Debug)]
pub struct InWords(pub Refusal);

impl fmt::Display for InWords {
    fn fmt<W: fmt::Write>(&self, f: &mut fmt::Formatter<W>) -> fmt::Result {
        f.write_str(match self.0 {
            Refusal::NotAnOrder(_) => "no load order",
            refusal => words(refusal.number()),
        })
    }
}

/// Three numbers, as they are printed.
#[derive(Clone, Copy, Debug)]
pub(crate) struct Shown(pub Numbers);

impl fmt::Display for Shown {
    ghost output = { λ told. Some (shown told.0) };

    fn fmt<W: fmt::Write>(&self, f: &mut fmt::Formatter<W>) -> fmt::Result {
        let Numbers {
            number,
            position,
            detail,
        } = self.0;
        write!(f, "({number}, {position}, {detail})")
    }
}

/// A refusal's three numbers.
#[derive(Clone, Copy, Debug)]
pub struct InNumbers(pub Refusal);

impl fmt::Display for InNumbers {
    ghost output = { λ shown. Some (numbers_of shown.0) };

    fn fmt<W: fmt::Write>(&self, f: &mut fmt::Formatter<W>) -> fmt::Result {
        write!(f, "{}", Shown(self.0.numbers()))
    }
}
