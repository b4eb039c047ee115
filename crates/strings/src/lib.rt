//! String literals: the string rule from behind the opening quote on, and decoding into a lent buffer.
#![tactic(auto)]

mod checking;
mod decoding;
mod rule;
mod turns;

use answers::Place;
pub use decoding::string_literal;
pub use rule::expect_string_literal;

// The number between `\u{` and `}` so far: the places of the `u` and of the first digit, its value, and whether an underscore came last.
#[derive(Clone, Copy, Debug, PartialEq, Eq)]
pub struct Digits {
    pub u: Place,
    pub first: Place,
    pub value: u32,
    pub lone: bool,
}

// Where in a string the walk stands.
#[derive(Clone, Copy, Debug, PartialEq, Eq)]
pub enum Inside {
    // between characters
    Plain,
    // after a backslash
    Escape,
    // after the first of two hexadecimal digits: its value
    Half(u32),
    // after `\u`: the place of the `u`
    Brace(Place),
    // after `\u{`: the place of the `u`
    First(Place),
    Number(Digits),
}

// What a turn adds to the gathered bytes: one byte, or a character's.
#[derive(Clone, Copy, Debug, PartialEq, Eq)]
pub enum More {
    One(u32),
    Whole(u32),
}

// What one character does where it is not refused: the walk goes on, and something may be added, or the string is closed.
#[derive(Clone, Copy, Debug, PartialEq, Eq)]
pub enum Turn {
    On(Inside, Option<More>),
    Close,
}

// A string as the rule accepts it: the place behind the closing quote, and the number of gathered bytes.
#[derive(Clone, Copy, Debug, PartialEq, Eq)]
pub struct Literal {
    pub end: Place,
    pub count: u32,
}

// What stands in a string between characters, by one character or by a whole escape:
// what it adds and the place behind it, or the closing quote and the place behind it.
#[derive(Clone, Copy, Debug, PartialEq, Eq)]
enum Element {
    Adds(More, Place),
    Close(Place),
}

// A sequence of gathered bytes in progress: where it starts, the range of its next byte, and how many bytes it lacks.
#[derive(Clone, Copy, Debug, PartialEq, Eq)]
struct Rest {
    start: u32,
    low: u32,
    high: u32,
    left: u32,
}

// What is known of the gathered bytes: they are well-formed, a sequence is in progress, or the first ill-formed one starts there.
#[derive(Clone, Copy, Debug, PartialEq, Eq)]
enum Seen {
    Well,
    Part(Rest),
    Ill(u32),
}
