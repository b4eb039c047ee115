//! What every call answers with: places and positions, spans, the refusals of the interface paper's table, and the three numbers that stand for each.
#![tactic(auto)]

ghost use Rattle.std.specs.Prelude.{◌≡◌, ◌+◌, ◌*◌};
ghost use Rattle.answers.specs.Places.{in_map};
ghost use Rattle.answers.specs.declared.Refusal.TheVariants.{IllFormed};
ghost use Rattle.answers.specs.Caps.{length_verdict, text_verdict};
ghost use Rattle.answers.specs.Refusals.{row, told, told_of};

// A place in the source: bytes from the text's start.
#[derive(Clone, Copy, Debug, PartialEq, Eq)]
pub struct Place(pub u32);

// A position in the map: the text's offset in the map, and a place, added.
#[derive(Clone, Copy, Debug, PartialEq, Eq)]
pub struct Position(pub u32);

// Where a token stands in the map: its first position, and the first after it.
#[derive(Clone, Copy, Debug, PartialEq, Eq)]
pub struct Span {
    pub start: Position,
    pub end: Position,
}

// An ill-formed sequence of bytes: where it starts.
#[derive(Clone, Copy, Debug, PartialEq, Eq)]
pub struct Ill {
    pub at: Place,
}

// Why a call refuses, in the order of the paper's numbers, 1 to 30 without 9, and 33. Where lex.rs has an error of that meaning, the name is its.
#[derive(Clone, Copy, Debug, PartialEq, Eq)]
pub enum Refusal {
    TooLong(u32),
    OutOfMap,
    IllFormed(Ill),
    ControlCodepoint(Place, u32),
    DeprecatedCodepoint(Place, u32),
    ForbiddenCodepoint(Place, u32),
    Unexpected(Position, u32),
    UnterminatedComment(Position),
    InvalidStringElement(Place, u32),
    InvalidStringEscape(Place, u32),
    WantedChar(Place, u32),
    UnexpectedEof(Position),
    InvalidUtf8(Position, u32),
    NumberTooBig(Place),
    LoneUnderscore(Place),
    InvalidHexDigit(Place, u32),
    InvalidUnicodeValue(Place, u32),
    IdPartEmpty(Position),
    InvalidCharInId(Position, u32),
    // the kind wanted, and the kind found, by their numbers: C has 67 for the end of the text, which no token is
    Wanted(Position, u8, u8),
    BadSpan,
    BeyondText,
    TooManyRows(u32),
    NoRoom(u32),
    MalformedSheet,
    TooManyItems,
    RepeatedName(u32),
    ItemNotFound(u32),
    TypeCycle(u32),
    // the first index of a proposed list that is at fault
    NotAnOrder(u32),
}

// The answer of a check that hands nothing back.
pub type Verdict = Result<(), Refusal>;

// An ill-formed sequence is a refusal by itself.
impl From<Ill> for Refusal {
    ghost from_gives = { λ ill refusal. refusal ≡ IllFormed ill };

    fn from(ill: Ill) -> Refusal {
        Refusal::IllFormed(ill)
    }
}

// The three numbers that come back: 01's number, position and detail.
#[derive(Clone, Copy, Debug, PartialEq, Eq)]
pub struct Numbers {
    pub number: u32,
    pub position: u32,
    pub detail: u32,
}

// The one way from a place to a position.
#[tactic(auto, unfolding(crate::specs::Places::in_map))]
pub fn in_map(offset: u32, place: Place) -> Position
    ensures { result ≡ in_map offset place }
{
    Position(std::num::wrapping_add_u32(offset, place.0))
}

// 1: a text, or the names of a sheet, of this many bytes.
#[tactic(auto, unfolding(crate::specs::Caps::length_verdict))]
pub fn check_length(length: usize) -> Verdict
    ensures { result ≡ length_verdict length }
{
    if length <= 65536 {
        return Ok(());
    }
    if 4294967295 < length {
        return Err(Refusal::TooLong(4294967295));
    }
    Err(Refusal::TooLong(length as u32))
}

// 1, then 2: a text of this many bytes, at this offset in the map. Here and above, a text and its offset stay two parameters: the C functions and
// each public signature that the README and docs name have them so.
#[tactic(auto, unfolding(crate::specs::Caps::text_verdict, crate::specs::Caps::map_verdict, crate::specs::Caps::first_of), using(crate::proofs::CapsLaws::length_in))]
pub fn check_text(offset: u32, length: usize) -> Verdict
    ensures { result ≡ text_verdict offset length }
{
    check_length(length)?;
    if offset as usize + length <= 4294967294 {
        return Ok(());
    }
    Err(Refusal::OutOfMap)
}

fn row(number: u32, position: u32, detail: u32) -> Numbers
    ensures { result ≡ row number position detail }
{
    Numbers {
        number,
        position,
        detail,
    }
}

// 21's detail: the kind wanted and the kind found in one number.
fn kinds(expected: u8, found: u8) -> u32
    ensures { result ≡ 256 * expected + found }
{
    256 * expected as u32 + found as u32
}

impl Refusal {
    // The three numbers of a refusal. Methods, and no `From`: the README and docs name these four, and a verdict converts by them.
    #[tactic(auto, unfolding(crate::specs::Refusals::told))]
    pub fn numbers(self) -> Numbers
        ensures { result ≡ told self }
    {
        match self {
            Refusal::TooLong(length) => row(1, 0, length),
            Refusal::OutOfMap => row(2, 0, 0),
            Refusal::IllFormed(ill) => row(3, ill.at.0, 0),
            Refusal::ControlCodepoint(at, c) => row(4, at.0, c),
            Refusal::DeprecatedCodepoint(at, c) => row(5, at.0, c),
            Refusal::ForbiddenCodepoint(at, c) => row(6, at.0, c),
            Refusal::Unexpected(at, c) => row(7, at.0, c),
            Refusal::UnterminatedComment(at) => row(8, at.0, 0),
            Refusal::InvalidStringElement(at, c) => row(10, at.0, c),
            Refusal::InvalidStringEscape(at, c) => row(11, at.0, c),
            Refusal::WantedChar(at, c) => row(12, at.0, c),
            Refusal::UnexpectedEof(at) => row(13, at.0, 0),
            Refusal::InvalidUtf8(at, offset) => row(14, at.0, offset),
            Refusal::NumberTooBig(at) => row(15, at.0, 0),
            Refusal::LoneUnderscore(at) => row(16, at.0, 0),
            Refusal::InvalidHexDigit(at, c) => row(17, at.0, c),
            Refusal::InvalidUnicodeValue(at, n) => row(18, at.0, n),
            Refusal::IdPartEmpty(at) => row(19, at.0, 0),
            Refusal::InvalidCharInId(at, c) => row(20, at.0, c),
            Refusal::Wanted(at, expected, found) => row(21, at.0, kinds(expected, found)),
            Refusal::BadSpan => row(22, 0, 0),
            Refusal::BeyondText => row(23, 0, 0),
            Refusal::TooManyRows(rows) => row(24, 0, rows),
            Refusal::NoRoom(needed) => row(25, 0, needed),
            Refusal::MalformedSheet => row(26, 0, 0),
            Refusal::TooManyItems => row(27, 0, 0),
            Refusal::RepeatedName(item) => row(28, 0, item),
            Refusal::ItemNotFound(dependency) => row(29, 0, dependency),
            Refusal::TypeCycle(dependency) => row(30, 0, dependency),
            Refusal::NotAnOrder(index) => row(33, 0, index),
        }
    }

    pub fn number(self) -> u32
        ensures { result ≡ (told self).number }
    {
        self.numbers().number
    }

    pub fn position(self) -> u32
        ensures { result ≡ (told self).position }
    {
        self.numbers().position
    }

    pub fn detail(self) -> u32
        ensures { result ≡ (told self).detail }
    {
        self.numbers().detail
    }
}

// 0, 0 and 0 where a check accepts.
impl From<Verdict> for Numbers {
    ghost from_gives = { λ verdict numbers. numbers ≡ told_of verdict };

    #[tactic(auto, unfolding(crate::specs::Refusals::told_of))]
    fn from(verdict: Verdict) -> Numbers {
        match verdict {
            Ok(()) => row(0, 0, 0),
            Err(refusal) => refusal.numbers(),
        }
    }
}
