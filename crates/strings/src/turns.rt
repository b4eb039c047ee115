//! The turns: what one character does, by where in a string it stands.
ghost use Rattle.std.specs.Prelude.{◌≡◌, ◌<◌};
ghost use Rattle.strings.specs.Strings.{simple_of, plain_turn, escape_turn, half_turn, brace_turn, first_turn, digit_turn, end_turn, number_turn, turn_of};
ghost use Rattle.strings.specs.inner.Walking.{Sound};

use crate::{Digits, Inside, More, Turn};
use answers::{Place, Refusal};

// The character that one behind a backslash stands for, if any.
#[tactic(auto, unfolding(crate::specs::Strings::simple_of, crate::specs::Strings::simples, terms::specs::Terms::said, terms::specs::Terms::within))]
fn simple_of(c: u32) -> Option<u32>
    ensures { result ≡ simple_of c }
{
    match c {
        0x22 | 0x27 | 0x5C => Some(c),
        0x74 => Some(9),
        0x6E => Some(10),
        0x72 => Some(13),
        _ => None,
    }
}

// The place and the character stay two parameters of each turn: a struct of both is no plainer, as each refusal takes it apart again.

// Between characters.
#[tactic(auto, unfolding(crate::specs::Strings::plain_turn))]
fn plain_turn(at: Place, c: u32) -> Result<Turn, Refusal>
    ensures { result ≡ plain_turn at c }
{
    match c {
        0x22 => Ok(Turn::Close),
        0x5C => Ok(Turn::On(Inside::Escape, None)),
        0x00..=0x1F | 0x7F => Err(Refusal::InvalidStringElement(at, c)),
        _ => Ok(Turn::On(Inside::Plain, Some(More::Whole(c)))),
    }
}

// Behind a backslash.
#[tactic(auto, unfolding(crate::specs::Strings::escape_turn))]
fn escape_turn(at: Place, c: u32) -> Result<Turn, Refusal>
    ensures { result ≡ escape_turn at c }
{
    if c == 0x75 {
        return Ok(Turn::On(Inside::Brace(at), None));
    }
    if let Some(digit) = chars::to_hex(c) {
        return Ok(Turn::On(Inside::Half(digit), None));
    }
    let simple = simple_of(c).ok_or(Refusal::InvalidStringEscape(at, c))?;
    Ok(Turn::On(Inside::Plain, Some(More::Whole(simple))))
}

// The second of two hexadecimal digits.
#[tactic(auto, unfolding(crate::specs::Strings::half_turn))]
fn half_turn(half: u32, at: Place, c: u32) -> Result<Turn, Refusal>
    requires { half < 16 }
    ensures { result ≡ half_turn half at c }
{
    let digit = chars::to_hex(c).ok_or(Refusal::InvalidHexDigit(at, c))?;
    Ok(Turn::On(Inside::Plain, Some(More::One(half * 16 + digit))))
}

// Behind `\u`.
#[tactic(auto, unfolding(crate::specs::Strings::brace_turn))]
fn brace_turn(u: Place, at: Place, c: u32) -> Result<Turn, Refusal>
    ensures { result ≡ brace_turn u at c }
{
    if c == 0x7B {
        return Ok(Turn::On(Inside::First(u), None));
    }
    Err(Refusal::WantedChar(at, 0x7B))
}

// Behind `\u{`.
#[tactic(auto, unfolding(crate::specs::Strings::first_turn))]
fn first_turn(u: Place, at: Place, c: u32) -> Result<Turn, Refusal>
    ensures { result ≡ first_turn u at c }
{
    let value = chars::to_hex(c).ok_or(Refusal::InvalidHexDigit(at, c))?;
    let number = Digits {
        u,
        first: at,
        value,
        lone: false,
    };
    Ok(Turn::On(Inside::Number(number), None))
}

impl Digits {
    // A digit more of the self. It overflows exactly where its upper four bits are taken already.
    #[tactic(auto, unfolding(crate::specs::Strings::digit_turn))]
    fn more(self, at: Place, digit: u32) -> Result<Turn, Refusal>
        requires { digit < 16 }
        ensures { result ≡ digit_turn self at digit }
    {
        let upper = self.value.checked_mul(16).ok_or(Refusal::NumberTooBig(at))?;
        let more = Digits {
            value: upper + digit,
            lone: false,
            ..self
        };
        Ok(Turn::On(Inside::Number(more), None))
    }

    // Behind the number.
    #[tactic(auto, unfolding(crate::specs::Strings::end_turn))]
    fn end(self, at: Place, c: u32) -> Result<Turn, Refusal>
        ensures { result ≡ end_turn self at c }
    {
        if self.lone {
            return Err(Refusal::LoneUnderscore(self.first));
        }
        if !encoding::is_scalar(self.value) {
            return Err(Refusal::InvalidUnicodeValue(self.u, self.value));
        }
        if c != 0x7D {
            return Err(Refusal::WantedChar(at, 0x7D));
        }
        Ok(Turn::On(Inside::Plain, Some(More::Whole(self.value))))
    }

    // In the number.
    #[tactic(auto, unfolding(crate::specs::Strings::number_turn))]
    fn turn(self, at: Place, c: u32) -> Result<Turn, Refusal>
        ensures { result ≡ number_turn self at c }
    {
        if c == 0x5F {
            let more = Digits { lone: true, ..self };
            return Ok(Turn::On(Inside::Number(more), None));
        }
        match chars::to_hex(c) {
            Some(digit) => self.more(at, digit),
            None => self.end(at, c),
        }
    }
}

impl Inside {
    // What the character c at a place does.
    #[tactic(auto, unfolding(crate::specs::Strings::turn_of))]
    pub(crate) fn turn(self, at: Place, c: u32) -> Result<Turn, Refusal>
        requires { Sound self }
        ensures { result ≡ turn_of self at c }
    {
        match self {
            Inside::Plain => plain_turn(at, c),
            Inside::Escape => escape_turn(at, c),
            Inside::Half(half) => half_turn(half, at, c),
            Inside::Brace(u) => brace_turn(u, at, c),
            Inside::First(u) => first_turn(u, at, c),
            Inside::Number(number) => number.turn(at, c),
        }
    }
}
