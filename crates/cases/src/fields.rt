//! The numbers, bytes and words that a field says. For bytes and words `-` says none, and `N*x` says x N times.
ghost use Rattle.std.specs.Prelude.{◌<◌, IfOk};

use crate::fault::Fault;
use std::str;

// A decimal number of 32 bits: digits alone.
pub(crate) fn decimal(field: &[u8]) -> Result<u32, Fault> {
    if !field.iter().all(u8::is_ascii_digit) {
        return Err(Fault::Malformed);
    }
    Ok(str::from_utf8(field)?.parse()?)
}

// A hexadecimal digit's value.
fn hex_digit(digit: u8) -> Result<u8, Fault>
    ensures { IfOk result (λ value. value < 16) }
{
    match digit {
        b'0'..=b'9' => Ok(digit - b'0'),
        b'a'..=b'f' => Ok(digit - b'a' + 10),
        _ => Err(Fault::Malformed),
    }
}

// The most bytes that a line's text or a lent buffer has, and the most words of its sheet or a lent table.
pub const BYTES: usize = 65537;

pub const WORDS: usize = 12288;

// What a field lists: bytes or words.
pub trait Element: Copy + PartialEq {
    // what joins the parts of a field
    const JOINT: u8;

    // What stands at place i of lent memory before a call: no two neighbours are the same.
    fn filler(i: usize) -> Self;

    // What digits say that are one element's.
    fn parse(digits: &[u8]) -> Result<Self, Fault>;

    // Lays what a part without a star says behind the first n, and answers how many there are then.
    fn lay_part(part: &[u8], memory: &mut [Self], n: usize) -> Result<usize, Fault>;
}

impl Element for u8 {
    const JOINT: u8 = b'+';

    fn filler(i: usize) -> u8 {
        (i % 251) as u8
    }

    // Two digits.
    fn parse(digits: &[u8]) -> Result<u8, Fault> {
        let [high, low] = digits else {
            return Err(Fault::Malformed);
        };
        Ok(hex_digit(*high)? << 4 | hex_digit(*low)?)
    }

    // Two digits for each byte.
    fn lay_part(part: &[u8], memory: &mut [u8], n: usize) -> Result<usize, Fault> {
        if part.is_empty() {
            return Err(Fault::Malformed);
        }
        let mut end = n;
        for pair in part.chunks(2) {
            end = lay(memory, end, 1, u8::parse(pair)?)?;
        }
        Ok(end)
    }
}

impl Element for u32 {
    const JOINT: u8 = b',';

    fn filler(i: usize) -> u32 {
        0xA5000000 + (i % 65536) as u32
    }

    fn parse(digits: &[u8]) -> Result<u32, Fault> {
        decimal(digits)
    }

    // One word.
    fn lay_part(part: &[u8], memory: &mut [u32], n: usize) -> Result<usize, Fault> {
        lay(memory, n, 1, decimal(part)?)
    }
}

// Lays an element so many times behind the first n, and answers how many there are then.
fn lay<T: Copy>(memory: &mut [T], n: usize, times: usize, element: T) -> Result<usize, Fault> {
    let end = n.saturating_add(times);
    for place in memory.get_mut(n..end).ok_or(Fault::Malformed)? {
        *place = element;
    }
    Ok(end)
}

// How often a part says what it says, if it has a star, and what that is.
fn split_star(part: &[u8]) -> Result<(Option<u32>, &[u8]), Fault> {
    match part.iter().position(|byte| *byte == b'*') {
        Some(star) => Ok((Some(decimal(&part[..star])?), &part[star + 1..])),
        None => Ok((None, part)),
    }
}

// Lays what one part says behind the first n, and answers how many there are then.
fn lay_part<T: Element>(part: &[u8], memory: &mut [T], n: usize) -> Result<usize, Fault> {
    match split_star(part)? {
        (Some(times), digits) => lay(memory, n, times as usize, T::parse(digits)?),
        (None, part) => T::lay_part(part, memory, n),
    }
}

// All that a field says, laid at the front of memory as long as that may be.
pub(crate) fn list<'a, T: Element>(field: &[u8], memory: &'a mut [T]) -> Result<&'a [T], Fault> {
    let mut end = 0;
    if field != b"-".as_slice() {
        for part in field.split(|byte| *byte == T::JOINT) {
            end = lay_part(part, memory, end)?;
        }
    }
    memory.get(..end).ok_or(Fault::Malformed)
}
