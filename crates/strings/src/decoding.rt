//! Decoding: the value of a string that a span names, into a lent buffer.
ghost use Rattle.std.specs.Prelude.{◌≡◌, [], ◌+◌, ◌≤◌, length};
ghost use Rattle.answers.specs.Caps.{cap};
ghost use Rattle.chars.specs.View.{folded_from};
ghost use Rattle.strings.specs.declared.Inside.TheVariants.{Plain};
ghost use Rattle.strings.specs.Strings.{added, gather};
ghost use Rattle.strings.specs.Decoding.{spelling, decoded};
ghost use Rattle.strings.specs.inner.Checking.{Proper};
ghost use Rattle.strings.specs.inner.Writing.{measured, Roomy, filled, is_mark, unmarked, copied, stored};

use crate::rule::{element_at, expect_string_literal};
use crate::{Element, More};
use answers::{Place, Refusal, Span};

// A quote or a backslash.
#[tactic(auto, unfolding(crate::specs::inner::Writing::is_mark))]
fn is_mark(b: u8) -> bool
    ensures { result ≡ is_mark b }
{
    matches!(b, 0x22 | 0x5C)
}

// The bytes of the text from a place on, as far as no quote and no backslash stands, to the front of a buffer; how many.
// By hand, in one walk: the library's `copy_from_slice` calls memmove, which a host without a C library would have to bring, and a second walk for
// the copy takes a quarter more time.
fn copy_raw(text: &[u8], at: Place, buffer: &mut [u8]) -> usize
    requires { unmarked text.now at ≤ length buffer.old }
    ensures { (result, buffer.new) ≡ copied text.now at buffer.old }
{
    let start = at.0 as usize;
    for k in start..text.len() {
        if is_mark(text[k]) {
            return k - start;
        }
        buffer[k - start] = text[k];
    }
    text.len().saturating_sub(start)
}

impl More {
    // Its bytes to the front of a buffer, which has room; how many.
    fn put(self, buffer: &mut [u8]) -> usize
        requires { Proper self × (length (added self) ≤ length buffer.old) }
        ensures { (result, buffer.new) ≡ stored self buffer.old }
    {
        match self {
            More::One(b) => {
                buffer[0] = b as u8;
                1
            }
            More::Whole(c) => encoding::encode(c, buffer).unwrap_or(0),
        }
    }
}

// The bytes of the string that starts behind its quote at `start`, to the front of a buffer that has room.
// A loop, as each element tells the next place: an iterator of places is no plainer.
fn pour(text: &[u8], offset: u32, start: Place, value: &mut [u8])
    requires { Roomy (gather offset Plain [] (folded_from text.now start)) (length value.old) }
    ensures { value.new ≡ filled (gather offset Plain [] (folded_from text.now start)) value.old }
{
    let mut at = start;
    let mut n: usize = 0;
    loop {
        let run = copy_raw(text, at, &mut value[n..]);
        at = Place(at.0 + run as u32);
        n += run;
        match element_at(text, offset, at) {
            Ok(Element::Adds(more, next)) => {
                n += more.put(&mut value[n..]);
                at = next;
            }
            Ok(Element::Close(_)) => return,
            Err(_) => return,
        }
    }
}

// How many bytes a span spells, if it spells a value.
fn measure(text: &[u8], offset: u32, span: Span) -> Option<u32>
    requires { length text.now ≤ cap }
    ensures { result ≡ measured (spelling text.now offset span) }
{
    let quote = Place(span.start.0.checked_sub(offset)?);
    if chars::byte_at(text, quote) != 0x22 {
        return None;
    }
    let literal = expect_string_literal(text, offset, span.start, Place(quote.0 + 1)).ok()?;
    let ends = offset as usize + literal.end.0 as usize == span.end.0 as usize;
    ends.then_some(literal.count)
}

// The value of the string that a span names, at the front of a lent buffer, and its count.
// 1 and 2, then 22, then 25; on a refusal the buffer is as it was.
pub fn string_literal(
    text: &[u8],
    offset: u32,
    span: Span,
    value: &mut [u8],
) -> Result<u32, Refusal>
    ensures { (result, value.new) ≡ decoded text.now offset span value.old }
{
    answers::check_text(offset, text.len())?;
    let n = measure(text, offset, span).ok_or(Refusal::BadSpan)?;
    if value.len() < n as usize {
        return Err(Refusal::NoRoom(n));
    }
    pour(text, offset, Place(span.start.0 - offset + 1), value);
    Ok(n)
}
