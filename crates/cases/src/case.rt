//! A line that is a case: what it asks, and the answer that was recorded.
use crate::answer::Answer;
use crate::call::Call;
use crate::fault::Fault;
use crate::fields::{BYTES, WORDS, decimal, list};
use crate::lent;
use crate::memory::{fill, is_as_wanted};
use answers::{Position, Span};
use listing::Listing;

// How many fields a line has.
const FIELDS: usize = 17;

// So much memory is enough for most calls. One that is lent more gets it in a frame of its own, which is not joined with its caller's: no other
// call pays for it, and there is never room for bytes and for words at once.
const SHORT: usize = 64;

// The fields that list bytes or words are read when the call is made.
#[derive(Clone, Copy, Debug)]
pub struct Case<'a> {
    pub call: Call,
    // the text, or a sheet's names
    text: &'a [u8],
    offset: u32,
    // the wanted kind and 0, or a span's start and end
    a: u32,
    b: u32,
    // how many words or bytes the call is lent
    room: usize,
    sheet: &'a [u8],
    recorded: Answer,
    // where a step's cursor stands before it
    from: u32,
    // what should stand at the front of the lent memory
    written: &'a [u8],
}

// Finds the fields of a line: as many as there are places and no more, and none is empty.
fn split<'a>(line: &'a [u8], fields: &mut [&'a [u8]]) -> Result<(), Fault> {
    let mut parts = line.split(|byte| *byte == b' ');
    for field in fields {
        *field = parts.next().unwrap_or_default();
        if field.is_empty() {
            return Err(Fault::Malformed);
        }
    }
    match parts.next() {
        Some(_) => Err(Fault::Malformed),
        None => Ok(()),
    }
}

impl<'a> Case<'a> {
    pub(crate) fn read(line: &'a [u8]) -> Result<Case<'a>, Fault> {
        let mut fields = [line; FIELDS];
        split(line, &mut fields)?;
        let [
            call,
            judge,
            text,
            offset,
            a,
            b,
            room,
            sheet,
            number,
            position,
            detail,
            x,
            y,
            z,
            cursor,
            from,
            written,
        ] = fields;
        if !matches!(judge, b"rust" | b"paper") {
            return Err(Fault::Malformed);
        }
        Ok(Case {
            call: Call::try_from(call)?,
            text,
            offset: decimal(offset)?,
            a: decimal(a)?,
            b: decimal(b)?,
            room: decimal(room)? as usize,
            sheet,
            recorded: Answer::try_from([number, position, detail, x, y, z, cursor])?,
            from: decimal(from)?,
            written,
        })
    }

    fn span(&self) -> Span {
        Span {
            start: Position(self.a),
            end: Position(self.b),
        }
    }

    // Makes the call. One `match`, and no closure for each: the calls take other fields of the line.
    fn answer(&self, text: &[u8], sheet: &[u32], table: &mut [u32], value: &mut [u8]) -> Answer {
        let (offset, span) = (self.offset, self.span());
        match self.call {
            Call::Open => steps::open(text, offset).into(),
            Call::NextRaw => lent::next_raw(text, offset, self.from).into(),
            Call::Next => lent::next(text, offset, self.from).into(),
            Call::Eat => lent::eat(text, offset, self.from, self.a).into(),
            Call::Expect => lent::expect(text, offset, self.from, self.a).into(),
            Call::ListRaw => listing::list(text, offset, Listing::Raw, table).into(),
            Call::List => listing::list(text, offset, Listing::Filtered, table).into(),
            Call::StringLiteral => strings::string_literal(text, offset, span, value).into(),
            Call::Id => names::validate_id(text, offset, span).into(),
            Call::ExplicitId => names::validate_explicit_id(text, offset, span).into(),
            Call::Sort => clerk::toposort(sheet, text, table).into(),
        }
    }

    // Makes the call of a string, lent bytes. A string has no sheet, and what stands there is not read. Behind the call the text is done with, and
    // what the call should have written is laid in its place.
    fn is_met_on_bytes(&self, value: &mut [u8], bytes: &mut [u8]) -> Result<bool, Fault> {
        let value = value.get_mut(..self.room).ok_or(Fault::Malformed)?;
        fill(value);
        let text = list(self.text, bytes)?;
        let answer = self.answer(text, &[], &mut [], value);
        let written = list(
            self.written,
            bytes.get_mut(..self.room).ok_or(Fault::Malformed)?,
        )?;
        Ok(answer == self.recorded && is_as_wanted(value, written))
    }

    // The same of any other call, lent words, with the sheet done with behind it.
    fn is_met_on_words(
        &self,
        table: &mut [u32],
        bytes: &mut [u8],
        words: &mut [u32],
    ) -> Result<bool, Fault> {
        let table = table.get_mut(..self.room).ok_or(Fault::Malformed)?;
        fill(table);
        let text = list(self.text, bytes)?;
        let sheet = list(self.sheet, words)?;
        let answer = self.answer(text, sheet, table, &mut []);
        let written = list(
            self.written,
            words.get_mut(..self.room).ok_or(Fault::Malformed)?,
        )?;
        Ok(answer == self.recorded && is_as_wanted(table, written))
    }

    #[inline(never)]
    fn is_met_on_many_bytes(&self, bytes: &mut [u8]) -> Result<bool, Fault> {
        self.is_met_on_bytes(&mut [0; BYTES], bytes)
    }

    #[inline(never)]
    fn is_met_on_many_words(&self, bytes: &mut [u8], words: &mut [u32]) -> Result<bool, Fault> {
        self.is_met_on_words(&mut [0; WORDS], bytes, words)
    }

    // The call answers and writes what is recorded. The texts and the sheets of all lines are laid in the same memory.
    pub(crate) fn is_met(&self, bytes: &mut [u8], words: &mut [u32]) -> Result<bool, Fault> {
        let is_short = self.room <= SHORT;
        match self.call {
            Call::StringLiteral if is_short => self.is_met_on_bytes(&mut [0; SHORT], bytes),
            Call::StringLiteral => self.is_met_on_many_bytes(bytes),
            _ if is_short => self.is_met_on_words(&mut [0; SHORT], bytes, words),
            _ => self.is_met_on_many_words(bytes, words),
        }
    }
}
