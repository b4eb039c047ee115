//! The identifier that a span names: its checks in their order, and what is handed back.
ghost use Rattle.std.specs.Prelude.{◌≡◌, ◌-◌, ◌≤◌, length, take, drop};
ghost use Rattle.answers.specs.Caps.{cap};
ghost use Rattle.chars.specs.View.{chars_from};
ghost use Rattle.parts.specs.declared.Part.{Part};
ghost use Rattle.parts.specs.Parts.{parts_from};
ghost use Rattle.names.specs.Names.{cut, span_verdict, percent_verdict, named_by, plain_id, explicit_id, part_of, bytes_of};

use crate::single_case::one_case;
use crate::{Id, Named};
use answers::{Place, Position, Refusal, Span, Verdict};
use parts::check_parts;

// A cut before a byte 80 to BF.
#[tactic(auto, unfolding(crate::specs::Names::cut))]
fn is_cut(text: &[u8], at: Place) -> bool
    ensures { result ≡ cut text.now at }
{
    terms::within(0x80, 0xBF, chars::byte_at(text, at))
}

// 22: the span starts before the offset or behind its own end, ends past the text, or cuts a character.
#[tactic(auto, unfolding(crate::specs::Names::span_verdict))]
fn check_span(text: &[u8], offset: u32, span: Span) -> Verdict
    ensures { result ≡ span_verdict text.now offset span }
{
    let Span { start, end } = span;
    if start.0 < offset || end.0 < start.0 || offset as usize + text.len() < end.0 as usize {
        return Err(Refusal::BadSpan);
    }
    if is_cut(text, Place(start.0 - offset)) || is_cut(text, Place(end.0 - offset)) {
        return Err(Refusal::BadSpan);
    }
    Ok(())
}

// 22 for the explicit form: no leading `%`.
#[tactic(auto, unfolding(crate::specs::Names::percent_verdict))]
fn check_percent(text: &[u8], offset: u32, span: Span) -> Verdict
    requires { offset ≤ span.start.0 }
    ensures { result ≡ percent_verdict text.now offset span }
{
    let Span { start, end } = span;
    if start.0 < end.0 && chars::byte_at(text, Place(start.0 - offset)) == 0x25 {
        return Ok(());
    }
    Err(Refusal::BadSpan)
}

// The identifier from one place to another, by its parts. Most are of one case, so that comes first.
// Joined with each caller, so that its answer is not handed over in memory.
#[inline(always)]
#[tactic(auto, unfolding(crate::specs::Names::named_by))]
fn named(text: &[u8], start: Position, first: Place, last: Place) -> Named
    requires { (last.0 ≤ length text.now) × (last.0 ≤ cap) }
    ensures { result ≡ named_by (parts_from start last Part.First (chars_from text.now first)) first last }
{
    if !one_case(text, first, last) {
        check_parts(text, start, first, last)?;
    }
    Ok(Id { first, last })
}

// The plain identifier that a span names: 1, 2, 22, then its parts.
// Two names, since C has a call of each and a theorem speaks of each (proofs/OneAnswer.antt), as of the two `parse` below; one `named` is under both.
#[tactic(auto, unfolding(answers::specs::Caps::first_of, crate::specs::Names::plain_id, crate::specs::Names::plain_verdict, crate::specs::Names::named_by), using(answers::proofs::CapsLaws::text_in, crate::proofs::NameLaws::span_lies))]
pub fn validate_id(text: &[u8], offset: u32, span: Span) -> Named
    ensures { result ≡ plain_id text.now offset span }
{
    answers::check_text(offset, text.len())?;
    check_span(text, offset, span)?;
    let first = Place(span.start.0 - offset);
    named(text, span.start, first, Place(span.end.0 - offset))
}

// The explicit identifier that a span names: the same behind a `%`.
#[tactic(auto, unfolding(answers::specs::Caps::first_of, crate::specs::Names::explicit_id, crate::specs::Names::explicit_verdict, crate::specs::Names::named_by), using(answers::proofs::CapsLaws::text_in, crate::proofs::NameLaws::span_lies, crate::proofs::NameLaws::percent_leads))]
pub fn validate_explicit_id(text: &[u8], offset: u32, span: Span) -> Named
    ensures { result ≡ explicit_id text.now offset span }
{
    answers::check_text(offset, text.len())?;
    check_span(text, offset, span)?;
    check_percent(text, offset, span)?;
    let first = Place(span.start.0 - offset + 1);
    named(text, span.start, first, Place(span.end.0 - offset))
}

// The identifier's part of the text.
fn part<'a>(text: &'a [u8], id: Id) -> &'a [u8]
    requires { (id.first.0 ≤ id.last.0) × (id.last.0 ≤ length text.now) }
    ensures { result.now ≡ take (id.last.0 - id.first.0) (drop id.first.0 text.now) }
{
    &text[id.first.0 as usize..id.last.0 as usize]
}

// The bytes of a plain identifier, as a part of the caller's own text.
#[tactic(auto, unfolding(crate::specs::Names::part_of), using(crate::proofs::NameLaws::plain_within))]
pub fn parse_id<'a>(text: &'a [u8], offset: u32, span: Span) -> Result<&'a [u8], Refusal>
    ensures { bytes_of result ≡ part_of text.now (plain_id text.now offset span) }
{
    Ok(part(text, validate_id(text, offset, span)?))
}

// The bytes of an explicit identifier, without its `%`.
#[tactic(auto, unfolding(crate::specs::Names::part_of), using(crate::proofs::NameLaws::explicit_within))]
pub fn parse_explicit_id<'a>(text: &'a [u8], offset: u32, span: Span) -> Result<&'a [u8], Refusal>
    ensures { bytes_of result ≡ part_of text.now (explicit_id text.now offset span) }
{
    Ok(part(text, validate_explicit_id(text, offset, span)?))
}
