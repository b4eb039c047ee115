//! Next raw and next on a plain place.
ghost use Rattle.std.specs.Prelude.{◌≡◌};
ghost use Rattle.steps.specs.Stream.{tokens_from};
ghost use Rattle.steps.specs.Steps.{step_verdict, raw_step, next_raw_at, is_blank, next_step, next_at};

use crate::{Moved, Step};
use answers::{Place, Refusal, Verdict};
use kinds::Token;
use tokens::Raw;

// What a step checks before it reads: 1, 2, 23.
#[tactic(auto, unfolding(crate::specs::Steps::step_verdict, crate::specs::Steps::cursor_verdict, answers::specs::Caps::first_of))]
pub fn check_step(text: &[u8], offset: u32, at: Place) -> Verdict
    ensures { result ≡ step_verdict text.now offset at }
{
    answers::check_text(offset, text.len())?;
    if at.0 as usize <= text.len() {
        return Ok(());
    }
    Err(Refusal::BeyondText)
}

#[tactic(auto, unfolding(crate::specs::Steps::raw_step))]
fn raw_step(at: Place, raw: Raw) -> Moved
    ensures { result ≡ raw_step at raw }
{
    match raw {
        Ok(Some(lexeme)) => Moved {
            step: Ok(Some((lexeme.kind, lexeme.span))),
            at: lexeme.next,
        },
        Ok(None) => Moved { step: Ok(None), at },
        Err(refusal) => Moved {
            step: Err(refusal),
            at,
        },
    }
}

// Next raw: the token at the cursor.
#[tactic(auto, unfolding(crate::specs::Steps::next_raw_at, crate::specs::Steps::moved_by))]
pub fn next_raw_at(text: &[u8], offset: u32, at: Place) -> Moved
    ensures { result ≡ next_raw_at text.now offset at }
{
    match check_step(text, offset, at) {
        Ok(()) => raw_step(at, tokens::next_raw(text, offset, at)),
        Err(refusal) => Moved {
            step: Err(refusal),
            at,
        },
    }
}

// Kinds 0 and 1: blanks and comments.
#[tactic(auto, unfolding(crate::specs::Steps::is_blank, kinds::specs::Kinds::kind_of))]
pub fn is_blank(kind: Token) -> bool
    ensures { result ≡ is_blank kind }
{
    matches!(kind, Token::Whitespace | Token::Comment)
}

// The first token from a place on that is no blank and no comment.
// A `while let .. ?` would be no plainer: the end moves the cursor there, and a refusal leaves it at `from`.
#[tactic(auto, unfolding(crate::specs::Steps::raw_step), using(crate::proofs::StepLaws::next_end, crate::proofs::StepLaws::next_token))]
pub fn next_step(text: &[u8], offset: u32, from: Place) -> Moved
    ensures { result ≡ next_step from (tokens_from text.now offset from) }
{
    let mut at = from;
    loop {
        match tokens::next_raw(text, offset, at) {
            Ok(Some(lexeme)) if is_blank(lexeme.kind) => at = lexeme.next,
            Err(refusal) => return Moved {
                step: Err(refusal),
                at: from,
            },
            raw => return raw_step(at, raw),
        }
    }
}

// Next: the first token that is no blank and no comment.
#[tactic(auto, unfolding(crate::specs::Steps::next_at, crate::specs::Steps::moved_by))]
pub fn next_at(text: &[u8], offset: u32, at: Place) -> Moved
    ensures { result ≡ next_at text.now offset at }
{
    match check_step(text, offset, at) {
        Ok(()) => next_step(text, offset, at),
        Err(refusal) => Moved {
            step: Err(refusal),
            at,
        },
    }
}
