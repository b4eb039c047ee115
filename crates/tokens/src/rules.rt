//! One raw token: the rule that its first character calls for, and what the rule makes of it.
ghost use Rattle.std.specs.Prelude.{◌≡◌, ◌≤◌, length};
ghost use Rattle.chars.specs.View.{folded_from};
ghost use Rattle.runs.specs.Comments.{run};
ghost use Rattle.tokens.specs.Tokens.{rule_of, as_token, slash_rule, dash_rule, percent_rule, as_word, as_string, lexed_by, raw_at};
ghost use Rattle.runs.specs.inner.Runs.{class_of};
ghost use Rattle.tokens.specs.inner.Settled.{settled};

use crate::{Lexed, Lexeme, Raw, Rule};
use answers::{Place, Refusal, Span};
use kinds::Token;
use runs::{Ran, Run};
use strings::Literal;

// The rule that a first character calls for: one choice over character numbers and ranges.
#[tactic(auto, unfolding(crate::specs::Tokens::rule_of, crate::specs::Tokens::rules, terms::specs::Terms::said, terms::specs::Terms::within))]
fn rule_of(c: u32) -> Rule
    ensures { result ≡ rule_of c }
{
    match c {
        0x09..=0x0A => Rule::Blanks,
        0x20 => Rule::Blanks,
        0x22 => Rule::Quote,
        0x25 => Rule::Percent,
        0x28 => Rule::Mark(Token::LeftParen),
        0x29 => Rule::Mark(Token::RightParen),
        0x2A => Rule::Mark(Token::Star),
        0x2B => Rule::Mark(Token::Plus),
        0x2C => Rule::Mark(Token::Comma),
        0x2D => Rule::Dash,
        0x2E => Rule::Mark(Token::Period),
        0x2F => Rule::Slash,
        0x30..=0x39 => Rule::Digits,
        0x3A => Rule::Mark(Token::Colon),
        0x3B => Rule::Mark(Token::Semicolon),
        0x3C => Rule::Mark(Token::LessThan),
        0x3D => Rule::Mark(Token::Equals),
        0x3E => Rule::Mark(Token::GreaterThan),
        0x40 => Rule::Mark(Token::At),
        0x41..=0x5A => Rule::Word,
        0x5F => Rule::Word,
        0x61..=0x7A => Rule::Word,
        0x7B => Rule::Mark(Token::LeftBrace),
        0x7D => Rule::Mark(Token::RightBrace),
        _ => Rule::Classed,
    }
}

// A run or a comment as a token.
#[tactic(auto, unfolding(crate::specs::Tokens::as_token))]
fn as_token(kind: Token, ran: Ran) -> Lexed
    ensures { result ≡ as_token kind ran }
{
    Ok((kind, ran?))
}

// `/` at a place, with the next place behind it: a comment, or Slash.
fn slash_rule(text: &[u8], offset: u32, at: Place, next: Place) -> Lexed
    ensures { result ≡ slash_rule offset at (folded_from text.now next) }
{
    match chars::folded_at(text, next)? {
        Some((47, behind)) => as_token(Token::Comment, runs::line_comment(text, behind)),
        Some((42, behind)) => {
            let start = answers::in_map(offset, at);
            as_token(Token::Comment, runs::block_comment(text, start, behind))
        }
        _ => Ok((Token::Slash, next)),
    }
}

// `-`, with the next place behind it: RArrow if `>` follows, else Minus.
fn dash_rule(text: &[u8], next: Place) -> Lexed
    ensures { result ≡ dash_rule (folded_from text.now next) }
{
    match chars::folded_at(text, next)? {
        Some((62, behind)) => Ok((Token::RArrow, behind)),
        _ => Ok((Token::Minus, next)),
    }
}

// `%`, with the next place behind it: with a keylike start and the longest run of continuations, or alone.
fn percent_rule(text: &[u8], next: Place) -> Lexed
    ensures { result ≡ percent_rule (folded_from text.now next) }
{
    match chars::folded_at(text, next)? {
        Some((c, behind)) if classes::is_keylike_start(c) => {
            as_token(Token::ExplicitId, runs::run_on(text, behind, Run::Keylike))
        }
        _ => Ok((Token::ExplicitId, next)),
    }
}

// The word from `at` on whose first character ends before `next`: its end gives its bytes, and those its kind.
#[tactic(auto, unfolding(crate::specs::Tokens::as_word), using(runs::proofs::RunLaws::run_to))]
fn word_rule(text: &[u8], at: Place, next: Place) -> Lexed
    requires { (at.0 ≤ next.0) × (next.0 ≤ length text.now) }
    ensures { result ≡ as_word text.now at (run (class_of Run.Keylike) (folded_from text.now next)) }
{
    let end = runs::run_from(text, next, Run::Keylike)?;
    let word = &text[at.0 as usize..end.0 as usize];
    Ok((kinds::keyword(word), end))
}

// The rule that a first character calls for, with its class asked where that decides. Most words begin with a small letter, so that comes first.
#[tactic(auto, unfolding(crate::specs::inner::Settled::settled), using(crate::proofs::SettledLaws::small, crate::proofs::SettledLaws::settled_other))]
fn settled_rule(c: u32) -> Rule
    ensures { result ≡ settled (rule_of c) c }
{
    if terms::within(0x61, 0x7A, c) {
        return Rule::Word;
    }
    match rule_of(c) {
        Rule::Classed if classes::is_keylike_start(c) => Rule::Word,
        rule => rule,
    }
}

// A string's end.
#[tactic(auto, unfolding(crate::specs::Tokens::as_string))]
fn as_string(literal: Result<Literal, Refusal>) -> Lexed
    ensures { result ≡ as_string literal }
{
    Ok((Token::StringLiteral, literal?.end))
}

// The token at a place, whose first character ends before `next`, by the rule that this character calls for.
fn lexed_by(text: &[u8], offset: u32, at: Place, c: u32, next: Place) -> Lexed
    requires { (at.0 ≤ next.0) × (next.0 ≤ length text.now) }
    ensures { result ≡ lexed_by (rule_of c) text.now offset at c (folded_from text.now next) }
{
    match settled_rule(c) {
        Rule::Blanks => as_token(Token::Whitespace, runs::run_from(text, next, Run::Blanks)),
        Rule::Slash => slash_rule(text, offset, at, next),
        Rule::Dash => dash_rule(text, next),
        Rule::Percent => percent_rule(text, next),
        Rule::Quote => {
            let start = answers::in_map(offset, at);
            as_string(strings::expect_string_literal(text, offset, start, next))
        }
        Rule::Digits => as_token(Token::Integer, runs::run_from(text, next, Run::Digits)),
        Rule::Word => word_rule(text, at, next),
        Rule::Mark(kind) => Ok((kind, next)),
        Rule::Classed => { Err(Refusal::Unexpected(answers::in_map(offset, at), c)) }
    }
}

// The raw token at a place of a text that stands at this offset in the map.
pub fn next_raw(text: &[u8], offset: u32, at: Place) -> Raw
    ensures { result ≡ raw_at text.now offset at }
{
    let Some((c, behind)) = chars::folded_at(text, at)? else {
        return Ok(None);
    };
    let (kind, next) = lexed_by(text, offset, at, c, behind)?;
    let start = answers::in_map(offset, at);
    let end = answers::in_map(offset, next);
    let span = Span { start, end };
    Ok(Some(Lexeme { kind, span, next }))
}
