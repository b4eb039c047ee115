//! One raw token at a plain place of a text: the choice of the rule by the first character, and what the rule makes of it.
#![tactic(auto)]

mod rules;

use answers::{Place, Refusal, Span};
use kinds::Token;
pub use rules::next_raw;

// The rule that a token's first character calls for.
// An enum, and no function to call: the table `rules` (specs/Tokens.antt), which `rule_of` promises, has it as a value.
#[derive(Clone, Copy, Debug, PartialEq, Eq)]
pub enum Rule {
    Blanks,
    Slash,
    Dash,
    Percent,
    Quote,
    Digits,
    Word,
    // a mark by itself
    Mark(Token),
    // a character that its class decides on
    Classed,
}

// A raw token: its kind, the place behind it, and its span.
// The place stands before the span: with the span's end before it, both are read at once, where they were stored one by one, and a listing waits for that.
#[derive(Clone, Copy, Debug, PartialEq, Eq)]
pub struct Lexeme {
    pub kind: Token,
    pub next: Place,
    pub span: Span,
}

// What a raw step answers: a token, or none where the text ends; or a refusal.
pub type Raw = Result<Option<Lexeme>, Refusal>;

// What a rule makes of a token: its kind and the place behind it, or a refusal.
pub type Lexed = Result<(Token, Place), Refusal>;
