//! The kinds of token with their numbers, and the keyword that a word's bytes are. A host asks for a kind's number alone; the keyword
//! is for the token rules.
#![tactic(auto)]

mod words;

ghost use Rattle.std.specs.Prelude.{◌<◌, ◌≡◌};
ghost use Rattle.kinds.specs.Kinds.{kind_of};

pub use words::keyword;

// The kinds of token, in the order of lex.rs's `Token`: a kind's number is its place in it.
#[derive(Clone, Copy, Debug, PartialEq, Eq)]
pub enum Token {
    Whitespace,
    Comment,
    Equals,
    Comma,
    Colon,
    Period,
    Semicolon,
    LeftParen,
    RightParen,
    LeftBrace,
    RightBrace,
    LessThan,
    GreaterThan,
    RArrow,
    Star,
    At,
    Slash,
    Plus,
    Minus,
    StringLiteral,
    Use,
    Type,
    Func,
    U8,
    U16,
    U32,
    U64,
    S8,
    S16,
    S32,
    S64,
    F32,
    F64,
    Char,
    Record,
    Resource,
    Own,
    Borrow,
    Flags,
    Variant,
    Enum,
    Bool,
    String_,
    Option_,
    Result_,
    Future,
    Stream,
    ErrorContext,
    List,
    Map,
    Underscore,
    As,
    From_,
    Static,
    Interface,
    Tuple,
    Import,
    Export,
    World,
    Package,
    Constructor,
    Async,
    Id,
    ExplicitId,
    Integer,
    Include,
    With,
}

impl Token {
    // A kind's number.
    #[tactic(auto, unfolding(crate::specs::Kinds::kind_of))]
    pub fn kind(self) -> u8
        ensures { result ≡ kind_of self }
    {
        self as u8
    }
}
