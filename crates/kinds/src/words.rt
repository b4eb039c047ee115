//! Words: the keyword that a word's bytes are. A word is compared byte by byte, and only with the keywords of its own length.
//! A function for each length: one `match` of all 44 is longer than a function may be here, and two, for short and for long words, are slower.
#![tactic(auto, unfolding(crate::specs::Keywords::keyword, crate::specs::Keywords::key_in, crate::specs::Keywords::keywords, terms::specs::Terms::ascii), using(crate::proofs::ReadLaws::by_bytes))]

ghost use Rattle.std.specs.Prelude.{◌≡◌, ◌≤◌, length};
ghost use Rattle.kinds.specs.Keywords;

use crate::Token;

fn keyword_of_one(word: &[u8]) -> Token
    requires { length word.now ≡ 1 }
    ensures { result ≡ Keywords.keyword word.now }
{
    match word {
        b"_" => Token::Underscore,
        _ => Token::Id,
    }
}

fn keyword_of_two(word: &[u8]) -> Token
    requires { length word.now ≡ 2 }
    ensures { result ≡ Keywords.keyword word.now }
{
    match word {
        b"as" => Token::As,
        b"s8" => Token::S8,
        b"u8" => Token::U8,
        _ => Token::Id,
    }
}

fn keyword_of_three(word: &[u8]) -> Token
    requires { length word.now ≡ 3 }
    ensures { result ≡ Keywords.keyword word.now }
{
    match word {
        b"use" => Token::Use,
        b"u16" => Token::U16,
        b"u32" => Token::U32,
        b"u64" => Token::U64,
        b"s16" => Token::S16,
        b"s32" => Token::S32,
        b"s64" => Token::S64,
        b"f32" => Token::F32,
        b"f64" => Token::F64,
        b"own" => Token::Own,
        b"map" => Token::Map,
        _ => Token::Id,
    }
}

fn keyword_of_four(word: &[u8]) -> Token
    requires { length word.now ≡ 4 }
    ensures { result ≡ Keywords.keyword word.now }
{
    match word {
        b"type" => Token::Type,
        b"func" => Token::Func,
        b"char" => Token::Char,
        b"enum" => Token::Enum,
        b"bool" => Token::Bool,
        b"list" => Token::List,
        b"from" => Token::From_,
        b"with" => Token::With,
        _ => Token::Id,
    }
}

fn keyword_of_five(word: &[u8]) -> Token
    requires { length word.now ≡ 5 }
    ensures { result ≡ Keywords.keyword word.now }
{
    match word {
        b"flags" => Token::Flags,
        b"tuple" => Token::Tuple,
        b"world" => Token::World,
        b"async" => Token::Async,
        _ => Token::Id,
    }
}

fn keyword_of_six(word: &[u8]) -> Token
    requires { length word.now ≡ 6 }
    ensures { result ≡ Keywords.keyword word.now }
{
    match word {
        b"borrow" => Token::Borrow,
        b"record" => Token::Record,
        b"string" => Token::String_,
        b"option" => Token::Option_,
        b"result" => Token::Result_,
        b"future" => Token::Future,
        b"stream" => Token::Stream,
        b"static" => Token::Static,
        b"import" => Token::Import,
        b"export" => Token::Export,
        _ => Token::Id,
    }
}

fn keyword_of_seven(word: &[u8]) -> Token
    requires { length word.now ≡ 7 }
    ensures { result ≡ Keywords.keyword word.now }
{
    match word {
        b"variant" => Token::Variant,
        b"package" => Token::Package,
        b"include" => Token::Include,
        _ => Token::Id,
    }
}

// The keywords of eight bytes or more.
fn long_keyword(word: &[u8]) -> Token
    requires { 8 ≤ length word.now }
    ensures { result ≡ Keywords.keyword word.now }
{
    match word {
        b"resource" => Token::Resource,
        b"interface" => Token::Interface,
        b"constructor" => Token::Constructor,
        b"error-context" => Token::ErrorContext,
        _ => Token::Id,
    }
}

// A word's kind.
pub fn keyword(word: &[u8]) -> Token
    ensures { result ≡ Keywords.keyword word.now }
{
    match word.len() {
        0 => Token::Id,
        1 => keyword_of_one(word),
        2 => keyword_of_two(word),
        3 => keyword_of_three(word),
        4 => keyword_of_four(word),
        5 => keyword_of_five(word),
        6 => keyword_of_six(word),
        7 => keyword_of_seven(word),
        _ => long_keyword(word),
    }
}
