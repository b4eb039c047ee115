//! The calls that a line can name.
use crate::fault::Fault;
use std::fmt;

#[derive(Clone, Copy, Debug, PartialEq, Eq)]
pub enum Call {
    Open,
    NextRaw,
    Next,
    Eat,
    Expect,
    ListRaw,
    List,
    StringLiteral,
    Id,
    ExplicitId,
    Sort,
}

// How many there are.
pub const CALLS: usize = 11;

impl Call {
    pub const ALL: [Call; CALLS] = [
        Call::Open,
        Call::NextRaw,
        Call::Next,
        Call::Eat,
        Call::Expect,
        Call::ListRaw,
        Call::List,
        Call::StringLiteral,
        Call::Id,
        Call::ExplicitId,
        Call::Sort,
    ];

    fn name(self) -> &'static str {
        match self {
            Call::Open => "open",
            Call::NextRaw => "next_raw",
            Call::Next => "next",
            Call::Eat => "eat",
            Call::Expect => "expect",
            Call::ListRaw => "list_raw",
            Call::List => "list",
            Call::StringLiteral => "string",
            Call::Id => "id",
            Call::ExplicitId => "explicit",
            Call::Sort => "sort",
        }
    }
}

impl TryFrom<&[u8]> for Call {
    type Error = Fault;

    fn try_from(name: &[u8]) -> Result<Call, Fault> {
        Call::ALL
            .into_iter()
            .find(|call| call.name().as_bytes() == name)
            .ok_or(Fault::Malformed)
    }
}

impl fmt::Display for Call {
    fn fmt<W: fmt::Write>(&self, f: &mut fmt::Formatter<W>) -> fmt::Result {
        f.write_str(self.name())
    }
}
