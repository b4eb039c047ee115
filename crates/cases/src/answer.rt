//! What a call answers, as the numbers that a line holds: the three of every answer, three more by the call, and the cursor.
use crate::fault::Fault;
use crate::fields::decimal;
use answers::{Numbers, Place, Refusal, Span};
use clerk::Sorted;
use kinds::Token;
use names::Id;
use steps::Moved;

#[derive(Clone, Copy, Debug, Default, PartialEq, Eq)]
pub struct Answer {
    pub number: u32,
    pub position: u32,
    pub detail: u32,
    pub x: u32,
    pub y: u32,
    pub z: u32,
    pub cursor: u32,
}

// The kind that stands for no token, in C and in the recorded answers.
const NO_KIND: u32 = 67;

// The answer that a line's fields hold.
impl TryFrom<[&[u8]; 7]> for Answer {
    type Error = Fault;

    fn try_from(fields: [&[u8]; 7]) -> Result<Answer, Fault> {
        let [number, position, detail, x, y, z, cursor] = fields;
        Ok(Answer {
            number: decimal(number)?,
            position: decimal(position)?,
            detail: decimal(detail)?,
            x: decimal(x)?,
            y: decimal(y)?,
            z: decimal(z)?,
            cursor: decimal(cursor)?,
        })
    }
}

impl From<Refusal> for Answer {
    fn from(refusal: Refusal) -> Answer {
        let Numbers {
            number,
            position,
            detail,
        } = refusal.numbers();
        Answer {
            number,
            position,
            detail,
            ..Answer::default()
        }
    }
}

// A check that hands nothing back.
impl From<()> for Answer {
    fn from(_: ()) -> Answer {
        Answer::default()
    }
}

// Opening, by the cursor.
impl From<Place> for Answer {
    fn from(at: Place) -> Answer {
        Answer {
            cursor: at.0,
            ..Answer::default()
        }
    }
}

// A listing or a string, by its count.
impl From<u32> for Answer {
    fn from(x: u32) -> Answer {
        Answer {
            x,
            ..Answer::default()
        }
    }
}

// An identifier, by its place and its length.
impl From<Id> for Answer {
    fn from(id: Id) -> Answer {
        Answer {
            x: id.first.0,
            y: id.last.0.wrapping_sub(id.first.0),
            ..Answer::default()
        }
    }
}

// A step.
impl From<Option<(Token, Span)>> for Answer {
    fn from(found: Option<(Token, Span)>) -> Answer {
        match found {
            Some((kind, span)) => Answer {
                x: u32::from(kind.kind()),
                y: span.start.0,
                z: span.end.0,
                ..Answer::default()
            },
            None => Answer::from(NO_KIND),
        }
    }
}

// What a call says where it accepts, or its refusal.
impl<T: Into<Answer>> From<Result<T, Refusal>> for Answer {
    fn from(answered: Result<T, Refusal>) -> Answer {
        match answered {
            Ok(said) => said.into(),
            Err(refusal) => refusal.into(),
        }
    }
}

// A step, and the place where it left the cursor.
impl From<Moved> for Answer {
    fn from(moved: Moved) -> Answer {
        Answer {
            cursor: moved.at.0,
            ..Answer::from(moved.step)
        }
    }
}

// A sort, by the settled count.
impl From<Sorted> for Answer {
    fn from(sorted: Sorted) -> Answer {
        Answer {
            x: sorted.settled,
            ..Answer::from(sorted.verdict)
        }
    }
}
