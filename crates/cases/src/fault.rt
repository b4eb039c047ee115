//! Why a line has no outcome.
use std::num::ParseIntError;
use std::str::Utf8Error;

#[derive(Debug, Drop)]
pub enum Fault {
    // it cannot be read
    Malformed,
}

impl From<Utf8Error> for Fault {
    fn from(_: Utf8Error) -> Fault {
        Fault::Malformed
    }
}

impl From<ParseIntError> for Fault {
    fn from(_: ParseIntError) -> Fault {
        Fault::Malformed
    }
}
