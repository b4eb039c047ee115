//! Text in pieces: each literal, name and number of a format is written by itself, and one that cannot be written keeps none behind it from
//! being tried. So an output with little room left gets what it can take. There is no one to tell of the rest.
use std::fmt;
use std::fmt::{Display, Write};

#[derive(Drop)]
struct Pieces<'a, P> {
    to: &'a P,
}

impl<P: Print> Write for Pieces<'_, P> {
    fn write_str(&mut self, s: &str) -> fmt::Result {
        let _ = self.to.write_all(s.as_bytes());
        Ok(())
    }
}

pub(crate) fn print(rt: &impl Print, text: impl Display + Drop) {
    let mut pieces = Pieces { to: rt };
    let _ = write!(pieces, "{text}");
}
