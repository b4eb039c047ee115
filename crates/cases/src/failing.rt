//! What the system has against a file, in a line on standard error.
use std::fmt;
use std::fmt::Write;
use std::io::{Error, Stderr};

// Standard error, for the words of an error. Behind them std writes the error's number in brackets, which is left out.
#[derive(Drop)]
struct Words {
    to: Stderr,
    is_over: bool,
}

impl Write for Words {
    fn write_str(&mut self, s: &str) -> fmt::Result {
        if s.starts_with(" (") {
            self.is_over = true;
        }
        if !self.is_over {
            let _ = self.to.write_all(s.as_bytes());
        }
        Ok(())
    }
}

pub(crate) fn fail(to: Stderr, path: &[u8], error: Error) {
    let _ = to.write_all(path);
    let _ = to.write_all(b": ");
    let mut words = Words { to, is_over: false };
    let _ = write!(words, "{error}");
    let _ = to.write_all(b"\n");
}
