//! The program's arguments, in lent buffers: they take no memory. They are bytes, and need not be text.
ghost use Rattle.std.specs.Prelude.{◌≡◌, ◌<◌, ◌≤◌, ◌↔◌, IfSome, IsTrue, length, slice_index};
ghost use Rattle.files.specs.inner.Arguments.{IsShort, bytes_of};

use std::env::FillError;
use std::rt::Env;

// The most bytes that the name of a file may have, with the zero behind it for the system.
const LONGEST: usize = 4096;

/// One of the program's arguments.
#[derive(Clone, Copy, Debug)]
pub enum Argument<'a> {
    Bytes(&'a [u8]),
    /// Over 4,096 bytes, which no name of a file has, or more than the buffer has room for.
    TooLong,
}

impl<'a> Argument<'a> {
    /// Argument i, counted with the program's name, which is the first: its bytes go to the front of the buffer. `None` where there is no such one.
    pub fn at(rt: &impl Env, i: usize, buffer: &'a mut [u8]) -> Option<Argument<'a>>
        ensures short { IfSome result IsShort }
        ensures lent { IfSome result (λ argument. length (bytes_of argument) ≤ length buffer.old) }
    {
        let room = buffer.len().min(LONGEST);
        let kept = &mut buffer[..room];
        match rt.arg(i, kept) {
            Ok(n) => Some(Argument::Bytes(&kept[..n])),
            Err(FillError::TooLong) => Some(Argument::TooLong),
            Err(FillError::NotPresent) => None,
        }
    }

    /// What can be compared with an option: nothing where the argument is too long.
    pub fn as_bytes(self) -> &'a [u8]
        ensures { result.now ≡ bytes_of self.entry }
    {
        match self {
            Argument::Bytes(bytes) => bytes,
            Argument::TooLong => &[],
        }
    }

    /// Whether it looks like an option: a dash, and more behind it.
    pub fn is_option(self) -> bool
        ensures { IsTrue result ↔ ((1 < length (bytes_of self.entry)) × (slice_index (bytes_of self.entry) 0 ≡ 45)) }
    {
        let bytes = self.as_bytes();
        bytes.len() > 1 && bytes[0] == b'-'
    }
}

#[cfg(test)]
mod tests {
    use super::*;
    use crate::argument_count;
    use std::test::Fail;

    // A program's name, an option, and an argument that is too long.
    struct Given;

    impl Env for Given {
        fn arg(&self, i: usize, buf: &mut [u8]) -> Result<usize, FillError> {
            match i {
                0 | 1 if buf.len() < 2 => Err(FillError::TooLong),
                0 | 1 => {
                    buf[0] = b'-';
                    buf[1] = b'x';
                    Ok(2)
                }
                2 => Err(FillError::TooLong),
                _ => Err(FillError::NotPresent),
            }
        }

        fn var(&self, _name: &str, _buf: &mut [u8]) -> Result<usize, FillError> {
            Err(FillError::NotPresent)
        }

        fn var_at(&self, _i: usize, _buf: &mut [u8]) -> Result<usize, FillError> {
            Err(FillError::NotPresent)
        }
    }

    // The bytes of an argument, and whether it looks like an option.
    fn told(i: usize, buffer: &mut [u8]) -> Option<(&[u8], bool)> {
        Argument::at(&Given, i, buffer).map(|argument| (argument.as_bytes(), argument.is_option()))
    }

    #[test]
    fn takes_all_behind_the_name(rt: HostRuntime) -> Result<(), Fail> {
        let mut buffer = [0; 8];
        assert_eq!(rt; argument_count(&Given), 3);
        assert_eq!(rt; told(1, &mut buffer), Some((b"-x".as_slice(), true)));
        assert_eq!(rt; told(2, &mut buffer), Some((b"".as_slice(), false)));
        assert_eq!(rt; told(3, &mut buffer), None);
        Ok(())
    }
}
