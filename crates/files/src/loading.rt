//! The file that an argument names, read into a lent buffer.
ghost use Rattle.std.specs.Prelude.{◌≡◌, ◌≤◌, length, IfOk};
ghost use Rattle.files.specs.inner.Arguments.{bytes_of};

use crate::{Argument, Complaint, Fault};
use std::io::Read;
use std::rt::Files;
use std::{fs, io, str};

// The most bytes that a text, or the names of a sheet, may have.
const CAP: usize = 65536;

/// A file that was read whole: its name, and its bytes.
#[derive(Clone, Copy, Debug)]
pub struct Source<'a> {
    pub name: &'a [u8],
    pub text: &'a [u8],
    ghost in_cap: { length text.now ≤ 65536 },
}

// Reads up to the end of the file or of the buffer. No `for`: how many reads it takes is the system's choice.
fn fill(file: &mut impl Read, buffer: &mut [u8]) -> io::Result<usize>
    ensures { IfOk result (λ n. n ≤ length buffer.new) }
{
    let mut done = 0;
    while done < buffer.len() {
        match file.read(&mut buffer[done..])? {
            0 => break,
            n => done += n,
        }
    }
    Ok(done)
}

fn read<'a>(rt: &impl Files, path: &[u8], buffer: &'a mut [u8]) -> Result<&'a [u8], Fault>
    ensures in_cap { IfOk result (λ text. length text.now ≤ 65536) }
    ensures lent { IfOk result (λ text. length text.now ≤ length buffer.old) }
{
    let mut file = fs::open(rt, str::from_utf8(path)?)?;
    let n = fill(&mut file, buffer)?;
    if n > CAP {
        return Err(Fault::TooLong);
    }
    Ok(&buffer[..n])
}

/// Reads the file of this name to the front of the buffer. That should have room for a byte more than the cap, so that a longer file is told from
/// one that just fits; of a longer file than the buffer no more is read.
pub fn load<'a>(
    rt: &impl Files,
    argument: Argument<'a>,
    buffer: &'a mut [u8],
) -> Result<Source<'a>, Complaint<'a>>
    ensures in_cap { IfOk result (λ source. length source.text.now ≤ 65536) }
    ensures lent { IfOk result (λ source. length source.text.now ≤ length buffer.old) }
    ensures name { IfOk result (λ source. source.name.now ≡ bytes_of argument.entry) }
{
    let (name, read) = match argument {
        Argument::TooLong => (b"an argument".as_slice(), Err(Fault::NameTooLong)),
        Argument::Bytes(b"") => (b"an empty argument".as_slice(), Err(Fault::NoName)),
        Argument::Bytes(name) => (name, read(rt, name, buffer)),
    };
    match read {
        Ok(text) => Ok(Source { name, text }),
        Err(fault) => Err(Complaint { name, fault }),
    }
}

#[cfg(test)]
mod tests {
    use super::*;
    use std::test::Fail;

    #[test]
    fn tells_files_apart(rt: HostRuntime) -> Result<(), Fail> {
        let mut buffer = [0; 65537];
        let empty = Argument::Bytes(b"/dev/null");
        assert_eq!(rt; load(&rt, empty, &mut buffer)?.text.len(), 0);
        let cases: [(&[u8], Fault); 5] = [
            (b"/dev/zero", Fault::TooLong),
            (b"/dev", Fault::IsADirectory),
            (b"/dev/null/x", Fault::NotADirectory),
            (b"/dev/\xff", Fault::NameNotUtf8),
            (b"", Fault::NoName),
        ];
        for (name, fault) in cases {
            let found = load(&rt, Argument::Bytes(name), &mut buffer)
                .err()
                .map(|c| c.fault);
            assert_eq!(rt; found, Some(fault));
        }
        Ok(())
    }
}
