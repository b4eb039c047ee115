//! Standard output, by a buffer of its own: a listing has many short pieces, and a call to the system for each would be slow. An array, and no
//! BufWriter, since that takes memory and can fail.
ghost use Rattle.std.specs.Prelude.{◌≡◌, ◌≤◌, None, IsOk};
ghost use Rattle.std.specs.Io.{WritesAtMost};
ghost use Rattle.std.specs.Io.KnownBytes.{Keeps, WriteAppends};

use crate::refusals::{Shown, words};
use answers::Numbers;
use std::io;
use std::io::{Stdout, Write};

/// Bytes on their way to standard output. They go there when it is full, and at `flush`. Writing to it does not fail: where standard output takes
/// no more there is no one to tell, and what comes behind is tried all the same.
#[derive(Drop)]
pub struct Out {
    pub to: Stdout,
    pub kept: [u8; 256],
    pub used: usize,
}

/// Nothing is on its way.
pub fn output(to: Stdout) -> Out
    ensures { result.used ≡ 0 }
{
    Out {
        to,
        kept: [0; 256],
        used: 0,
    }
}

impl Out {
    /// What is kept goes to standard output. There is no one to tell if it cannot.
    pub fn flush(&mut self)
        ensures { self.new.used ≡ 0 }
    {
        let _ = Write::flush(self);
    }

    pub fn byte(&mut self, b: u8) {
        self.text(&[b]);
    }

    pub fn text(&mut self, bytes: &[u8]) {
        let _ = self.write_all(bytes);
    }

    pub fn number(&mut self, n: u64) {
        let _ = write!(self, "{n}");
    }

    /// Line k of a table, from 0, without its newline; nothing where it has fewer.
    pub fn entry(&mut self, table: &[u8], k: u32) {
        if let Some(line) = table.split(|&b| b == b'\n').nth(k as usize) {
            self.text(line);
        }
    }

    /// The end of a line.
    pub fn line(&mut self) {
        self.byte(b'\n');
    }

    /// What a refusal's number says.
    pub fn message(&mut self, number: u32) {
        self.text(words(number).as_bytes());
    }

    /// The three numbers, and the end of the line.
    pub fn numbers(&mut self, told: Numbers) {
        let _ = writeln!(self, " {}", Shown(told));
    }
}

impl Write for Out {
    fn write(&mut self, buf: &[u8]) -> io::Result<usize>
        ensures bound { WritesAtMost result buf.now }
        ensures bytes { WriteAppends None None result buf.now }
        ensures never_fails { IsOk result }
    {
        if buf.is_empty() {
            return Ok(0);
        }
        if self.used >= self.kept.len() {
            self.flush();
        }
        let n = buf.len().min(self.kept.len() - self.used);
        self.kept[self.used..self.used + n].copy_from_slice(&buf[..n]);
        self.used += n;
        Ok(n)
    }

    fn write_all(&mut self, buf: &[u8]) -> io::Result<()>
        ensures never_fails { IsOk result }
    {
        // where not all fits, the array is full: it goes out before each part of the rest, and the part fits
        let n = self.write(buf)?;
        for part in buf[n..].chunks(256) {
            self.write(part)?;
        }
        Ok(())
    }

    fn flush(&mut self) -> io::Result<()>
        ensures bytes { Keeps None None }
        ensures never_fails { IsOk result }
        ensures emptied { self.new.used ≡ 0 }
    {
        let _ = Print::write_all(&self.to, self.kept.get(..self.used).unwrap_or(&[]));
        self.used = 0;
        Ok(())
    }
}
