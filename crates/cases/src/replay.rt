//! All lines of the list, from an open file.
ghost use Rattle.std.specs.Prelude.{◌≤◌, length};

use crate::call::Call;
use crate::case::Case;
use crate::fault::Fault;
use crate::fields::{BYTES, WORDS};
use crate::pieces::print;
use crate::tally::Tally;
use std::fs::File;
use std::io::Read;

// The most bytes that a line has, with its newline.
const LONGEST: usize = 8192;

// A line that cannot be read is named.
fn name_malformed(rt: &impl Print, tally: &mut Tally, line: u32) {
    tally.add_malformed();
    print(rt, format_args!("line {line} is malformed\n"));
}

// What a line's call comes to: whether it answers and writes what is recorded.
fn outcome(line: &[u8], bytes: &mut [u8], words: &mut [u32]) -> Result<(Call, bool), Fault> {
    let case = Case::read(line)?;
    Ok((case.call, case.is_met(bytes, words)?))
}

// One more line. One that differs is named.
fn replay_line(
    rt: &impl Print,
    line: &[u8],
    bytes: &mut [u8],
    words: &mut [u32],
    tally: &mut Tally,
) {
    let number = tally.add_line();
    if line.starts_with(b"#") {
        tally.add_comment();
        return;
    }
    match outcome(line, bytes, words) {
        Ok((call, is_same)) => {
            tally.add_case(call, is_same);
            if !is_same {
                print(rt, format_args!("line {number} differs: {call}\n"));
            }
        }
        Err(Fault::Malformed) => name_malformed(rt, tally, number),
    }
}

// The whole lines at the front of what is held; how many bytes they take.
fn replay_lines(
    rt: &impl Print,
    held: &[u8],
    bytes: &mut [u8],
    words: &mut [u32],
    tally: &mut Tally,
) -> usize
    ensures { result ≤ length held.now }
{
    let Some(last) = held.iter().rposition(|byte| *byte == b'\n') else {
        return 0;
    };
    for line in held[..last].split(|byte| *byte == b'\n') {
        replay_line(rt, line, bytes, words, tally);
    }
    last + 1
}

// The whole file. What is left when nothing more can be read has no newline, or is too long: a line that cannot be read.
// Nothing says that a file ends, so the reads are counted by a number that no run uses up. The frame is not joined with its caller's: its memory
// is not there any more when the edges take theirs.
#[inline(never)]
pub(crate) fn replay(rt: &impl Print, mut file: File, tally: &mut Tally) {
    let mut buffer = [0; LONGEST];
    let mut bytes = [0; BYTES];
    let mut words = [0; WORDS];
    let mut held = 0;
    for _ in 0..u64::MAX {
        // a failed read ends the list, as its end does
        let more = held + file.read(&mut buffer[held..]).unwrap_or(0);
        if more == held {
            break;
        }
        let used = replay_lines(rt, &buffer[..more], &mut bytes, &mut words, tally);
        buffer.copy_within(used..more, 0);
        held = more - used;
    }
    if held > 0 {
        let number = tally.add_line();
        name_malformed(rt, tally, number);
    }
}
