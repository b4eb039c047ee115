//! The tokens of a text, printed one by one as they are read.
use crate::characters::Quoted;
use crate::kind_names::name_of;
use crate::options::Form;
use crate::refusing;
use answers::{Place, Refusal, Span};
use kinds::Token;
use std::io;
use std::io::Write;
use steps::Moved;

// Why no row follows. No Debug: that of an error asks the system for its words, by a call in C that nothing else here makes.
#[derive(Clone, Copy)]
enum Stop {
    Refused(Refusal),
    // the writer takes no more
    Lost(io::Error),
}

impl From<Refusal> for Stop {
    fn from(refusal: Refusal) -> Stop {
        Stop::Refused(refusal)
    }
}

impl From<io::Error> for Stop {
    fn from(error: io::Error) -> Stop {
        Stop::Lost(error)
    }
}

// How many columns the digits of a number take.
fn digits(n: u32) -> usize {
    n.checked_ilog10().map_or(1, |log| log as usize + 1)
}

fn print_row(
    out: &mut impl Write,
    text: &[u8],
    kind: Token,
    span: Span,
    form: Form,
) -> io::Result<()> {
    let start = span.start.0;
    let end = span.end.0;
    if form.is_numbers {
        return writeln!(out, "{} {start} {end}", kind.kind());
    }
    // Both numbers have at most five digits: together they take ten columns.
    let width = 10usize.saturating_sub(digits(start));
    let bytes = text.get(start as usize..end as usize).unwrap_or(&[]);
    write!(out, "{:<14}{start}..{end:<width$}", name_of(kind))?;
    writeln!(out, " \"{}\"", Quoted(bytes))
}

// By the option of the command line: a closure for each of the two steps is no plainer.
fn step(text: &[u8], at: Place, form: Form) -> Moved {
    if form.is_filtered {
        steps::next_at(text, 0, at)
    } else {
        steps::next_raw_at(text, 0, at)
    }
}

// No token is empty, so a text has at most as many as it has bytes, and the turns last for the end behind them too.
fn print_rows(out: &mut impl Write, text: &[u8], form: Form) -> Result<(), Stop> {
    let mut at = steps::open(text, 0)?;
    for _ in 0..=text.len() {
        let moved = step(text, at, form);
        let Some((kind, span)) = moved.step? else {
            break;
        };
        print_row(out, text, kind, span, form)?;
        at = moved.at;
    }
    Ok(())
}

/// Prints the rows of a text, and behind them why it is refused.
pub(crate) fn print(out: &mut impl Write, name: &[u8], text: &[u8], form: Form) -> io::Result<()> {
    match print_rows(out, text, form) {
        Ok(()) => Ok(()),
        Err(Stop::Refused(refusal)) => refusing::print(out, name, text, refusal),
        Err(Stop::Lost(error)) => Err(error),
    }
}
