//! rows [--filtered] [--numbers] FILE: the tokens of a WIT file, one a line, up to the first refusal.
#![tactic(auto)]

mod characters;
mod kind_names;
mod lines;
mod options;
mod refusing;
mod stepping;

use files::Argument;
use options::{Asked, Form, USAGE};
use std::io;
use std::io::Write;
use std::rt::{Env, Files};

// The tokens of the file that an argument names. Its name and its text lie here, for all that prints: they take no memory that can run out. A frame of
// its own, since who asks for help is not to have room for them.
#[inline(never)]
fn list(rt: &(impl Env + Files), out: &mut impl Write, i: usize, form: Form) -> io::Result<()> {
    let mut name = [0; 4096];
    let mut text = [0; 65537];
    let file = Argument::at(rt, i, &mut name).unwrap_or(Argument::TooLong);
    match files::load(rt, file, &mut text) {
        Ok(source) => stepping::print(out, source.name, source.text, form),
        Err(complaint) => complaint.say(out),
    }
}

// Prints what is asked for, or what is wrong with the question or the file.
fn answer(rt: &(impl Env + Files), out: &mut impl Write) -> io::Result<()> {
    match Asked::by(rt) {
        Asked::Help => out.write_all(USAGE.as_bytes()),
        Asked::Rows(file, form) => list(rt, out, file, form),
        Asked::Wrong(wrong) => {
            wrong.say(rt, out)?;
            // what is wrong goes out before the rest is tried
            out.flush()?;
            out.write_all(USAGE.as_bytes())
        }
    }
}

// Writing does not fail. Where standard output takes no more there is no one to tell, and the exit status says nothing.
fn main(rt: HostRuntime) {
    let mut out = files::output(rt.stdout());
    let _ = answer(&rt, &mut out);
    out.flush();
}
