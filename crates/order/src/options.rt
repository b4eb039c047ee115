//! What the arguments ask for.
use files::Argument;
use std::rt::Env;

pub const USAGE: &str = "\
    usage: order FILE\n\
    \x20      order --propose FILE\n\
    \x20      order --check ORDER FILE\n\
    Prints the load order of the items of a list, one a line, and how many dependencies it settles.\n\
    The list has an item a line: its name, a colon, and the names of what it needs, with blanks between.\n\
    A # starts a comment. A name is any bytes but blanks, colons and #.\n\
    \x20 --propose  prints the order alone, as --check takes one\n\
    \x20 --check    says whether the file ORDER, names with blanks or newlines between, is a load order of the list, whoever made it\n\
    The exit status says nothing. What is wrong is said in place of the order, as\n\
    \x20 FILE:LINE: what is wrong (number, position, detail)\n\
    ";

/// What is asked for; files by the numbers of their arguments.
#[derive(Clone, Copy, Debug)]
pub enum Task {
    Sort(usize),
    Propose(usize),
    Check { order: usize, file: usize },
    Help,
}

impl Task {
    pub(crate) fn by(rt: &impl Env) -> Task {
        let mut buffer = [0; 4096];
        let first = Argument::at(rt, 1, &mut buffer).unwrap_or(Argument::TooLong);
        match (first.as_bytes(), files::argument_count(rt)) {
            (b"--propose", 3) => Task::Propose(2),
            (b"--check", 4) => Task::Check { order: 2, file: 3 },
            (_, 2) if !first.is_option() => Task::Sort(1),
            _ => Task::Help,
        }
    }
}
