//! What the arguments ask for.
use files::Argument;
use std::io;
use std::io::Write;
use std::rt::Env;

pub const USAGE: &str = "\
    usage: rows [--filtered] [--numbers] FILE\n\
    Prints the tokens of a WIT file, one a line: kind, bytes from start to end, text.\n\
    \x20 --filtered  leaves out blanks and comments\n\
    \x20 --numbers   prints three numbers for a token: kind, start, end\n\
    \x20 --help      prints this\n\
    Tokens are printed as they are read, also more than the 4,096 that a listing may have.\n\
    The exit status says nothing. What is wrong is said behind the tokens before it, as\n\
    \x20 FILE:LINE:COLUMN: what is wrong (number, position, detail)\n\
    and the line, with a caret under the place. A column is a character; a tab is one.\n\
    ";

/// Which tokens are printed, and how. Two flags, as the command line has them: each is given or not, whatever the other is.
#[derive(Clone, Copy, Debug)]
pub struct Form {
    pub is_filtered: bool,
    pub is_numbers: bool,
}

/// The number of an argument that is no option, or one file too many.
#[derive(Clone, Copy, Debug)]
pub enum Wrong {
    NoOption(usize),
    SecondFile(usize),
}

impl Wrong {
    /// Says it in one line.
    pub(crate) fn say(self, rt: &impl Env, out: &mut impl Write) -> io::Result<()> {
        let (what, i) = match self {
            Wrong::NoOption(i) => ("no such option: ", i),
            Wrong::SecondFile(i) => ("one file is wanted, and this is a second: ", i),
        };
        let mut word = [0; 4096];
        let length = files::argument(rt, i, &mut word);
        out.write_all(what.as_bytes())?;
        out.write_all(&word[..length])?;
        writeln!(out)
    }
}

/// What is asked for; a file by the number of its argument.
#[derive(Clone, Copy, Debug)]
pub enum Asked {
    Rows(usize, Form),
    Help,
    Wrong(Wrong),
}

impl Asked {
    /// With no file there is nothing to do but to say what the program is for.
    pub(crate) fn by(rt: &impl Env) -> Asked {
        let mut form = Form {
            is_filtered: false,
            is_numbers: false,
        };
        let mut is_help = false;
        let mut file = None;
        let mut wrong = None;
        for i in 1..files::argument_count(rt) {
            let mut buffer = [0; 4096];
            let argument = Argument::at(rt, i, &mut buffer).unwrap_or(Argument::TooLong);
            match argument.as_bytes() {
                b"--filtered" => form.is_filtered = true,
                b"--numbers" => form.is_numbers = true,
                b"--help" => is_help = true,
                _ if argument.is_option() => wrong = Some(Wrong::NoOption(i)),
                _ if file.is_some() => wrong = Some(Wrong::SecondFile(i)),
                _ => file = Some(i),
            }
        }
        match (wrong, file) {
            (Some(wrong), _) => Asked::Wrong(wrong),
            (None, Some(file)) if !is_help => Asked::Rows(file, form),
            _ => Asked::Help,
        }
    }
}
