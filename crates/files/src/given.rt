//! The program's arguments one by one, in a lent buffer: this takes no memory and cannot fail.
ghost use Rattle.std.specs.Prelude.{◌≤◌, length};

use std::env::FillError;
use std::rt::Env;

/// Argument i to the front of the buffer, counted with the program's name, which is the first. The answer is its length; 0 where there is no such
/// argument, or the buffer lacks room for it.
pub fn argument(rt: &impl Env, i: usize, buffer: &mut [u8]) -> usize
    ensures { result ≤ length buffer.new }
{
    rt.arg(i, buffer).unwrap_or(0)
}

/// How many arguments there are, with the program's name, which is the first.
pub fn argument_count(rt: &impl Env) -> usize {
    for i in 0..usize::MAX {
        if let Err(FillError::NotPresent) = rt.arg(i, &mut []) {
            return i;
        }
    }
    usize::MAX
}
