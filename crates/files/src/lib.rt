//! What the programs share: their arguments, the file that one of them names, read whole, the line of a place in it, refusals in words, and
//! standard output.
#![tactic(auto)]

mod args;
mod faults;
mod given;
mod lines;
mod loading;
mod printing;
mod refusals;

pub use args::Argument;
pub use faults::{Complaint, Fault};
pub use given::{argument, argument_count};
pub use lines::line_behind;
pub use loading::{Source, load};
pub use printing::{Out, output};
pub use refusals::{InNumbers, InWords};
