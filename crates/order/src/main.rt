//! order FILE: the load order of a list of items with what each needs, or what is wrong with the list. With --propose an order alone, as a planner
//! hands it over; with --check what is wrong with such an order.
#![tactic(auto)]

mod checking;
mod kept;
mod lists;
mod options;
mod sheet;
mod sorting;
mod words;
mod wrong;

use clerk::Sorted;
use files::{Argument, Complaint, Source};
use options::{Task, USAGE};
use std::io;
use std::io::Write;
use std::rt::{Env, Files};

// The file that an argument names. A name and a text lie in the frames below, since that memory does not run out.
fn load<'a>(
    rt: &(impl Env + Files),
    i: usize,
    name: &'a mut [u8],
    text: &'a mut [u8],
) -> Result<Source<'a>, Complaint<'a>> {
    let file = Argument::at(rt, i, name).unwrap_or(Argument::TooLong);
    files::load(rt, file, text)
}

// How many dependencies the order settles; what is wrong is said in its place. A frame of its own, here and below, since no other task is to have room
// for what lies in it.
#[inline(never)]
fn sort<P>(
    rt: &(impl Env + Files),
    out: &mut impl Write,
    file: usize,
    planner: P,
) -> io::Result<Option<u32>>
where
    P: FnOnce(&[u32], &[u8], &mut [u32]) -> Sorted,
    requires { P.IsAlwaysCallable planner }
{
    let mut name = [0; 4096];
    let mut text = [0; 65537];
    match load(rt, file, &mut name, &mut text) {
        Ok(source) => match sorting::print(out, &source, planner) {
            Ok(settled) => Ok(settled),
            Err(wrong) => wrong.say(out).map(|_| None),
        },
        Err(complaint) => complaint.say(out).map(|_| None),
    }
}

#[inline(never)]
fn check(
    rt: &(impl Env + Files),
    out: &mut impl Write,
    order: usize,
    file: usize,
) -> io::Result<()> {
    let mut order_name = [0; 4096];
    let mut order_text = [0; 65537];
    let mut name = [0; 4096];
    let mut text = [0; 65537];
    let order = match load(rt, order, &mut order_name, &mut order_text) {
        Ok(order) => order,
        Err(complaint) => return complaint.say(out),
    };
    match load(rt, file, &mut name, &mut text) {
        Ok(source) => match checking::check(out, &order, &source) {
            Ok(()) => Ok(()),
            Err(wrong) => wrong.say(out),
        },
        Err(complaint) => complaint.say(out),
    }
}

fn answer(rt: &(impl Env + Files), out: &mut impl Write) -> io::Result<()> {
    match Task::by(rt) {
        Task::Help => out.write_all(USAGE.as_bytes()),
        Task::Sort(file) => {
            if let Some(settled) = sort(rt, out, file, clerk::toposort)? {
                // the names go out before the rest is tried
                out.flush()?;
                writeln!(out, "settled {settled}")?;
            }
            Ok(())
        }
        Task::Propose(file) => {
            sort(rt, out, file, planner::propose)?;
            Ok(())
        }
        Task::Check { order, file } => check(rt, out, order, file),
    }
}

// Writing does not fail. Where standard output takes no more there is no one to tell, and the exit status says nothing.
fn main(rt: HostRuntime) {
    let mut out = files::output(rt.stdout());
    let _ = answer(&rt, &mut out);
    out.flush();
}
