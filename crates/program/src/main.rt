// The program behind ./arf: its first argument is a verb, and the others are what that takes. It prints the verb's text on standard output, or on standard
// error why it failed, and never both.
#![tactic(auto)]

mod arguments;
mod blank;
mod failure;
mod finds;
mod indexes;
mod list;
mod print;
mod salvages;
mod save;
mod schemas;
mod told;

use arguments::{VERB, WITH_ONE, WITH_THREE, WITH_TWO};
use failure::Failure;
use std::io;
use std::rt::{Env, Files};

// Runs the verb that the first argument names; a word that is missing or too long is no verb.
fn run<R: Env + Files + Print>(rt: &R) -> Result<(), Failure> {
    let mut verb = files::buffer();
    let n = rt.arg(VERB, &mut verb).unwrap_or(0);
    match (arguments::count(rt), &verb[..n]) {
        (WITH_ONE, b"check") => schemas::check(rt),
        (WITH_ONE, b"explain") => schemas::explain(rt),
        (WITH_TWO, b"list") => list::list(rt),
        (WITH_TWO, b"extends") => schemas::extends(rt),
        (WITH_THREE, b"salvage") => salvages::salvage(rt),
        (WITH_THREE, b"index") => indexes::index(rt),
        (WITH_THREE, b"find") => finds::find(rt),
        _ => Err(Failure::Usage),
    }
}

fn main(rt: HostRuntime) -> io::Result<()> {
    match run(&rt) {
        Ok(()) => Ok(()),
        Err(failure) => failure.tell(&rt, &rt.stderr()),
    }
}
