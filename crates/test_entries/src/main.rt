// Runs the case file on standard input through the public entries, and prints a line of numbers for each case.
#![tactic(auto)]

mod blank;
mod events;
mod frames;
mod input;
mod output;
mod records;
mod stop;
mod sums;
mod tables;
mod values;

use std::io;
use std::io::{Read, Write};
use stop::Stop;

// Runs a case of this code.
fn run(code: u8, from: &mut impl Read, to: &mut impl Write) -> Result<(), Stop> {
    match code {
        1 => tables::check(from, to),
        2 => tables::extends(from, to),
        3 => values::read(from, to),
        4 => values::scalar(from, to),
        5 => values::write(from, to),
        6 => frames::read(from, to),
        7 => frames::write(from, to),
        8 => events::run(from, to),
        9 => events::receive(from, to),
        10 => events::release(from, to),
        11 => events::history(from, to),
        15 => values::write_frame(from, to),
        16 => values::read_beside(from, to),
        17 => records::salvage(from, to),
        18 => values::forward(from, to),
        19 => records::index(from, to),
        20 => records::look_up(from, to),
        _ => Err(Stop::Cut),
    }
}

// Runs the next case, and answers whether another may follow: the file may be at its end, cut, or have an unknown code.
fn run_case(from: &mut impl Read, to: &mut impl Write) -> io::Result<bool> {
    let code = match input::byte(from) {
        Ok(code) => code,
        Err(Stop::Cut) => return Ok(false),
        Err(Stop::Failed(error)) => return Err(error),
    };
    match run(code, from, to) {
        Ok(()) => Ok(true),
        Err(Stop::Cut) => {
            output::cut(to)?;
            Ok(false)
        }
        Err(Stop::Failed(error)) => Err(error),
    }
}

// A proved loop has to end, and nothing says that a file does: the loop counts its turns up to a number that no run reaches.
fn main(rt: HostRuntime) -> io::Result<()> {
    let mut from = rt.reader();
    let mut to = io::writer(&rt);
    for _ in 0..u64::MAX {
        if !run_case(&mut from, &mut to)? {
            break;
        }
    }
    Ok(())
}
