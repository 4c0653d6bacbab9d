// Cases of the table check and of the extension test.
use crate::stop::Stop;
use crate::{blank, input, output};
use constants::refusal::Refused;
use std::io::{Read, Write};

// The most bytes of a table, a payload or a row's bytes, and the most cells of a sheet.
pub const MOST: usize = 70000;

// Code 1: a table. The line has number and place.
pub fn check(from: &mut impl Read, to: &mut impl Write) -> Result<(), Stop> {
    let mut schema = blank::bytes();
    let n = input::bytes(from, &mut schema)?;
    print_checked(to, arf::check_table(&schema[..n]))
}

fn print_checked(to: &mut impl Write, answer: Result<(), Refused>) -> Result<(), Stop> {
    output::numbers(to, &[output::number(&answer)])?;
    output::last(to, output::place(&answer))?;
    Ok(())
}

// Code 2: an old table and a new one. The line has number, place and answer.
pub fn extends(from: &mut impl Read, to: &mut impl Write) -> Result<(), Stop> {
    let mut old = blank::bytes();
    let mut new = blank::bytes();
    let n = input::bytes(from, &mut old)?;
    let m = input::bytes(from, &mut new)?;
    print_extended(to, arf::extends(&old[..n], &new[..m]))
}

fn print_extended(to: &mut impl Write, answer: Result<bool, Refused>) -> Result<(), Stop> {
    output::numbers(to, &[output::number(&answer), output::place(&answer)])?;
    output::last(to, u64::from(answer.unwrap_or(false)))?;
    Ok(())
}
