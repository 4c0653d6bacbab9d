// Cases of the salvage of a record, of its index and of a look-up in one.
use crate::stop::Stop;
use crate::{blank, input, output, sums};
use constants::numbered::Numbered;
use constants::refusal::Refusal;
use index::Printed;
use std::io::{Read, Write};

// Code 17: a record, the copy's length and the number of the list's cells. The line has number, entries kept, bytes copied, spans listed, the copy's sum
// and the list's.
pub fn salvage(from: &mut impl Read, to: &mut impl Write) -> Result<(), Stop> {
    let mut record = blank::bytes();
    let mut copy = blank::output();
    let mut spans = blank::cells();
    let n = input::bytes(from, &mut record)?;
    let room = input::room(from, &copy)?;
    let cells = input::cells(from, &spans)?;
    show(to, &record[..n], &mut copy[..room], &mut spans[..cells])
}

fn show(
    to: &mut impl Write,
    record: &[u8],
    copy: &mut [u8],
    spans: &mut [u32],
) -> Result<(), Stop> {
    let numbers = match arf::salvage(record, copy, spans) {
        Ok(kept) => [0, kept.entries as u64, kept.bytes as u64, kept.spans as u64],
        Err(refusal) => [u64::from(refusal.number()), 0, 0, 0],
    };
    output::numbers(to, &numbers)?;
    output::numbers(to, &[sums::of_bytes(copy)])?;
    output::last(to, sums::of_cells(spans))?;
    Ok(())
}

// Code 19: a schema file, a record and the output's length. The line has number, place, the index's length and the output's sum.
pub fn index(from: &mut impl Read, to: &mut impl Write) -> Result<(), Stop> {
    let mut schema = blank::bytes();
    let mut record = blank::bytes();
    let mut out = blank::output();
    let n = input::bytes(from, &mut schema)?;
    let m = input::bytes(from, &mut record)?;
    let room = input::room(from, &out)?;
    show_index(to, &schema[..n], &record[..m], &mut out[..room])
}

fn show_index(
    to: &mut impl Write,
    schema: &[u8],
    record: &[u8],
    out: &mut [u8],
) -> Result<(), Stop> {
    let answer = arf::make_index(schema, record, out);
    output::numbers(to, &output::written(&answer))?;
    output::last(to, sums::of_bytes(out))?;
    Ok(())
}

// Code 20: an index, a record, a correlation and the output's length. The line has number, the text's length and the output's sum.
pub fn look_up(from: &mut impl Read, to: &mut impl Write) -> Result<(), Stop> {
    let mut index = blank::bytes();
    let mut record = blank::bytes();
    let mut out = blank::output();
    let n = input::bytes(from, &mut index)?;
    let m = input::bytes(from, &mut record)?;
    let correlation = input::long(from)?;
    let room = input::room(from, &out)?;
    show_look_up(to, &index[..n], &record[..m], correlation, &mut out[..room])
}

// What follows `stopped` in the text.
fn stopped(printed: Printed) -> Result<(), Refusal> {
    match printed.stopped {
        None => Ok(()),
        Some(refusal) => Err(refusal),
    }
}

fn show_look_up(
    to: &mut impl Write,
    index: &[u8],
    record: &[u8],
    correlation: u64,
    out: &mut [u8],
) -> Result<(), Stop> {
    let numbers = match arf::look_up(index, record, correlation, out) {
        Ok(printed) => [output::number(&stopped(printed)), printed.length as u64],
        Err(refusal) => [u64::from(refusal.number()), 0],
    };
    output::numbers(to, &numbers)?;
    output::last(to, sums::of_bytes(out))?;
    Ok(())
}
