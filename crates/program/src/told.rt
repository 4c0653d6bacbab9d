// What was refused, kept and left out, in words on standard output. Each takes three lines, of which one is its own: a closure would need a clause of its own.
use crate::blank;
use crate::failure::Failure;
use crate::print::print;
use salvage::SPAN_CELLS;

pub fn refused(rt: &impl Print, number: u32, place: usize) -> Result<(), Failure> {
    let mut out = blank::words();
    let n = words::refused(number, place, &mut out);
    print(rt, &out[..n])
}

// The line of a span.
fn span(rt: &impl Print, place: u32, length: u32) -> Result<(), Failure> {
    let mut out = blank::words();
    let n = words::left_out(place, length, &mut out);
    print(rt, &out[..n])
}

// A line for each span.
fn list(rt: &impl Print, cells: &[u32]) -> Result<(), Failure> {
    for cell in cells.chunks_exact(SPAN_CELLS) {
        span(rt, cell[0], cell[1])?;
    }
    Ok(())
}

// The entries kept with their bytes, the number of spans, and each span.
pub fn kept(rt: &impl Print, entries: usize, bytes: usize, cells: &[u32]) -> Result<(), Failure> {
    let mut out = blank::words();
    let n = words::kept(entries, bytes, cells.len() / SPAN_CELLS, &mut out);
    print(rt, &out[..n])?;
    list(rt, cells)
}

// The entries that an index covers, and its bytes.
pub fn indexed(rt: &impl Print, entries: usize, bytes: usize) -> Result<(), Failure> {
    let mut out = blank::words();
    let n = words::indexed(entries, bytes, &mut out);
    print(rt, &out[..n])
}
