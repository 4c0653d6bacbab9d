// The salvage of a torn record: salvage RECORD COPY SPANS. Writes the kept entries and the list of spans, two little-endian 32-bit numbers each, to two new
// files, and says in words what was kept and left out.
use crate::arguments::FIRST;
use crate::failure::Failure;
use crate::{blank, save, told};
use std::rt::{Env, Files};

// The most cells that a list needs.
pub const CELLS: usize = 4682;

// Saves and tells what was kept of a record.
fn keep<R: Env + Files + Print>(rt: &R, record: &[u8]) -> Result<(), Failure> {
    let mut copy = blank::record();
    let mut spans = blank::spans();
    match arf::salvage(record, &mut copy, &mut spans) {
        Err(refusal) => told::refused(rt, u32::from(refusal), 0),
        Ok(kept) => {
            let n = files::front(kept.bytes, &copy);
            let m = save::front_cells(kept.spans, &spans);
            save::save(rt, &copy[..n], &spans[..m])?;
            told::kept(rt, kept.entries, kept.bytes, &spans[..m])
        }
    }
}

pub fn salvage<R: Env + Files + Print>(rt: &R) -> Result<(), Failure> {
    let mut record = blank::record();
    let n = files::read(rt, FIRST, &mut record)?;
    keep(rt, &record[..n])
}
