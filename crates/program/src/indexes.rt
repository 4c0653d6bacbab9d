// The index of a record: index SCHEMA RECORD INDEX. Writes it to a new file, and says in words how many entries it covers.
use crate::arguments::{FIRST, SECOND, THIRD};
use crate::failure::{Failure, both};
use crate::print::holds;
use crate::save::save_file;
use crate::{blank, told};
use index::ROW;
use std::rt::{Env, Files};

// The most bytes of an index.
pub const INDEX: usize = 38848;

// How many entries an index of so many bytes covers: each has a row, and the trailer is as long.
fn entries_of(length: usize) -> usize {
    (length / ROW).saturating_sub(1)
}

// Writes an index to the new file that the verb's third argument names.
fn save<R: Env + Files>(rt: &R, index: &[u8]) -> Result<(), Failure> {
    let mut path = files::buffer();
    let n = files::name(rt, THIRD, &mut path)?;
    save_file(rt, THIRD, &path[..n], index)
}

// Makes, saves and tells.
fn make<R: Env + Files + Print>(rt: &R, schema: &[u8], record: &[u8]) -> Result<(), Failure> {
    let mut out = blank::index();
    match arf::make_index(schema, record, &mut out) {
        Err(refused) => told::refused(rt, u32::from(refused.refusal), refused.place),
        Ok(length) => {
            let n = files::front(length, &out);
            save(rt, &out[..n])?;
            told::indexed(rt, entries_of(length), length)
        }
    }
}

pub fn index<R: Env + Files + Print>(rt: &R) -> Result<(), Failure> {
    let mut schema = blank::file();
    let mut record = blank::record();
    let (n, m) = both(
        files::read(rt, FIRST, &mut schema),
        files::read(rt, SECOND, &mut record),
    )?;
    holds(n, Failure::LongSchema)?;
    make(rt, &schema[..n], &record[..m])
}
