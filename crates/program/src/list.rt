// The listing of a record by a schema file: list SCHEMA RECORD.
use crate::arguments::{FIRST, SECOND};
use crate::blank;
use crate::failure::{Failure, both};
use crate::print::print;
use std::rt::{Env, Files};

fn show(rt: &impl Print, schema: &[u8], entries: &[u8]) -> Result<(), Failure> {
    let mut out = blank::listed();
    let n = listing::list(schema, entries, &mut out);
    print(rt, &out[..n])
}

pub fn list<R: Env + Files + Print>(rt: &R) -> Result<(), Failure> {
    let mut schema = blank::record();
    let mut entries = blank::record();
    let (n, m) = both(
        files::read(rt, FIRST, &mut schema),
        files::read(rt, SECOND, &mut entries),
    )?;
    show(rt, &schema[..n], &entries[..m])
}
