// The entries of one call, by the index of a record: find INDEX RECORD CALL.
use crate::arguments::{FIRST, SECOND, THIRD};
use crate::blank;
use crate::failure::{Failure, both};
use crate::print::{holds, print};
use std::rt::{Env, Files};
use words::number::number_of;

// More than the longest text: 22 bytes for each of 8,191 rows, and 24.
pub const TEXT: usize = 180300;

fn show(rt: &impl Print, index: &[u8], record: &[u8], correlation: u64) -> Result<(), Failure> {
    let mut out = blank::found();
    let printed = arf::look_up(index, record, correlation, &mut out).map_err(
        |_| Failure::LongText,
    )?;
    let n = files::front(printed.length, &out);
    print(rt, &out[..n])
}

// The correlation that the verb's third argument gives.
fn call(env: &impl Env) -> Result<u64, Failure> {
    let mut text = files::buffer();
    let n = env.arg(THIRD, &mut text).map_err(|_| Failure::Call)?;
    number_of(&text[..n]).ok_or(Failure::Call)
}

pub fn find<R: Env + Files + Print>(rt: &R) -> Result<(), Failure> {
    let correlation = call(rt)?;
    let mut index = blank::file();
    let mut record = blank::file();
    let (n, m) = both(
        files::read(rt, FIRST, &mut index),
        files::read(rt, SECOND, &mut record),
    )?;
    holds(n, Failure::LongIndex)?;
    holds(m, Failure::LongRecord)?;
    show(rt, &index[..n], &record[..m], correlation)
}
