// Schema files, and numbers in words: check SCHEMA, extends OLD NEW, explain NUMBER.
use crate::arguments::{FIRST, SECOND};
use crate::blank;
use crate::failure::{Failure, both};
use crate::print::print;
use std::rt::{Env, Files};

pub fn check<R: Env + Files + Print>(rt: &R) -> Result<(), Failure> {
    let mut schema = blank::record();
    let n = files::read(rt, FIRST, &mut schema)?;
    let mut out = blank::words();
    let length = words::check(&schema[..n], &mut out);
    print(rt, &out[..length])
}

pub fn extends<R: Env + Files + Print>(rt: &R) -> Result<(), Failure> {
    let mut old = blank::record();
    let mut new = blank::record();
    let (n, m) = both(
        files::read(rt, FIRST, &mut old),
        files::read(rt, SECOND, &mut new),
    )?;
    let mut out = blank::words();
    let length = words::extends(&old[..n], &new[..m], &mut out);
    print(rt, &out[..length])
}

// A word that is no argument's, or too long for a number, is explained as one without digits.
pub fn explain<R: Env + Print>(rt: &R) -> Result<(), Failure> {
    let mut word = files::buffer();
    let n = rt.arg(FIRST, &mut word).unwrap_or(0);
    let mut out = blank::words();
    let length = words::explain(&word[..n], &mut out);
    print(rt, &out[..length])
}
