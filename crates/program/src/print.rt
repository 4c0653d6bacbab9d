// A text on standard output, and the limits of the files that are read.
use crate::failure::Failure;
use constants::limit;

// One byte more than a record or a schema file may have, so that a longer file shows.
pub const LONGEST: usize = limit::FILE + 1;

// One byte more than any file that is read may have.
pub const MOST: usize = 131073;

// Prints a text at once, so that a failure to write it is told once.
pub fn print(out: &impl Print, text: &[u8]) -> Result<(), Failure> {
    out.write_all(text).map_err(Failure::Output)
}

// Whether a file of which so many bytes were read has no more than it may have.
pub fn holds(n: usize, failure: Failure) -> Result<(), Failure> {
    if n < MOST { Ok(()) } else { Err(failure) }
}
