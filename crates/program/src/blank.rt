// Buffers of zeros. They come from functions, so that the proofs of the callers know their lengths alone, and not all their numbers.
use crate::finds::TEXT;
use crate::indexes::INDEX;
use crate::print::{LONGEST, MOST};
use crate::salvages::CELLS;

// For a record or a schema file, and for the copy of a record.
pub fn record() -> [u8; LONGEST] {
    [0u8; LONGEST]
}

// For any file that is read.
pub fn file() -> [u8; MOST] {
    [0u8; MOST]
}

pub fn index() -> [u8; INDEX] {
    [0u8; INDEX]
}

pub fn spans() -> [u32; CELLS] {
    [0u32; CELLS]
}

// For the text of a look-up, of a listing, and of words.
pub fn found() -> [u8; TEXT] {
    [0u8; TEXT]
}

pub fn listed() -> [u8; listing::MOST] {
    [0u8; listing::MOST]
}

pub fn words() -> [u8; words::MOST] {
    [0u8; words::MOST]
}
