// Buffers as they are before a case. They come from functions, so that the proofs of the callers know their lengths alone, and not 70,000 numbers.
use crate::events::TALLIES;
use crate::frames::{BYTE, ROOM};
use crate::tables::MOST;
use crate::values::CELL;

pub fn bytes() -> [u8; MOST] {
    [0u8; MOST]
}

pub fn cells() -> [u32; MOST] {
    [CELL; MOST]
}

pub fn output() -> [u8; ROOM] {
    [BYTE; ROOM]
}

pub fn tallies() -> [u32; TALLIES] {
    [0u32; TALLIES]
}
