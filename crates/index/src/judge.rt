// Bytes judged as an index.
ghost use Rattle.std.specs.Prelude.{◌≡◌, ◌+◌, ◌*◌, ◌≤◌, ◌<◌, length, drop};
ghost use Rattle.index.specs.Row.{is_before, is_rising};
ghost use Rattle.index.specs.IsIndex.{row_at, rows_in, is_shaped, is_ordered};
ghost use Rattle.index.specs.LookUp.{stopped_number, looked};
ghost use Rattle.index.specs.Told.{judged_number, judged_rows};

use crate::ROW;
use constants::format;
use constants::refusal::Refusal;
use wire::little::{number, u32_at};

// Bytes of the trailer.
const TRAILER: usize = 16;

// Bytes of a row's correlation, which stands first.
pub const CORRELATION: usize = 8;

// Where the place and the answer stand in a row.
pub const PLACE_AT: usize = 8;

pub const ANSWER_AT: usize = 12;

// Where the place of the row after it stands.
const NEXT_PLACE_AT: usize = ROW + PLACE_AT;

// Where the number of rows, the record's length and the layout number stand in the trailer.
const ROWS_AT: usize = 4;

const LENGTH_AT: usize = 8;

const LAYOUT_AT: usize = 12;

// Whether the bytes are whole rows and a right trailer.
fn is_shaped(index: &[u8]) -> bool
    ensures { result ≡ is_shaped index.now }
{
    let size = index.len();
    if size < TRAILER {
        return false;
    }
    let at = size - TRAILER;
    (size % ROW == 0)
        & ((u32_at(index, at) == 0)
            & ((u32_at(index, at + ROWS_AT) as usize == at / ROW)
                & (u32_at(index, at + LAYOUT_AT) == format::LAYOUT)))
}

// Whether the row at a place stands before the next.
fn is_before(index: &[u8], at: usize) -> bool
    requires { at + 32 ≤ length index.now }
    ensures { result ≡ is_before (row_at (drop at index.now)) (row_at (drop (at + 16) index.now)) }
{
    let a = number(index, at, CORRELATION);
    let b = number(index, at + ROW, CORRELATION);
    (a < b) | ((a == b) & (u32_at(index, at + PLACE_AT) < u32_at(index, at + NEXT_PLACE_AT)))
}

// Whether the first n rows rise strictly.
fn is_rising(index: &[u8], n: usize) -> bool
    requires { 16 * n ≤ length index.now }
    ensures { result ≡ is_rising (rows_in n index.now) }
{
    for next in 1..n {
        if !is_before(index, ROW * (next - 1)) {
            return false;
        }
    }
    true
}

// Whether the rows before the trailer do.
fn is_ordered(index: &[u8]) -> bool
    requires { 16 ≤ length index.now }
    ensures { result ≡ is_ordered index.now }
{
    is_rising(index, (index.len() - TRAILER) / ROW)
}

// Judges an index for a record of so many bytes: how many rows are looked at, or what follows `stopped`.
pub fn judge(index: &[u8], size: usize) -> Result<usize, Refusal>
    ensures number_value { (judged_number result ≡ stopped_number index.now size) × (judged_rows result ≡ looked index.now size) }
    ensures rows_in_bounds { (16 * judged_rows result ≤ length index.now) × (judged_rows result < 4294967296) }
{
    if !is_shaped(index) {
        return Err(Refusal::Index);
    }
    if !is_ordered(index) {
        return Err(Refusal::Index);
    }
    let end = index.len() - TRAILER;
    if u32_at(index, end + LENGTH_AT) as usize != size {
        return Err(Refusal::OtherRecord);
    }
    Ok(u32_at(index, end + ROWS_AT) as usize)
}
