// FNV-1a, 64 bits, by which the whole of a lent buffer is compared.
use connection::slots::Slots;
use constants::limit;

pub const START: u64 = 14695981039346656037;

// 2^40 + 435.
const PRIME: u64 = 1099511628211;

// How many bytes a number of 32 bits has, and one of 16.
const WORD_BYTES: usize = 4;

const SHORT_BYTES: usize = 2;

// One byte more; x is below 256.
fn add(h: u64, x: u64) -> u64 {
    (h ^ x).wrapping_mul(PRIME)
}

fn add_bytes(start: u64, bytes: &[u8]) -> u64 {
    let mut h = start;
    for x in bytes {
        h = add(h, u64::from(*x));
    }
    h
}

// A number below 2^32 as its four little-endian bytes.
fn add_word(h: u64, x: u64) -> u64 {
    add_bytes(h, &x.to_le_bytes()[..WORD_BYTES])
}

// A number below 2^16 as its two.
fn add_short(h: u64, x: u64) -> u64 {
    add_bytes(h, &x.to_le_bytes()[..SHORT_BYTES])
}

// A number of 64 bits as its eight.
fn add_long(h: u64, x: u64) -> u64 {
    add_bytes(h, &x.to_le_bytes())
}

fn add_mark(h: u64, mark: bool) -> u64 {
    add(h, u64::from(mark))
}

// A record of the call table, as it stands in a case.
fn add_call(start: u64, call: calls::Call) -> u64 {
    let mut h = add_mark(start, call.open);
    h = add_long(h, call.correlation);
    h = add_word(h, u64::from(call.method));
    h = add_mark(h, call.responded);
    h = add_mark(h, call.input_closed);
    h = add_mark(h, call.output_closed);
    h = add_mark(h, call.cancelled);
    h = add_short(h, u64::from(call.input_elements));
    add_short(h, u64::from(call.output_elements))
}

pub fn of_calls(table: connection::CallTable) -> u64 {
    let mut h = START;
    for i in 0..limit::CALLS {
        h = add_call(h, table.at(i));
    }
    h
}

pub fn of_cells(cells: &[u32]) -> u64 {
    let mut h = START;
    for cell in cells {
        h = add_word(h, u64::from(*cell));
    }
    h
}

pub fn of_bytes(bytes: &[u8]) -> u64 {
    add_bytes(START, bytes)
}
