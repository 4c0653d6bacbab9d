// The first piece of what is left of a record.
ghost use Rattle.std.specs.Prelude.{◌≡◌, not, ◌+◌, ◌≤◌, min, eqb, length, drop};
ghost use Rattle.record.specs.Entry.{entry_length};
ghost use Rattle.salvage.specs.Told.{is_entry, size_of};
ghost use Rattle.salvage.specs.Pieces.{span_length, first_piece, is_kept, bytes_in, magic_after, magic_among};

use constants::format;
use frame::layout;
use record::entry_length;

// Where the magic of a frame stands in an entry.
const MAGIC_AT: usize = record::FRAME_AT + layout::MAGIC_AT;

const MAGIC_2_AT: usize = record::FRAME_AT + layout::MAGIC_2_AT;

// Places that are looked at together, and the bytes that this takes: the last magic ends two bytes further on.
const BLOCK: usize = 32;

const BLOCK_BYTES: usize = BLOCK + MAGIC_2_AT;

// An entry that is kept, or a span that is left out, and its length.
#[derive(Clone, Copy, Debug, PartialEq, Eq)]
pub enum Piece {
    Entry(usize),
    Span(usize),
}

// Whether a frame's magic stands one byte after a place.
fn has_magic(bytes: &[u8], at: usize) -> bool
    requires { at + 3 ≤ length bytes.now }
    ensures { result ≡ magic_after bytes.now at }
{
    (bytes[at + MAGIC_AT] == format::MAGIC) & (bytes[at + MAGIC_2_AT] == format::MAGIC_2)
}

// Whether it does after one of a block's places. All are looked at: a loop without a way out compares several at a time.
fn has_magics(bytes: &[u8], at: usize) -> bool
    requires { at + 34 ≤ length bytes.now }
    ensures { result ≡ magic_among bytes.now at 32 }
{
    let mut found = false;
    for i in 0..BLOCK {
        found = found | has_magic(bytes, at + i);
    }
    found
}

// Whether an entry starts at a place.
fn starts(bytes: &[u8], at: usize) -> bool
    requires { at + 3 ≤ length bytes.now }
    ensures { result ≡ not (eqb (entry_length (drop at bytes.now)) 0) }
{
    if !has_magic(bytes, at) {
        return false;
    }
    entry_length(&bytes[at..]).is_some()
}

// The first of a block's places where an entry starts, or the place after them.
fn within_block(bytes: &[u8], from: usize) -> usize
    requires { from + 34 ≤ length bytes.now }
    ensures { result ≡ from + min 32 (span_length (drop from bytes.now)) }
{
    if !has_magics(bytes, from) {
        return from + BLOCK;
    }
    for i in from..from + BLOCK {
        if starts(bytes, i) {
            return i;
        }
    }
    from + BLOCK
}

// From a place on, the next place where an entry starts, or the end; place after place.
fn in_rest(bytes: &[u8], from: usize) -> usize
    requires { from ≤ length bytes.now }
    ensures { result ≡ from + span_length (drop from bytes.now) }
{
    for i in from..bytes.len() {
        if entry_length(&bytes[i..]).is_some() {
            return i;
        }
    }
    bytes.len()
}

// How far it is forward to the next place where an entry starts, or to the end. A `while`: a block is passed only where a whole one is left.
fn forward(bytes: &[u8]) -> usize
    ensures { result ≡ span_length bytes.now }
{
    let mut i = 0;
    // A whole block is passed at once where it has no magic; what it answers else ends the search.
    while BLOCK_BYTES <= bytes.len() - i {
        let next = within_block(bytes, i);
        if next < i + BLOCK {
            return next;
        }
        i += BLOCK;
    }
    in_rest(bytes, i)
}

// The entry at the front of the bytes, or the span up to the next one.
pub fn first_piece(bytes: &[u8]) -> Piece
    ensures { (is_entry result ≡ is_kept (first_piece bytes.now)) × (size_of result ≡ length (bytes_in (first_piece bytes.now))) }
{
    match entry_length(bytes) {
        Some(n) => Piece::Entry(n),
        None => Piece::Span(forward(bytes)),
    }
}
