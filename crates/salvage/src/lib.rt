// Salvage: a copy of every entry of a torn record, and a list of the spans left out.
#![tactic(auto)]

mod pieces;

ghost use Rattle.std.specs.Prelude.{◌≡◌, [], ◌∷◌, ◌+◌, ◌≤◌, length};
ghost use Rattle.std.proofs.lemmas.List.Edits.{sets};
ghost use Rattle.salvage.specs.Pieces.{pieces_of, copy_of, spans_of};
ghost use Rattle.salvage.specs.Told.{told, told_fault};
ghost use Rattle.salvage.specs.Salvage.{measure_of, filled, outcome, room_for_any, room_fault, salvage_of};

use crate::pieces::{Piece, first_piece};
use constants::limit;
use constants::refusal::Refusal;

// Cells of a listed span: its place and its length.
pub const SPAN_CELLS: usize = 2;

// What a salvage takes: entries kept, bytes copied, and spans listed.
#[derive(Clone, Copy, Debug, PartialEq, Eq)]
pub struct Salvaged {
    pub entries: usize,
    pub bytes: usize,
    pub spans: usize,
}

const NOTHING: Salvaged = Salvaged {
    entries: 0,
    bytes: 0,
    spans: 0,
};

// The pieces of a record, counted. A `while`: the length of a piece is what was read of it.
fn count(torn: &[u8]) -> Salvaged
    requires { length torn.now ≤ 65536 }
    ensures { result ≡ measure_of (pieces_of torn.now) }
{
    let mut m = NOTHING;
    let mut at = 0;
    // A turn goes on by the piece that it finds: there is no count to go by.
    while at < torn.len() {
        match first_piece(&torn[at..]) {
            Piece::Entry(n) => {
                m.entries += 1;
                m.bytes += n;
                at += n;
            }
            Piece::Span(n) => {
                m.spans += 1;
                at += n;
            }
        }
    }
    m
}

// Stores a span into the list, its place and its length.
fn put_span(spans: &mut [u32], row: usize, place: usize, size: usize)
    requires { (row + 2 ≤ length spans.old) × (place ≤ 65536) × (size ≤ 65536) }
    ensures { spans.new ≡ sets spans.old row (place ∷ size ∷ []) }
{
    spans[row] = place as u32;
    spans[row + 1] = size as u32;
}

// The pieces of a record, copied, listed and counted. A `while`, likewise.
fn put_pieces(torn: &[u8], copy: &mut [u8], spans: &mut [u32]) -> Salvaged
    requires { (length torn.now ≤ 65536) × (length (copy_of (pieces_of torn.now)) ≤ length copy.old) × (length (spans_of 0 (pieces_of torn.now)) ≤ length spans.old) }
    ensures value { result ≡ measure_of (pieces_of torn.now) }
    ensures copy_after { copy.new ≡ filled copy.old (copy_of (pieces_of torn.now)) }
    ensures spans_after { spans.new ≡ filled spans.old (spans_of 0 (pieces_of torn.now)) }
{
    let mut m = NOTHING;
    let mut at = 0;
    // A turn goes on by the piece that it finds: there is no count to go by.
    while at < torn.len() {
        match first_piece(&torn[at..]) {
            Piece::Entry(n) => {
                buffer::copy(copy, m.bytes, &torn[at..at + n]);
                m.bytes += n;
                m.entries += 1;
                at += n;
            }
            Piece::Span(n) => {
                put_span(spans, SPAN_CELLS * m.spans, at, n);
                m.spans += 1;
                at += n;
            }
        }
    }
    m
}

// The bytes of the shortest entry, and of a span before it.
const ENTRY: usize = 27;

const SPAN_AND_ENTRY: usize = ENTRY + 1;

// Whether a copy and a list of these lengths have room for the pieces of any record of so many bytes.
fn has_room(torn: usize, copy: usize, spans: usize) -> bool
    requires { torn ≤ 65536 }
    ensures { result ≡ room_for_any torn copy spans }
{
    (torn <= copy) & ((torn + ENTRY) / SPAN_AND_ENTRY * SPAN_CELLS <= spans)
}

// Whether a copy and a list of these lengths have room, or are refused (52, 53). Nothing is counted where every record has room.
fn room_fault(torn: &[u8], copy: usize, spans: usize) -> Result<(), Refusal>
    requires { length torn.now ≤ 65536 }
    ensures { told_fault result ≡ room_fault (pieces_of torn.now) copy spans }
{
    if has_room(torn.len(), copy, spans) {
        return Ok(());
    }
    let m = count(torn);
    if copy < m.bytes {
        return Err(Refusal::OutputTooShort);
    }
    if spans < SPAN_CELLS * m.spans {
        return Err(Refusal::ListTooShort);
    }
    Ok(())
}

// Copies every entry of a record that can be kept, and lists the spans left out, place and length of each.
// A refusal (45, 52 for the copy, 53 for the list, in this order) leaves both as they were; what stands past the copy and the list stays in any case.
pub fn salvage(torn: &[u8], copy: &mut [u8], spans: &mut [u32]) -> Result<Salvaged, Refusal>
    ensures { outcome (told result) copy.new spans.new ≡ salvage_of torn.now copy.old spans.old }
{
    if limit::FILE < torn.len() {
        return Err(Refusal::FileTooLong);
    }
    room_fault(torn, copy.len(), spans.len())?;
    Ok(put_pieces(torn, copy, spans))
}
