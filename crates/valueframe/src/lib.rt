// Frames of values: the value that a sheet shows, written as a payload straight behind its header.
#![tactic(auto)]

ghost use Rattle.std.specs.Prelude.{◌≡◌, ◌+◌, ◌≤◌, length};
ghost use Rattle.value.specs.Sheet.{rows_of};
ghost use Rattle.writer.specs.Told.{told};
ghost use Rattle.writer.specs.Entry.{outcome, outcome_of, length_of, payload_by};
ghost use Rattle.valueframe.specs.Entry.{empty_by, frame_in, value_frame, frame_outcome};
ghost use Rattle.valueframe.specs.Part.{belongs, part_after};

use constants::refusal::{Refusal, Refused};
use constants::{format, limit};
use frame::{Header, known_kind, payload_place, write_front};
use table::good::Schema;
use writer::leaf::wide;
use writer::put::put_span;
use writer::{FEW_CELLS, SHORT, make, put_payload};

// A part of the output, from one place up to another.
#[derive(Clone, Copy)]
struct Part {
    start: usize,
    end: usize,
}

// How long the payload likely is, which gives its place in the frame; and how many bytes of the output are kept for it.
#[derive(Clone, Copy)]
struct Guess {
    length: usize,
    kept: usize,
}

// Little is kept where there are few rows, and elsewhere enough for every payload.
fn most_for(cells: usize) -> usize
    ensures { result ≤ 16384 }
{
    if cells <= FEW_CELLS {
        SHORT
    } else {
        limit::PAYLOAD
    }
}

// The length in the root's row, where it can be the payload's, since each row takes a byte; otherwise two bytes a row. Only speed depends on it.
fn guess_of(sheet: &[u32]) -> Guess
    ensures { result.kept ≤ 16384 }
{
    let cells = sheet.len();
    let kept = most_for(cells);
    if format::ROW_CELLS <= cells {
        let n = wide(sheet[2]);
        if cells / format::ROW_CELLS <= n {
            if n <= limit::PAYLOAD {
                return Guess { length: n, kept };
            }
        }
    }
    Guess {
        length: cells / 2,
        kept,
    }
}

// The part of an output of so many bytes where the payload is written first.
fn part_for(g: Guess, room: usize) -> Part
    ensures { (result.start ≤ result.end) × (result.end ≤ room) × (result.end ≤ result.start + g.kept) }
{
    let start = payload_place(g.length as u64);
    if room < start {
        return Part { start: 0, end: 0 };
    }
    if room - start < g.kept {
        return Part { start, end: room };
    }
    Part {
        start,
        end: start + g.kept,
    }
}

// Whether a payload was written whose place in the frame is `start`, with no more than so many bytes.
#[tactic(auto, unfolding(crate::specs::Part::belongs))]
fn is_there(answer: Result<usize, Refused>, start: usize, size: usize) -> bool
    ensures { result ≡ belongs (told answer) start size }
{
    match answer {
        Err(_) => false,
        Ok(length) => (payload_place(length as u64) == start) & (length <= size),
    }
}

// Writes the payload into a part of the output that starts at a place of the frame. What stood there is kept until the value is known to be right
// and to belong there, and is put back otherwise.
fn put_first(
    schema: &Schema,
    ty: u32,
    sheet: &[u32],
    source: &[u8],
    start: usize,
    kept: &mut [u8],
    part: &mut [u8],
) -> Result<usize, Refused>
    requires { (length part.old ≤ length kept.old) × (length kept.old ≤ 16384) }
    ensures value { told result ≡ length_of (payload_by schema.now.bytes.now ty sheet.now source.now) }
    ensures part_after { part.new ≡ part_after (payload_by schema.now.bytes.now ty sheet.now source.now) start part.old }
{
    let n = part.len();
    put_span(kept, 0, part, 0, n);
    let answer = make(schema.bytes, ty, sheet, source, part);
    if !is_there(answer, start, n) {
        put_span(part, 0, kept, 0, n);
    }
    answer
}

// The frame of a header of a known kind and the value, with memory to keep what stands in the output. A value that did not belong where it was
// written first takes a second walk, which writes it into its place.
fn write_keeping(
    header: Header,
    schema: &Schema,
    ty: u32,
    sheet: &[u32],
    source: &[u8],
    g: Guess,
    kept: &mut [u8],
    out: &mut [u8],
) -> Result<usize, Refused>
    requires { (header.kind ≤ 8) × (g.kept ≤ length kept.old) × (length kept.old ≤ 16384) }
    ensures { outcome (told result) out.new ≡ frame_in header out.old (payload_by schema.now.bytes.now ty sheet.now source.now) }
{
    let Part { start, end: until } = part_for(g, out.len());
    let answer = put_first(
        schema,
        ty,
        sheet,
        source,
        start,
        kept,
        &mut out[start..until],
    );
    let length = answer?;
    let place = payload_place(length as u64);
    let end = place + length;
    if out.len() < end {
        return Refusal::OutputTooShort.at(0);
    }
    write_front(out, header, length as u64);
    if !is_there(answer, start, until - start) {
        put_payload(schema.bytes, ty, sheet, source, &mut out[place..end]);
    }
    Ok(end)
}

// The frame of a header of a known kind without a value. A row is left over.
fn write_empty(header: Header, sheet: &[u32], out: &mut [u8]) -> Result<usize, Refused>
    requires { header.kind ≤ 8 }
    ensures { outcome (told result) out.new ≡ frame_in header out.old (empty_by (rows_of sheet.now)) }
{
    if sheet.len() < format::ROW_CELLS {
        let place = payload_place(0);
        if out.len() < place {
            return Refusal::OutputTooShort.at(0);
        }
        write_front(out, header, 0);
        return Ok(place);
    }
    Refusal::Sheet.at(0)
}

// The frame of a header and the value that the sheet's rows show over the source, by a good table.
fn write_frame(
    header: Header,
    schema: &Schema,
    ty: u32,
    sheet: &[u32],
    source: &[u8],
    out: &mut [u8],
) -> Result<usize, Refused>
    ensures { outcome (told result) out.new ≡ outcome_of out.old (value_frame header schema.now.bytes.now ty sheet.now source.now (length out.old)) }
{
    if !known_kind(header.kind) {
        return Refusal::Kind.at(0);
    }
    if ty == format::NO_TYPE {
        return write_empty(header, sheet, out);
    }
    let g = guess_of(sheet);
    if g.kept <= SHORT {
        let mut kept = [0u8; SHORT];
        return write_keeping(header, schema, ty, sheet, source, g, &mut kept, out);
    }
    let mut kept = [0u8; limit::PAYLOAD];
    write_keeping(header, schema, ty, sheet, source, g, &mut kept, out)
}

// The same by any table: its own refusals come first.
#[tactic(auto, unfolding(crate::specs::Entry::frame_outcome))]
pub fn write_value_frame(
    header: Header,
    schema: &[u8],
    ty: u32,
    sheet: &[u32],
    source: &[u8],
    out: &mut [u8],
) -> Result<usize, Refused>
    ensures { outcome (told result) out.new ≡ frame_outcome header schema.now ty sheet.now source.now out.old }
{
    let schema = Schema::check(schema)?;
    write_frame(header, &schema, ty, sheet, source, out)
}
