// The payload reader, the payload writer, the writer of a whole frame from a value, and the forwarding writer.
ghost use Rattle.std.specs.Prelude.{◌≡◌};
ghost use Rattle.cells.specs.Cells.{stored};
ghost use Rattle.arf.specs.Numbers.{write_number};
ghost use Rattle.exports.specs.Answers.{header_of, read_number, read_cells, reading, sheet_after, reading_beside, sheet_beside};
ghost use Rattle.reader.specs.Told as reader;
ghost use Rattle.exports.specs.Answers.{write_cells, writing, output_after, framing, framed_after, forwarding, forwarded_after};

use crate::numbers::{length_cells, number};
use cells::store;
use constants::refusal::Refused;
use frame::Header;
use reader::Shown;

fn read_cells(a: Result<Shown, Refused>) -> [u64; 5]
    ensures { result ≡ read_cells (reader.told a) }
{
    match a {
        Ok(shown) => [
            0,
            shown.rows as u64,
            shown.tail_place as u64,
            shown.tail_length as u64,
            shown.comparisons as u64,
        ],
        Err(refused) => [refused.place as u64, 0, 0, 0, 0],
    }
}

// Reads a payload and shows it on the sheet. answer: place, rows, the tail's place and length, the key comparisons due.
pub fn arf_read(
    schema: &[u8],
    ty: u32,
    payload: &[u8],
    sheet: &mut [u32],
    answer: &mut [u64],
) -> u32
    ensures value { result ≡ read_number (reading schema.now ty payload.now sheet.old) }
    ensures sheet_after { sheet.new ≡ sheet_after schema.now ty payload.now sheet.old }
    ensures answer_after { answer.new ≡ stored answer.old (read_cells (reading schema.now ty payload.now sheet.old)) }
{
    let a = arf::read(schema, ty, payload, sheet);
    store(answer, &read_cells(a));
    number(&a)
}

// Reads a payload by the writer's table and shows it by ours. answer: place, rows, the tail's place and length, the key comparisons due.
pub fn arf_read_beside(
    ours: &[u8],
    theirs: &[u8],
    ty: u32,
    payload: &[u8],
    sheet: &mut [u32],
    answer: &mut [u64],
) -> u32
    ensures value { result ≡ read_number (reading_beside ours.now theirs.now ty payload.now sheet.old) }
    ensures sheet_after { sheet.new ≡ sheet_beside ours.now theirs.now ty payload.now sheet.old }
    ensures answer_after { answer.new ≡ stored answer.old (read_cells (reading_beside ours.now theirs.now ty payload.now sheet.old)) }
{
    let a = arf::read_beside(ours, theirs, ty, payload, sheet);
    store(answer, &read_cells(a));
    number(&a)
}

// Writes the value that a sheet shows over its bytes. answer: place, the payload's length.
pub fn arf_write(
    schema: &[u8],
    ty: u32,
    sheet: &[u32],
    bytes: &[u8],
    out: &mut [u8],
    answer: &mut [u64],
) -> u32
    ensures value { result ≡ write_number (writing schema.now ty sheet.now bytes.now out.old) }
    ensures out_after { out.new ≡ output_after schema.now ty sheet.now bytes.now out.old }
    ensures answer_after { answer.new ≡ stored answer.old (write_cells (writing schema.now ty sheet.now bytes.now out.old)) }
{
    let a = arf::write(schema, ty, sheet, bytes, out);
    store(answer, &length_cells(&a));
    number(&a)
}

// Writes a frame with the value that a sheet shows over its bytes; type 4294967295 is an empty payload. answer: place, the frame's length.
pub fn arf_write_value_frame(
    kind: u32,
    package: u32,
    service: u32,
    method: u32,
    correlation: u64,
    schema: &[u8],
    ty: u32,
    sheet: &[u32],
    bytes: &[u8],
    out: &mut [u8],
    answer: &mut [u64],
) -> u32
    ensures value { result ≡ write_number (framing (header_of kind «package» service method correlation) schema.now ty sheet.now bytes.now out.old) }
    ensures out_after { out.new ≡ framed_after (header_of kind «package» service method correlation) schema.now ty sheet.now bytes.now out.old }
    ensures answer_after { answer.new ≡ stored answer.old (write_cells (framing (header_of kind «package» service method correlation) schema.now ty sheet.now bytes.now out.old)) }
{
    let header = Header {
        kind,
        package,
        service,
        method,
        correlation,
    };
    let a = arf::write_value_frame(header, schema, ty, sheet, bytes, out);
    store(answer, &length_cells(&a));
    number(&a)
}

// Writes the value that a sheet shows over its bytes, with the root's unknown bits kept and the tail after the known fields. answer: place, the payload's
// length.
pub fn arf_forward(
    schema: &[u8],
    ty: u32,
    sheet: &[u32],
    bytes: &[u8],
    tail_place: usize,
    tail_length: usize,
    out: &mut [u8],
    answer: &mut [u64],
) -> u32
    ensures value { result ≡ write_number (forwarding schema.now ty sheet.now bytes.now tail_place tail_length out.old) }
    ensures out_after { out.new ≡ forwarded_after schema.now ty sheet.now bytes.now tail_place tail_length out.old }
    ensures answer_after { answer.new ≡ stored answer.old (write_cells (forwarding schema.now ty sheet.now bytes.now tail_place tail_length out.old)) }
{
    let a = arf::forward(schema, ty, sheet, bytes, tail_place, tail_length, out);
    store(answer, &length_cells(&a));
    number(&a)
}
