// The payload reader, the payload writer, the writer of a whole frame from a value, and the forwarding writer.
ghost use Rattle.std.specs.Prelude.{◌≡◌};
ghost use Rattle.cells.specs.Cells.{stored};
ghost use Rattle.arf.specs.Numbers.{write_number};
ghost use Rattle.exports.specs.Answers.{header_of, read_number, read_cells, reading, sheet_after, reading_beside, sheet_beside};
ghost use Rattle.exports.specs.Answers.{write_cells, writing, output_after, framing, framed_after, forwarding, forwarded_after};

// Reads a payload and shows it on the sheet. answer: place, rows, the tail's place and length, the key comparisons due.
#[unsafe(no_mangle)]
pub extern "C" fn arf_read(
    schema: &[u8],
    ty: u32,
    payload: &[u8],
    sheet: &mut [u32],
    answer: &mut [u64],
) -> u32
    ensures value { result ≡ read_number (reading schema.now ty payload.now sheet.old) }
    ensures sheet_after { sheet.new ≡ sheet_after schema.now ty payload.now sheet.old }
    ensures answer_after { answer.new ≡ stored answer.old (read_cells (reading schema.now ty payload.now sheet.old)) }
{
    exports::payloads::arf_read(schema, ty, payload, sheet, answer)
}

// Reads a payload by the writer's table and shows it by ours. answer: place, rows, the tail's place and length, the key comparisons due.
#[unsafe(no_mangle)]
pub extern "C" fn arf_read_beside(
    ours: &[u8],
    theirs: &[u8],
    ty: u32,
    payload: &[u8],
    sheet: &mut [u32],
    answer: &mut [u64],
) -> u32
    ensures value { result ≡ read_number (reading_beside ours.now theirs.now ty payload.now sheet.old) }
    ensures sheet_after { sheet.new ≡ sheet_beside ours.now theirs.now ty payload.now sheet.old }
    ensures answer_after { answer.new ≡ stored answer.old (read_cells (reading_beside ours.now theirs.now ty payload.now sheet.old)) }
{
    exports::payloads::arf_read_beside(ours, theirs, ty, payload, sheet, answer)
}

// Writes the value that a sheet shows over its bytes. answer: place, the payload's length.
#[unsafe(no_mangle)]
pub extern "C" fn arf_write(
    schema: &[u8],
    ty: u32,
    sheet: &[u32],
    bytes: &[u8],
    out: &mut [u8],
    answer: &mut [u64],
) -> u32
    ensures value { result ≡ write_number (writing schema.now ty sheet.now bytes.now out.old) }
    ensures out_after { out.new ≡ output_after schema.now ty sheet.now bytes.now out.old }
    ensures answer_after { answer.new ≡ stored answer.old (write_cells (writing schema.now ty sheet.now bytes.now out.old)) }
{
    exports::payloads::arf_write(schema, ty, sheet, bytes, out, answer)
}

// Writes a frame with the value that a sheet shows over its bytes; type 4294967295 is an empty payload. answer: place, the frame's length.
#[unsafe(no_mangle)]
pub extern "C" fn arf_write_value_frame(
    kind: u32,
    package: u32,
    service: u32,
    method: u32,
    correlation: u64,
    schema: &[u8],
    ty: u32,
    sheet: &[u32],
    bytes: &[u8],
    out: &mut [u8],
    answer: &mut [u64],
) -> u32
    ensures value { result ≡ write_number (framing (header_of kind «package» service method correlation) schema.now ty sheet.now bytes.now out.old) }
    ensures out_after { out.new ≡ framed_after (header_of kind «package» service method correlation) schema.now ty sheet.now bytes.now out.old }
    ensures answer_after { answer.new ≡ stored answer.old (write_cells (framing (header_of kind «package» service method correlation) schema.now ty sheet.now bytes.now out.old)) }
{
    exports::payloads::arf_write_value_frame(
        kind,
        package,
        service,
        method,
        correlation,
        schema,
        ty,
        sheet,
        bytes,
        out,
        answer,
    )
}

// Writes the value that a sheet shows over its bytes, with the root's unknown bits kept and the tail after the known fields. answer: place, the payload's
// length.
#[unsafe(no_mangle)]
pub extern "C" fn arf_forward(
    schema: &[u8],
    ty: u32,
    sheet: &[u32],
    bytes: &[u8],
    tail_place: usize,
    tail_length: usize,
    out: &mut [u8],
    answer: &mut [u64],
) -> u32
    ensures value { result ≡ write_number (forwarding schema.now ty sheet.now bytes.now tail_place tail_length out.old) }
    ensures out_after { out.new ≡ forwarded_after schema.now ty sheet.now bytes.now tail_place tail_length out.old }
    ensures answer_after { answer.new ≡ stored answer.old (write_cells (forwarding schema.now ty sheet.now bytes.now tail_place tail_length out.old)) }
{
    exports::payloads::arf_forward(
        schema,
        ty,
        sheet,
        bytes,
        tail_place,
        tail_length,
        out,
        answer,
    )
}
