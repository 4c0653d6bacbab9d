// Cases of the payload reader, of the scalar entry, of the payload writer, of the writer of a whole frame and of the forwarding writer.
use crate::frames::read_header;
use crate::stop::Stop;
use crate::{blank, input, output, sums};
use constants::refusal::Refused;
use frame::Header;
use reader::Shown;
use receiver::payload::NOTHING;
use scalar::Scalar;
use std::io::{Read, Write};
use value::Row;

// What the lent cells hold before the call.
pub const CELL: u32 = 2779096485;

// Code 3: a table, a type, a payload and the number of the sheet's cells. The line has number, place, rows, the tail's place and length, key comparisons,
// and the sheet's sum.
pub fn read(from: &mut impl Read, to: &mut impl Write) -> Result<(), Stop> {
    let mut schema = blank::bytes();
    let mut payload = blank::bytes();
    let mut sheet = blank::cells();
    let n = input::bytes(from, &mut schema)?;
    let ty = input::word(from)?;
    let m = input::bytes(from, &mut payload)?;
    let cells = input::cells(from, &sheet)?;
    show(to, &schema[..n], ty, &payload[..m], &mut sheet[..cells])
}

fn show(
    to: &mut impl Write,
    schema: &[u8],
    ty: u32,
    payload: &[u8],
    sheet: &mut [u32],
) -> Result<(), Stop> {
    print_reading(to, arf::read(schema, ty, payload, sheet), sheet)
}

// Code 16: our table and theirs, a type, a payload and the number of the sheet's cells. The line is that of code 3.
pub fn read_beside(from: &mut impl Read, to: &mut impl Write) -> Result<(), Stop> {
    let mut ours = blank::bytes();
    let mut theirs = blank::bytes();
    let mut payload = blank::bytes();
    let mut sheet = blank::cells();
    let n = input::bytes(from, &mut ours)?;
    let m = input::bytes(from, &mut theirs)?;
    let ty = input::word(from)?;
    let k = input::bytes(from, &mut payload)?;
    let cells = input::cells(from, &sheet)?;
    show_beside(
        to,
        &ours[..n],
        &theirs[..m],
        ty,
        &payload[..k],
        &mut sheet[..cells],
    )
}

fn show_beside(
    to: &mut impl Write,
    ours: &[u8],
    theirs: &[u8],
    ty: u32,
    payload: &[u8],
    sheet: &mut [u32],
) -> Result<(), Stop> {
    print_reading(
        to,
        arf::read_beside(ours, theirs, ty, payload, sheet),
        sheet,
    )
}

fn print_reading(
    to: &mut impl Write,
    answer: Result<Shown, Refused>,
    sheet: &[u32],
) -> Result<(), Stop> {
    output::numbers(to, &[output::number(&answer), output::place(&answer)])?;
    let shown = answer.unwrap_or(NOTHING);
    let numbers = [
        shown.rows as u64,
        shown.tail_place as u64,
        shown.tail_length as u64,
        shown.comparisons as u64,
    ];
    output::numbers(to, &numbers)?;
    output::last(to, sums::of_cells(sheet))?;
    Ok(())
}

// Code 4: a table, a row and its bytes. The line has number, place, the case and its two numbers.
pub fn scalar(from: &mut impl Read, to: &mut impl Write) -> Result<(), Stop> {
    let mut schema = blank::bytes();
    let mut data = blank::bytes();
    let n = input::bytes(from, &mut schema)?;
    let row = Row {
        ty: input::word(from)?,
        place: input::word(from)?,
        length: input::word(from)?,
        count: input::word(from)?,
    };
    let m = input::bytes(from, &mut data)?;
    print_answer(to, arf::scalar(&schema[..n], row, &data[..m]))
}

fn print_answer(to: &mut impl Write, answer: Result<Scalar, Refused>) -> Result<(), Stop> {
    let (which, a, b) = match answer {
        Ok(scalar) => case_of(scalar),
        Err(_) => (0, 0, 0),
    };
    output::numbers(
        to,
        &[output::number(&answer), output::place(&answer), which, a],
    )?;
    output::last(to, b)?;
    Ok(())
}

// Which case of a scalar it is, and its two numbers.
fn case_of(scalar: Scalar) -> (u64, u64, u64) {
    match scalar {
        Scalar::Truth(b) => (1, u64::from(b), 0),
        Scalar::Signed(x) => (2, x.cast_unsigned(), 0),
        Scalar::Unsigned(x) => (3, x, 0),
        Scalar::Float32(x, bits) => (4, u64::from(bits), u64::from(bits32(x))),
        Scalar::Float64(x, bits) => (5, bits, bits64(x)),
        Scalar::Span { place, length } => (6, place as u64, length as u64),
    }
}

// A float's own bits; a NaN, which no number equals, counts as 0.
fn bits32(x: f32) -> u32 {
    if x == x { f32::to_bits(x) } else { 0 }
}

fn bits64(x: f64) -> u64 {
    if x == x { f64::to_bits(x) } else { 0 }
}

// Code 5: a table, a type, a sheet, its bytes and the output's length. The line has number, place, the payload's length and the output's sum.
pub fn write(from: &mut impl Read, to: &mut impl Write) -> Result<(), Stop> {
    let mut schema = blank::bytes();
    let mut sheet = blank::cells();
    let mut data = blank::bytes();
    let mut out = blank::output();
    let n = input::bytes(from, &mut schema)?;
    let ty = input::word(from)?;
    let cells = input::sheet(from, &mut sheet)?;
    let m = input::bytes(from, &mut data)?;
    let room = input::room(from, &out)?;
    show_written(
        to,
        &schema[..n],
        ty,
        &sheet[..cells],
        &data[..m],
        &mut out[..room],
    )
}

fn show_written(
    to: &mut impl Write,
    schema: &[u8],
    ty: u32,
    sheet: &[u32],
    data: &[u8],
    out: &mut [u8],
) -> Result<(), Stop> {
    print_writing(to, arf::write(schema, ty, sheet, data, out), out)
}

fn print_writing(
    to: &mut impl Write,
    answer: Result<usize, Refused>,
    out: &[u8],
) -> Result<(), Stop> {
    output::numbers(to, &output::written(&answer))?;
    output::last(to, sums::of_bytes(out))?;
    Ok(())
}

// Code 15: a header, then as for code 5. The line has number, place, the frame's length and the output's sum.
pub fn write_frame(from: &mut impl Read, to: &mut impl Write) -> Result<(), Stop> {
    let mut schema = blank::bytes();
    let mut sheet = blank::cells();
    let mut data = blank::bytes();
    let mut out = blank::output();
    let header = read_header(from)?;
    let n = input::bytes(from, &mut schema)?;
    let ty = input::word(from)?;
    let cells = input::sheet(from, &mut sheet)?;
    let m = input::bytes(from, &mut data)?;
    let room = input::room(from, &out)?;
    show_frame(
        to,
        header,
        &schema[..n],
        ty,
        &sheet[..cells],
        &data[..m],
        &mut out[..room],
    )
}

fn show_frame(
    to: &mut impl Write,
    header: Header,
    schema: &[u8],
    ty: u32,
    sheet: &[u32],
    data: &[u8],
    out: &mut [u8],
) -> Result<(), Stop> {
    print_writing(
        to,
        arf::write_value_frame(header, schema, ty, sheet, data, out),
        out,
    )
}

// Code 18: a table, a type, a sheet, its bytes, the tail's place and length and the output's length. The line has number, place, the payload's length and
// the output's sum.
pub fn forward(from: &mut impl Read, to: &mut impl Write) -> Result<(), Stop> {
    let mut schema = blank::bytes();
    let mut sheet = blank::cells();
    let mut data = blank::bytes();
    let mut out = blank::output();
    let n = input::bytes(from, &mut schema)?;
    let ty = input::word(from)?;
    let cells = input::sheet(from, &mut sheet)?;
    let m = input::bytes(from, &mut data)?;
    let place = input::word(from)?;
    let length = input::word(from)?;
    let room = input::room(from, &out)?;
    show_forwarded(
        to,
        &schema[..n],
        ty,
        &sheet[..cells],
        &data[..m],
        place,
        length,
        &mut out[..room],
    )
}

fn show_forwarded(
    to: &mut impl Write,
    schema: &[u8],
    ty: u32,
    sheet: &[u32],
    data: &[u8],
    place: u32,
    length: u32,
    out: &mut [u8],
) -> Result<(), Stop> {
    let answer = arf::forward(
        schema,
        ty,
        sheet,
        data,
        place as usize,
        length as usize,
        out,
    );
    print_writing(to, answer, out)
}
