// The payload reader: values of a schema table's types, shown as rows of a sheet.
#![tactic(auto)]

pub mod beside;
pub mod pairs;
pub mod walk;

ghost use Rattle.std.specs.Prelude.{◌≡◌};
ghost use Rattle.flat.specs.Told.{told_walk};
ghost use Rattle.reader.specs.Entry.{Outcome, payload_outcome, payload_number, read_outcome, number_in};
ghost use Rattle.reader.specs.Beside.{shown_outcome};
ghost use Rattle.reader.specs.Judged.{Judged};
ghost use Rattle.reader.specs.Told.{told, told_number};

use crate::walk::{View, root};
use constants::kind::Kind;
use constants::refusal::{Refusal, Refused};
use constants::{format, limit};
use flat::sheet::copy_cells;
use flat::{Past, Source};
use table::good::Schema;

// All fields that a struct can have.
// It is as wide as what is shown of a type, which is a byte.
const ALL_FIELDS: u8 = limit::STRUCT_FIELDS as u8;

// Rows of the small sheet that the first walk writes into, and its cells: an array, since the library takes no heap.
const SCRATCH_ROWS: usize = 32;

const SCRATCH_CELLS: usize = format::ROW_CELLS * SCRATCH_ROWS;

// What a payload that is read gives: the number of rows, the tail's place and length, and the key comparisons due.
#[derive(Clone, Copy)]
pub struct Shown {
    pub rows: usize,
    pub tail_place: usize,
    pub tail_length: usize,
    pub comparisons: usize,
}

// The first walk over a payload that is read as a struct of type ty, over cells of its own: its answer is the entry's, of a sheet that has so many rows.
fn judge(
    shown: &[u8; limit::TYPES],
    schema: &Schema,
    ty: u32,
    payload: &[u8],
    cells: &mut [u32],
    rows: usize,
) -> Result<Past, Refused>
    ensures { Judged shown.now schema.now.bytes.now ty payload.now rows cells.old (told_walk result) cells.new }
{
    let t = schema.type_row(ty as usize);
    if t.kind != Kind::Struct as u32 {
        return Refusal::NoStruct.at(0);
    }
    if limit::PAYLOAD < payload.len() {
        return Refusal::PayloadTooLong.at(0);
    }
    let first = t.a as usize;
    let n = t.b as usize;
    let source = Source {
        schema: *schema,
        payload,
        judging: true,
    };
    let past = root(&View { shown, source }, cells, ty, first, n)?;
    if rows < past.row {
        return Refusal::SheetTooShort.at(0);
    }
    Ok(past)
}

// Reads a payload as a struct of type ty, and shows the first fields of each struct, as many as `shown` has for its type.
// One walk judges and writes into a small sheet of its own, from which few rows are copied; more are written by a second walk.
fn read_shown(
    shown: &[u8; limit::TYPES],
    schema: &Schema,
    ty: u32,
    payload: &[u8],
    sheet: &mut [u32],
) -> Result<Shown, Refused>
    ensures { Outcome.outcome (told result) sheet.new ≡ shown_outcome shown.now schema.now.bytes.now ty payload.now sheet.old }
{
    let rows = sheet.len() / format::ROW_CELLS;
    let mut few = [0u32; SCRATCH_CELLS];
    let past = judge(shown, schema, ty, payload, &mut few, rows)?;
    if past.row <= SCRATCH_ROWS {
        copy_cells(sheet, &few, format::ROW_CELLS * past.row);
    } else {
        let t = schema.type_row(ty as usize);
        let first = t.a as usize;
        let n = t.b as usize;
        let source = Source {
            schema: *schema,
            payload,
            judging: false,
        };
        let _ = root(&View { shown, source }, sheet, ty, first, n);
    }
    Ok(Shown {
        rows: past.row,
        tail_place: past.next,
        tail_length: payload.len() - past.next,
        comparisons: past.due as usize,
    })
}

// Reads a payload as a struct of type ty. A struct has at most 64 fields, so all are shown.
pub fn read_payload(
    schema: &Schema,
    ty: u32,
    payload: &[u8],
    sheet: &mut [u32],
) -> Result<Shown, Refused>
    ensures { Outcome.outcome (told result) sheet.new ≡ payload_outcome schema.now.bytes.now ty payload.now sheet.old }
{
    let all = [ALL_FIELDS; limit::TYPES];
    read_shown(&all, schema, ty, payload, sheet)
}

// Reads a payload by any table: the table's own refusal comes first.
#[tactic(auto, unfolding(crate::specs::Entry::read_outcome))]
pub fn read(schema: &[u8], ty: u32, payload: &[u8], sheet: &mut [u32]) -> Result<Shown, Refused>
    ensures { Outcome.outcome (told result) sheet.new ≡ read_outcome schema.now ty payload.now sheet.old }
{
    let schema = Schema::check(schema)?;
    read_payload(&schema, ty, payload, sheet)
}

// Whether `read_shown` shows the payload, or its refusal: the first walk alone, so that the sheet's cells are not touched.
fn judge_shown(
    shown: &[u8; limit::TYPES],
    schema: &Schema,
    ty: u32,
    payload: &[u8],
    sheet: &[u32],
) -> Result<(), Refusal>
    ensures { told_number result ≡ number_in (shown_outcome shown.now schema.now.bytes.now ty payload.now sheet.now) }
{
    // No cell of it is lent.
    let mut none = [0u32; 1];
    match judge(
        shown,
        schema,
        ty,
        payload,
        &mut none[..0],
        sheet.len() / format::ROW_CELLS,
    ) {
        Ok(_) => Ok(()),
        Err(refused) => Err(refused.refusal),
    }
}

// Whether `read_payload` shows the payload, or its refusal, without touching the sheet's cells.
pub fn judge_payload(schema: &Schema, ty: u32, payload: &[u8], sheet: &[u32]) -> Result<(), Refusal>
    ensures { told_number result ≡ payload_number schema.now.bytes.now ty payload.now sheet.now }
{
    let all = [ALL_FIELDS; limit::TYPES];
    judge_shown(&all, schema, ty, payload, sheet)
}
