// The value writer: the rows of a sheet over their bytes, written as a payload.
#![tactic(auto)]

pub mod leaf;
pub mod put;
pub mod rows;
pub mod walk;

ghost use Rattle.std.specs.Prelude.{◌≡◌, ◌≤◌, length};
ghost use Rattle.schema.specs.Check.{IsGood};
ghost use Rattle.value.specs.Write.{written};
ghost use Rattle.writer.specs.Writing.{Written};
ghost use Rattle.writer.specs.Told.{told};
ghost use Rattle.writer.specs.Entry.{outcome, length_of, payload_by, Fronts, sheet_outcome, file_outcome};

use crate::put::put_span;
use crate::rows::Rows;
use crate::walk::root;
use constants::kind::Kind;
use constants::limit;
use constants::refusal::{Refusal, Refused};
use table::good::Schema;

// A sheet of so many cells at most is likely written to a payload of so many bytes at most.
pub const FEW_CELLS: usize = 256;

pub const SHORT: usize = 512;

// The length of the payload that the sheet's rows over the source make as a struct of type ty by a good table; or the refusal: 52 is not among them.
// One walk judges, measures and writes: where the payload fits into the scratch memory, it stands at its front.
pub fn make(
    s: &[u8],
    ty: u32,
    sheet: &[u32],
    source: &[u8],
    scratch: &mut [u8],
) -> Result<usize, Refused>
    requires { IsGood s.now × (length scratch.old ≤ 16384) }
    ensures value { told result ≡ length_of (payload_by s.now ty sheet.now source.now) }
    ensures fronts { Fronts (payload_by s.now ty sheet.now source.now) scratch.old scratch.new }
{
    let schema = Schema::of_good(s);
    let t = schema.type_row(ty as usize);
    if t.kind != Kind::Struct as u32 {
        return Refusal::NoStruct.at(0);
    }
    let rows = Rows {
        schema,
        sheet,
        source,
        judging: true,
    };
    let past = root(&rows, scratch, ty, t.a as usize, t.b as usize)?;
    if limit::PAYLOAD < past.pos {
        return Refusal::PayloadTooLong.at(0);
    }
    Ok(past.pos)
}

// Writes a payload that was measured into an output of its length.
pub fn put_payload(s: &[u8], ty: u32, sheet: &[u32], source: &[u8], out: &mut [u8])
    requires good { IsGood s.now }
    requires source_value { length_of (payload_by s.now ty sheet.now source.now) ≡ Written (length out.old) }
    ensures { payload_by s.now ty sheet.now source.now ≡ written out.new }
{
    let schema = Schema::of_good(s);
    let t = schema.type_row(ty as usize);
    let rows = Rows {
        schema,
        sheet,
        source,
        judging: false,
    };
    let _ = root(&rows, out, ty, t.a as usize, t.b as usize);
}

// The sheet's rows over the source, written as a struct of type ty by a good table: made in the scratch memory, and copied where all is right and fits.
// A payload that is too long for the scratch memory takes a second walk, which writes.
fn write_through(
    schema: &Schema,
    ty: u32,
    sheet: &[u32],
    source: &[u8],
    scratch: &mut [u8],
    out: &mut [u8],
) -> Result<usize, Refused>
    requires { length scratch.old ≤ 16384 }
    ensures { outcome (told result) out.new ≡ sheet_outcome schema.now.bytes.now ty sheet.now source.now out.old }
{
    let length = make(schema.bytes, ty, sheet, source, scratch)?;
    if out.len() < length {
        return Refusal::OutputTooShort.at(0);
    }
    if scratch.len() < length {
        put_payload(schema.bytes, ty, sheet, source, &mut out[..length]);
    } else {
        put_span(out, 0, scratch, 0, length);
    }
    Ok(length)
}

// The same with scratch memory of its own: little where there are few rows, and elsewhere enough for every payload.
pub fn write_sheet(
    schema: &Schema,
    ty: u32,
    sheet: &[u32],
    source: &[u8],
    out: &mut [u8],
) -> Result<usize, Refused>
    ensures { outcome (told result) out.new ≡ sheet_outcome schema.now.bytes.now ty sheet.now source.now out.old }
{
    if sheet.len() <= FEW_CELLS {
        let mut scratch = [0u8; SHORT];
        return write_through(schema, ty, sheet, source, &mut scratch, out);
    }
    let mut scratch = [0u8; limit::PAYLOAD];
    write_through(schema, ty, sheet, source, &mut scratch, out)
}

// The same by any table: its own refusals come first.
#[tactic(auto, unfolding(crate::specs::Entry::file_outcome))]
pub fn write(
    s: &[u8],
    ty: u32,
    sheet: &[u32],
    source: &[u8],
    out: &mut [u8],
) -> Result<usize, Refused>
    ensures { outcome (told result) out.new ≡ file_outcome s.now ty sheet.now source.now out.old }
{
    let schema = Schema::check(s)?;
    write_sheet(&schema, ty, sheet, source, out)
}
