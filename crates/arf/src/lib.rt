// The public entries: none of them asks anything of its caller, and each fixes its answer and every cell of lent memory.
// `receive` and `release` are those of `receiver`, handed on as they stand there.
#![tactic(auto)]

ghost use Rattle.std.specs.Prelude.{◌≡◌, length};
ghost use Rattle.connection.specs.Step.{fresh_table};
ghost use Rattle.forward.specs.Entry.{forward_outcome};
ghost use Rattle.frame.specs.Frame.{frame_of};
ghost use Rattle.frame.specs.Written.{written_of, output_of};
ghost use Rattle.frame.specs.Told as frame;
ghost use Rattle.index.specs.Index as making;
ghost use Rattle.index.specs.LookUp as look;
ghost use Rattle.index.specs.Told as indexed;
ghost use Rattle.reader.specs.Beside.{beside_outcome};
ghost use Rattle.reader.specs.Entry.{Outcome, read_outcome};
ghost use Rattle.reader.specs.Told as reader;
ghost use Rattle.salvage.specs.Salvage.{outcome, salvage_of};
ghost use Rattle.salvage.specs.Told as salvage;
ghost use Rattle.scalar.specs.Scalar.{scalar_by};
ghost use Rattle.scalar.specs.Told as scalar;
ghost use Rattle.schema.specs.Check.{checked};
ghost use Rattle.schema.specs.Extend.{extension};
ghost use Rattle.table.specs.Told.{told, told_extends};
ghost use Rattle.valueframe.specs.Entry.{frame_outcome};
ghost use Rattle.writer.specs.Entry as writer;
ghost use Rattle.writer.specs.Told as written;

use connection::CallTable;
use constants::refusal::{Refusal, Refused};
use frame::{FrameRead, Header};
use index::Printed;
use reader::Shown;
pub use receiver::receive::receive;
pub use receiver::release::release;
use salvage::Salvaged;
use scalar::Scalar;
use value::Row;

// The verdict on a schema table: good, or the first fault's number and place.
pub fn check_table(schema: &[u8]) -> Result<(), Refused>
    ensures { told result ≡ checked schema.now }
{
    table::checking::check(schema)
}

// Whether the new table extends the old one; for tables that are not good the first one's refusal, old first.
pub fn extends(old: &[u8], new: &[u8]) -> Result<bool, Refused>
    ensures { told_extends result ≡ extension old.now new.now }
{
    table::extension::extends(old, new)
}

// Reads a payload as a struct of type ty, and shows it on the sheet: the number of rows with the tail's place and length and the key comparisons due,
// or the refusal's number and place, which leaves the sheet as it was.
pub fn read(schema: &[u8], ty: u32, payload: &[u8], sheet: &mut [u32]) -> Result<Shown, Refused>
    ensures { Outcome.outcome (reader.told result) sheet.new ≡ read_outcome schema.now ty payload.now sheet.old }
{
    reader::read(schema, ty, payload, sheet)
}

// Reads a payload by the writer's table, and shows it by ours, without the fields that theirs has added; the answer is that of `read`.
// Theirs has to extend ours, but its bitmaps may have grown: else 47, after 40 to 44 for ours and then for theirs.
pub fn read_beside(
    ours: &[u8],
    theirs: &[u8],
    ty: u32,
    payload: &[u8],
    sheet: &mut [u32],
) -> Result<Shown, Refused>
    ensures { Outcome.outcome (reader.told result) sheet.new ≡ beside_outcome ours.now theirs.now ty payload.now sheet.old }
{
    reader::beside::read_beside(ours, theirs, ty, payload, sheet)
}

// One row of a scalar, a string or bytes over its bytes, as a value.
pub fn scalar(schema: &[u8], row: Row, bytes: &[u8]) -> Result<Scalar, Refused>
    ensures { scalar.told result ≡ scalar_by schema.now row bytes.now }
{
    scalar::entry::scalar(schema, row, bytes)
}

// Writes the sheet's rows over the source as a struct of type ty: the length written, or the refusal's number and place, which leaves the output as it
// was.
pub fn write(
    schema: &[u8],
    ty: u32,
    sheet: &[u32],
    source: &[u8],
    out: &mut [u8],
) -> Result<usize, Refused>
    ensures { writer.outcome (written.told result) out.new ≡ writer.file_outcome schema.now ty sheet.now source.now out.old }
{
    writer::write(schema, ty, sheet, source, out)
}

// Writes the sheet's rows over the source like `write`, and passes on what the table does not know: the root's unknown bits are kept, and the tail, the
// bytes of the source at its place, stands after the known fields.
pub fn forward(
    schema: &[u8],
    ty: u32,
    sheet: &[u32],
    source: &[u8],
    tail_place: usize,
    tail_length: usize,
    out: &mut [u8],
) -> Result<usize, Refused>
    ensures { writer.outcome (written.told result) out.new ≡ forward_outcome schema.now ty sheet.now source.now tail_place tail_length out.old }
{
    forward::forward(schema, ty, sheet, source, tail_place, tail_length, out)
}

// Reads the frame at the front of the bytes: its header with the payload's place and length, more bytes needed, or a refusal's number.
pub fn read_frame(bytes: &[u8]) -> Result<FrameRead, Refusal>
    ensures { frame.told result ≡ frame_of bytes.now }
{
    frame::read_frame(bytes)
}

// Writes the frame of a header and a payload: the frame's length, or a refusal's number, which leaves the output as it was.
pub fn write_frame(header: Header, payload: &[u8], out: &mut [u8]) -> Result<usize, Refusal>
    ensures { (frame.told_written result ≡ written_of header payload.now (length out.old)) × (out.new ≡ output_of (frame.told_written result) header payload.now out.old) }
{
    frame::write_frame(header, payload, out)
}

// Writes what `write` and then `write_frame` give straight to the output; type 4294967295 stands for an empty payload.
// The frame's length, or the refusal's number and place, which leaves the output as it was.
pub fn write_value_frame(
    header: Header,
    schema: &[u8],
    ty: u32,
    sheet: &[u32],
    source: &[u8],
    out: &mut [u8],
) -> Result<usize, Refused>
    ensures { writer.outcome (written.told result) out.new ≡ frame_outcome header schema.now ty sheet.now source.now out.old }
{
    valueframe::write_value_frame(header, schema, ty, sheet, source, out)
}

// The call table at the start: all slots free and zero.
pub fn fresh() -> CallTable
    ensures { result ≡ fresh_table }
{
    CallTable::fresh()
}

// Copies every entry of a record that can be kept, and lists the spans left out, place and length of each: the entries kept, the bytes copied and the
// spans listed, or a refusal's number, which leaves both buffers as they were.
pub fn salvage(record: &[u8], copy: &mut [u8], spans: &mut [u32]) -> Result<Salvaged, Refusal>
    ensures { outcome (salvage.told result) copy.new spans.new ≡ salvage_of «record».now copy.old spans.old }
{
    salvage::salvage(record, copy, spans)
}

// Makes the index of a record at the start of the output: its length, or the refusal's number (the table's, 45, 52) and place, which leaves it as it was.
// It has a sheet of its own, and needs 160 KiB of stack.
pub fn make_index(schema: &[u8], record: &[u8], out: &mut [u8]) -> Result<usize, Refused>
    ensures { making.outcome (indexed.told result) out.new ≡ making.make_index schema.now «record».now out.old }
{
    index::make_index(schema, record, out)
}

// Prints the rows of one call in an index at the start of the output, and last `stopped` with 0, 65 or 66.
// That number and the text's length, or 52 where the text does not fit, which leaves the output as it was.
pub fn look_up(
    index: &[u8],
    record: &[u8],
    correlation: u64,
    out: &mut [u8],
) -> Result<Printed, Refusal>
    ensures { look.outcome (indexed.told_find result) out.new ≡ look.look_up index.now «record».now correlation out.old }
{
    index::look_up(index, record, correlation, out)
}
