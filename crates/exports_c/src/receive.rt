// One frame against the call table and the tally rows that the caller lends.
ghost use Rattle.std.specs.Prelude.{◌≡◌};
ghost use Rattle.cells.specs.Cells.{stored};
ghost use Rattle.cells.specs.Records.{row_cells};
ghost use Rattle.exports.specs.Answers.{receiving, call_cells, received_cells};

// Judges the frame at the front of the bytes, from a side (the byte C or S). table: 128 records of three cells, before and after. tallies: five cells a
// method, before and after. answer: place, bytes used, rows, the tail's place and length, calls open, the key comparisons due.
#[unsafe(no_mangle)]
pub extern "C" fn arf_receive(
    table: &mut [u64],
    schema: &[u8],
    side: u8,
    bytes: &[u8],
    sheet: &mut [u32],
    tallies: &mut [u32],
    answer: &mut [u64],
) -> u32
    ensures value { result ≡ (receiving table.old schema.now side bytes.now sheet.old tallies.old).answer.number }
    ensures table_after { table.new ≡ call_cells table.old (receiving table.old schema.now side bytes.now sheet.old tallies.old).answer.table.slots }
    ensures sheet_after { sheet.new ≡ (receiving table.old schema.now side bytes.now sheet.old tallies.old).sheet }
    ensures tallies_after { tallies.new ≡ row_cells tallies.old (receiving table.old schema.now side bytes.now sheet.old tallies.old).tallies }
    ensures answer_after { answer.new ≡ stored answer.old (received_cells (receiving table.old schema.now side bytes.now sheet.old tallies.old).answer) }
{
    exports::receive::arf_receive(table, schema, side, bytes, sheet, tallies, answer)
}
