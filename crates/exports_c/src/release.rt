// The release of a cancelled call in the call table and the tally rows that the caller lends.
ghost use Rattle.std.specs.Prelude.{◌≡◌};
ghost use Rattle.cells.specs.Cells.{stored};
ghost use Rattle.cells.specs.Records.{row_cells};
ghost use Rattle.exports.specs.Answers.{releasing, call_cells, released_cells};

// Ends the cancelled call with this correlation. table: 128 records of three cells, before and after; with fewer cells, or a cell with more bits than
// a record's number, it is refused with 15. tallies: five cells a method, before and after. answer: place, calls open.
#[unsafe(no_mangle)]
pub extern "C" fn arf_release(
    table: &mut [u64],
    schema: &[u8],
    correlation: u64,
    tallies: &mut [u32],
    answer: &mut [u64],
) -> u32
    ensures value { result ≡ (releasing table.old schema.now correlation tallies.old).answer.number }
    ensures table_after { table.new ≡ call_cells table.old (releasing table.old schema.now correlation tallies.old).answer.table.slots }
    ensures tallies_after { tallies.new ≡ row_cells tallies.old (releasing table.old schema.now correlation tallies.old).tallies }
    ensures answer_after { answer.new ≡ stored answer.old (released_cells (releasing table.old schema.now correlation tallies.old).answer) }
{
    exports::release::arf_release(table, schema, correlation, tallies, answer)
}
