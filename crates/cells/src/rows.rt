// Tally rows in cells that the caller lends, one a method.
ghost use Rattle.std.specs.Prelude.{◌≡◌, get_or, set};
ghost use Rattle.calls.specs.Counting.{no_tally};
ghost use Rattle.cells.specs.Records.{rows_of, row_cells};

use calls::Tally;
use connection::tallies::NO_TALLY;

// Cells of a tally row.
pub const TALLY_CELLS: usize = 5;

// The row of a method; past the last whole row it is zeros.
// Five named members from five cells, as `put_row` stores them: a loop would name none.
pub fn row_in(cells: &[u32], i: usize) -> Tally
    ensures { result ≡ get_or (rows_of cells.now) i no_tally }
{
    if i < cells.len() / TALLY_CELLS {
        Tally {
            opened: cells[TALLY_CELLS * i],
            completed: cells[TALLY_CELLS * i + 1],
            errored: cells[TALLY_CELLS * i + 2],
            cancelled: cells[TALLY_CELLS * i + 3],
            failed: cells[TALLY_CELLS * i + 4],
        }
    } else {
        NO_TALLY
    }
}

// Stores the row of a method, where there is one.
pub fn put_row(cells: &mut [u32], i: usize, row: Tally)
    ensures { cells.new ≡ row_cells cells.old (set (rows_of cells.old) i row) }
{
    if i < cells.len() / TALLY_CELLS {
        cells[TALLY_CELLS * i] = row.opened;
        cells[TALLY_CELLS * i + 1] = row.completed;
        cells[TALLY_CELLS * i + 2] = row.errored;
        cells[TALLY_CELLS * i + 3] = row.cancelled;
        cells[TALLY_CELLS * i + 4] = row.failed;
    }
}
