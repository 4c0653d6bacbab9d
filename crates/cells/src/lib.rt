// Call records, tally rows and scalars in lent cells of numbers, for programs in other languages.
#![tactic(auto)]

pub mod records;
pub mod rows;
pub mod scalars;

ghost use Rattle.std.specs.Prelude.{◌≡◌, set};
ghost use Rattle.cells.specs.Cells.{stored};

// Stores one number, where there is such a cell.
pub fn put(cells: &mut [u64], i: usize, x: u64)
    ensures { cells.new ≡ set cells.old i x }
{
    if i < cells.len() {
        cells[i] = x;
    }
}

// Stores the values into the first cells, as many as there are cells for.
#[tactic(auto, using(crate::proofs::Stores::copied))]
pub fn store(cells: &mut [u64], values: &[u64])
    ensures { cells.new ≡ stored cells.old values.now }
{
    let n = values.len().min(cells.len());
    cells[..n].copy_from_slice(&values[..n]);
}
