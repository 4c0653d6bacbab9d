// The sheet: rows of four cells.
ghost use Rattle.std.specs.Prelude.{◌≡◌, ◌≤◌, length};
ghost use Rattle.std.proofs.Math.Seq.{paste};
ghost use Rattle.flat.specs.Sheet.{put_row};

use constants::format;

// Writes a row where the sheet has it.
pub fn put_row(sheet: &mut [u32], row: usize, ty: u32, place: usize, length: usize, count: usize)
    requires { (row ≤ 16384) × (place ≤ 16384) × (length ≤ 16384) × (count ≤ 16384) }
    ensures { sheet.new ≡ put_row sheet.old row (record { ty = ty; place = place; length = length; count = count }) }
{
    let base = format::ROW_CELLS * row;
    if base + format::ROW_CELLS <= sheet.len() {
        sheet[base] = ty;
        sheet[base + 1] = place as u32;
        sheet[base + 2] = length as u32;
        sheet[base + 3] = count as u32;
    }
}

// Copies the first n cells of another sheet.
pub fn copy_cells(sheet: &mut [u32], other: &[u32], n: usize)
    requires { (n ≤ length sheet.old) × (n ≤ length other.now) }
    ensures { sheet.new ≡ paste sheet.old 0 other.now n }
{
    sheet[..n].copy_from_slice(&other[..n]);
}
