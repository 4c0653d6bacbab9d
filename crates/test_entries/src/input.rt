// The numbers and byte strings of a case, off the case file. Each reader stops where the file ends too soon.
ghost use Rattle.std.specs.Prelude.{◌≡◌, ◌<◌, length, IfErr};
ghost use Rattle.std.specs.Io.{ReadsAtMost};
ghost use Rattle.files.specs.Failures.{GivesSome};
ghost use Rattle.test_entries.specs.declared.stop.Stop.TheVariants.{Cut};

use crate::stop::Stop;
use cells::rows::TALLY_CELLS;
use std::io::Read;

// Fills buf from a reader. A reader that ends before counts as a cut file; what it gave until an error is lost.
fn fill_bytes<R: Read>(from: &mut R, buf: &mut [u8]) -> Result<(), Stop>
    ensures len { length buf.new ≡ length buf.old }
    ensures left { GivesSome (R.remaining from.old) (R.remaining from.new) }
{
    if files::fill(from, buf)? < buf.len() {
        return Err(Stop::Cut);
    }
    Ok(())
}

fn array<const N: usize, R: Read>(from: &mut R) -> Result<[u8; N], Stop>
    ensures left { GivesSome (R.remaining from.old) (R.remaining from.new) }
{
    let mut bytes = [0u8; N];
    fill_bytes(from, &mut bytes)?;
    Ok(bytes)
}

pub fn byte<R: Read>(from: &mut R) -> Result<u8, Stop>
    ensures left { GivesSome (R.remaining from.old) (R.remaining from.new) }
{
    let bytes: [u8; 1] = array(from)?;
    Ok(bytes[0])
}

// Two bytes, the least first.
pub fn short<R: Read>(from: &mut R) -> Result<u16, Stop>
    ensures left { GivesSome (R.remaining from.old) (R.remaining from.new) }
{
    Ok(u16::from_le_bytes(array(from)?))
}

// Four bytes, the least first.
pub fn word<R: Read>(from: &mut R) -> Result<u32, Stop>
    ensures left { GivesSome (R.remaining from.old) (R.remaining from.new) }
{
    Ok(u32::from_le_bytes(array(from)?))
}

// Eight bytes, the least first.
pub fn long<R: Read>(from: &mut R) -> Result<u64, Stop>
    ensures left { GivesSome (R.remaining from.old) (R.remaining from.new) }
{
    Ok(u64::from_le_bytes(array(from)?))
}

// A length and that many bytes, which it puts at the start of buf. A length that buf does not hold counts as a cut file.
pub fn bytes<R: Read>(from: &mut R, buf: &mut [u8]) -> Result<usize, Stop>
    ensures in_bounds { ReadsAtMost result buf.new }
    ensures len { length buf.new ≡ length buf.old }
    ensures left { GivesSome (R.remaining from.old) (R.remaining from.new) }
{
    let n = room(from, buf)?;
    fill_bytes(from, &mut buf[..n])?;
    Ok(n)
}

// A number of cells.
pub fn cells<R: Read>(from: &mut R, sheet: &[u32]) -> Result<usize, Stop>
    ensures in_bounds { ReadsAtMost result sheet.now }
    ensures left { GivesSome (R.remaining from.old) (R.remaining from.new) }
{
    let n = word(from)? as usize;
    within(sheet, n)
}

// The number n of cells, at most as many as the sheet has. A greater one counts as a cut file.
pub fn within(sheet: &[u32], n: usize) -> Result<usize, Stop>
    ensures in_bounds { ReadsAtMost result sheet.now }
    ensures error { IfErr result (λ e. (e ≡ Cut) × (length sheet.now < n)) }
{
    if sheet.len() < n {
        return Err(Stop::Cut);
    }
    Ok(n)
}

// A number of output bytes, at most as many as buf has. A greater one counts as a cut file.
pub fn room<R: Read>(from: &mut R, buf: &[u8]) -> Result<usize, Stop>
    ensures in_bounds { ReadsAtMost result buf.now }
    ensures left { GivesSome (R.remaining from.old) (R.remaining from.new) }
{
    let n = word(from)? as usize;
    if buf.len() < n {
        return Err(Stop::Cut);
    }
    Ok(n)
}

// A number of cells and the cells, which it puts at the start of the sheet.
pub fn sheet<R: Read>(from: &mut R, sheet: &mut [u32]) -> Result<usize, Stop>
    ensures in_bounds { ReadsAtMost result sheet.new }
    ensures len { length sheet.new ≡ length sheet.old }
    ensures left { GivesSome (R.remaining from.old) (R.remaining from.new) }
{
    let n = cells(from, sheet)?;
    fill(from, &mut sheet[..n])?;
    Ok(n)
}

// A number of tally rows and the rows, five cells each, which it puts at the start of the cells. More rows than there are cells for count as a cut file.
pub fn rows<R: Read>(from: &mut R, cells: &mut [u32]) -> Result<usize, Stop>
    ensures in_bounds { ReadsAtMost result cells.new }
    ensures len { length cells.new ≡ length cells.old }
    ensures left { GivesSome (R.remaining from.old) (R.remaining from.new) }
{
    let rows = word(from)? as usize;
    let n = within(cells, TALLY_CELLS * rows)?;
    fill(from, &mut cells[..n])?;
    Ok(n)
}

fn fill<R: Read>(from: &mut R, sheet: &mut [u32]) -> Result<(), Stop>
    ensures left { GivesSome (R.remaining from.old) (R.remaining from.new) }
{
    for cell in sheet {
        *cell = word(from)?;
    }
    Ok(())
}
