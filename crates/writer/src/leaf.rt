// What one row says: its cells, the content of a leaf, and the presence bits of a struct. A leaf is a value of a kind that holds no other: a scalar, a string or bytes.
ghost use Rattle.std.specs.Prelude.{◌≡◌, false, ◌+◌, ◌*◌, ◌/◌, ◌≤◌, ◌<◌, length};
ghost use Rattle.parse.specs.Reader.{Accepted};
ghost use Rattle.schema.specs.Table.{width};
ghost use Rattle.walks.specs.Shape.{leaf_shape};
ghost use Rattle.writer.specs.Leaf.{rows_at, DueRow, Judged, row_says, LeafRow, HeadedBy};

use constants::format;
use constants::kind::Kind;
use constants::refusal::{Refusal, Refused};
use wire::bitmap;

// What a row of the type due says: its place, length and count.
#[derive(Clone, Copy)]
pub struct RowSays {
    pub place: usize,
    pub length: usize,
    pub count: usize,
}

// Where a leaf's content stands and its length.
#[derive(Clone, Copy)]
pub struct Placed {
    pub place: usize,
    pub length: usize,
}

// A cell as a place or a length. What it ensures spares its callers the bound, which a conversion in its place leaves to each of them.
pub fn wide(x: u32) -> usize
    ensures { (result ≡ x) × (result < 4294967296) }
{
    x as usize
}

// The row of a number, which is to be of type ty: one that is missing or of another type is refused.
pub fn row_due(sheet: &[u32], row: usize, ty: u32) -> Result<RowSays, Refused>
    ensures { DueRow sheet.now row ty result }
{
    if sheet.len() / format::ROW_CELLS <= row {
        return Refusal::Sheet.at(row);
    }
    let k = format::ROW_CELLS * row;
    if sheet[k] != ty {
        return Refusal::Sheet.at(row);
    }
    Ok(RowSays {
        place: wide(sheet[k + 1]),
        length: wide(sheet[k + 2]),
        count: wide(sheet[k + 3]),
    })
}

// The width in bytes of a scalar of a kind; kind 0 is none, and has none.
fn width_of(kind: usize) -> usize
    requires { kind < 12 }
    ensures { result ≡ width kind }
{
    if kind == 0 {
        return 0;
    }
    table::kind::width_of(kind)
}

// A scalar by its row: whether that is right, or its first fault.
fn scalar(
    source: &[u8],
    kind: usize,
    place: usize,
    n: usize,
    count: usize,
    row: usize,
) -> Result<(), Refused>
    requires { (kind < 12) × (place < 4294967296) × (n < 4294967296) }
    ensures { Judged source.now kind place n count row result }
{
    if n != width_of(kind) {
        return Refusal::Sheet.at(row);
    }
    if count != 0 {
        return Refusal::Sheet.at(row);
    }
    if source.len() < place + n {
        return Refusal::Outside.at(row);
    }
    if kind == Kind::Bool as usize {
        if 1 < source[place] {
            return Refusal::Bool.at(row);
        }
    }
    Ok(())
}

// A string or bytes by its row, likewise.
fn text(
    source: &[u8],
    kind: usize,
    place: usize,
    n: usize,
    count: usize,
    row: usize,
) -> Result<(), Refused>
    requires { (12 ≤ kind) × (place < 4294967296) × (n < 4294967296) }
    ensures { Judged source.now kind place n count row result }
{
    if count != 0 {
        return Refusal::Sheet.at(row);
    }
    if source.len() < place + n {
        return Refusal::Outside.at(row);
    }
    if kind == Kind::String as usize {
        if !utf8::valid(source, place, place + n) {
            return Refusal::Utf8.at(row);
        }
    }
    Ok(())
}

// A value of a kind from 1 to 13 by its row, with the n bytes of the source at a place: whether that is right, or its first fault, at the row.
// Any other number is judged as the leaf that it stands for in the definitions.
pub fn content(
    source: &[u8],
    kind: usize,
    place: usize,
    n: usize,
    count: usize,
    row: usize,
) -> Result<(), Refused>
    requires { (place < 4294967296) × (n < 4294967296) }
    ensures { Judged source.now kind place n count row result }
{
    if kind < Kind::String as usize {
        scalar(source, kind, place, n, count, row)
    } else {
        text(source, kind, place, n, count, row)
    }
}

// A struct's row by its presence bytes: n fields, of which those with bits in `required` have to be there, and a count of the known ones.
// The answer is the known fields' bits, or the first fault. The root's unknown bits are left out, an inner struct's are refused.
pub fn struct_bits(
    source: &[u8],
    required: u64,
    n: usize,
    place: usize,
    count: usize,
    inner: bool,
    row: usize,
) -> Result<u64, Refused>
    requires { (n ≤ 64) × (place < 4294967296) }
    ensures { HeadedBy source.now required n place count row inner result }
{
    let size = (n + bitmap::SPARE_BITS) / bitmap::BYTE_BITS;
    if source.len() < place + size {
        return Refusal::Outside.at(row);
    }
    let b = bitmap::read(source, place, n);
    if required & b.bits != required {
        return Refusal::AbsentField.at(row);
    }
    if inner & (b.bits != b.known) {
        return Refusal::Sheet.at(row);
    }
    if count != b.ones as usize {
        return Refusal::Sheet.at(row);
    }
    Ok(b.known)
}

// A row of a value of type ty, which is of a kind from 1 to 13: where its content stands, or the row's first fault. It needs no table.
// A walk that does not judge knows that the row is right.
pub fn leaf_row(
    sheet: &[u32],
    source: &[u8],
    kind: usize,
    ty: u32,
    row: usize,
    judging: bool,
) -> Result<Placed, Refused>
    requires { judging ≡ false → Accepted (row_says source.now ty (leaf_shape kind) (rows_at sheet.now row)) }
    ensures { LeafRow sheet.now source.now kind ty row result }
{
    if !judging {
        let k = format::ROW_CELLS * row;
        return Ok(Placed {
            place: wide(sheet[k + 1]),
            length: wide(sheet[k + 2]),
        });
    }
    let says = row_due(sheet, row, ty)?;
    content(source, kind, says.place, says.length, says.count, row)?;
    Ok(Placed {
        place: says.place,
        length: says.length,
    })
}
