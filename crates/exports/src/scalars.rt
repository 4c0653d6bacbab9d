// One row over its bytes as a scalar.
ghost use Rattle.std.specs.Prelude.{◌≡◌};
ghost use Rattle.scalar.specs.Scalar.{scalar_by, scalar_number};
ghost use Rattle.cells.specs.Cells.{stored};
ghost use Rattle.cells.specs.Scalars.{scalar_cells};
ghost use Rattle.exports.specs.Answers.{sheet_row};

use crate::numbers::number;
use cells::scalars::scalar_cells;
use cells::store;
use value::Row;

// One row over its bytes as a value. answer: place, the case (1 truth value, 2 signed, 3 unsigned, 4 float32, 5 float64, 6 span) and its two numbers.
pub fn arf_scalar(
    schema: &[u8],
    ty: u32,
    place: u32,
    length: u32,
    count: u32,
    bytes: &[u8],
    answer: &mut [u64],
) -> u32
    ensures value { result ≡ scalar_number (scalar_by schema.now (sheet_row ty place length count) bytes.now) }
    ensures answer_after { answer.new ≡ stored answer.old (scalar_cells (scalar_by schema.now (sheet_row ty place length count) bytes.now)) }
{
    let row = Row {
        ty,
        place,
        length,
        count,
    };
    let a = arf::scalar(schema, row, bytes);
    store(answer, &scalar_cells(a));
    number(&a)
}
