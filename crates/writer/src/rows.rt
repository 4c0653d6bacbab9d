// What a walk reads: the rows of a sheet over their bytes, by a table that is known to be good. It is lent on by reference; by value it would be copied at each call.
ghost use Rattle.std.specs.Prelude.{◌≡◌, false};
ghost use Rattle.parse.specs.Reader.{Accepted};
ghost use Rattle.walks.specs.Shape.{leaf_shape};
ghost use Rattle.writer.specs.Leaf.{rows_at, row_says, LeafRow};

use crate::leaf::{Placed, leaf_row};
use constants::refusal::Refused;
use table::good::Schema;

#[derive(Clone, Copy)]
pub struct Rows<'a> {
    pub schema: Schema<'a>,
    pub sheet: &'a [u32],
    pub source: &'a [u8],
    // A walk that does not judge knows that the rows are right.
    pub judging: bool,
}

impl<'a> Rows<'a> {
    // A row of a value of type ty, which is of a kind from 1 to 13: the wide `leaf_row` over what the walk is lent.
    pub(crate) fn leaf_row(&self, kind: usize, ty: u32, row: usize) -> Result<Placed, Refused>
        requires { self.now.judging ≡ false → Accepted (row_says self.now.source.now ty (leaf_shape kind) (rows_at self.now.sheet.now row)) }
        ensures { LeafRow self.now.sheet.now self.now.source.now kind ty row result }
    {
        leaf_row(self.sheet, self.source, kind, ty, row, self.judging)
    }
}
