// The rows of a good table by number, for callers that hold a slice. Past the last row there is one of zeros.
ghost use Rattle.std.specs.Prelude.{◌≡◌, ◌<◌, length};
ghost use Rattle.schema.specs.Table.{row_at};
ghost use Rattle.schema.specs.File.{table_of};
ghost use Rattle.schema.specs.Check.{IsGood, field_row_of};

use crate::good::Schema;
use schema::{Field, TypeRow};

pub fn type_row(s: &[u8], t: usize) -> TypeRow
    requires { IsGood s.now }
    ensures { result ≡ row_at (table_of s.now) t }
{
    Schema::of_good(s).type_row(t)
}

// The row of a type that the table has, found without the layout.
pub fn known_row(s: &[u8], t: usize) -> TypeRow
    requires { IsGood s.now × (0 < (row_at (table_of s.now) t).kind) }
    ensures { result ≡ row_at (table_of s.now) t }
{
    Schema::of_good(s).known_row(t)
}

pub fn field(s: &[u8], i: usize) -> Field
    requires { IsGood s.now }
    ensures { result ≡ field_row_of (table_of s.now) i }
{
    Schema::of_good(s).field(i)
}

pub fn method_count(s: &[u8]) -> usize
    requires { IsGood s.now }
    ensures { result ≡ length (table_of s.now).methods }
{
    Schema::of_good(s).method_count()
}
