// What the kind of a type row says, whatever the row's other numbers.
ghost use Rattle.std.specs.Prelude.{◌≡◌, ◌<◌, ◌≤◌};
ghost use Rattle.schema.specs.Table.{width};

// The width in bytes of a scalar of a kind. The widths stand in one number, four bits a kind, the lowest for kind 0: a constant array would be laid out anew
// at each call.
// It takes a number and no `Kind`: what it promises holds for numbers, and docs/PROVING.md names it.
pub fn width_of(kind: usize) -> usize
    requires { (0 < kind) × (kind < 12) }
    ensures { (result ≡ width kind) × (0 < result) × (result ≤ 8) }
{
    (0x8484_2184_2110 >> (4 * kind)) % 16
}
