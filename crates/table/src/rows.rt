// The entries of a file by number, where its layout is at hand. Past the last there is an entry of zeros.
ghost use Rattle.std.specs.Prelude.{◌≡◌, true};
ghost use Rattle.schema.specs.Table.{row_at};
ghost use Rattle.schema.specs.File.{Laid, shaped, table_of};
ghost use Rattle.schema.specs.Check.{field_row_of, method_row, named, find_among};

use crate::file::{FIELD, METHOD, TYPE, field_at, layout_of, method_at, type_at};
use crate::search::lowest;
use schema::{Field, Layout, Method, TypeRow};

// A file of the right shape, and where its sections lie.
#[derive(Clone, Copy)]
pub struct Sections<'a> {
    pub bytes: &'a [u8],
    pub layout: Layout,
    ghost laid: { Laid bytes.now layout },
}

// The three identifiers by which a method is found.
#[derive(Clone, Copy, PartialEq, Eq)]
pub struct Names {
    pub package: u32,
    pub service: u32,
    pub method: u32,
}

impl Names {
    pub fn of(m: Method) -> Names
        ensures { result ≡ record { «package» = m.«package»; service = m.service; method = m.method } }
    {
        Names {
            package: m.package,
            service: m.service,
            method: m.method,
        }
    }
}

impl<'a> Sections<'a> {
    pub fn of(bytes: &'a [u8]) -> Sections<'a>
        requires { shaped bytes.now ≡ true }
        ensures { result.bytes ≡ bytes.entry }
    {
        Sections {
            bytes,
            layout: layout_of(bytes),
        }
    }

    pub fn row(&self, t: usize) -> TypeRow
        ensures { result ≡ row_at (table_of self.now.bytes.now) t }
    {
        row(self.bytes, self.layout, t)
    }

    pub fn field(&self, i: usize) -> Field
        ensures { result ≡ field_row_of (table_of self.now.bytes.now) i }
    {
        field_row(self.bytes, self.layout, i)
    }

    pub fn method(&self, i: usize) -> Method
        ensures { result ≡ method_row (table_of self.now.bytes.now) i }
    {
        method_row(self.bytes, self.layout, i)
    }

    // The first of the first n methods with these three identifiers.
    pub fn find_among(&self, n: usize, names: Names) -> Option<usize>
        ensures { result ≡ find_among (table_of self.now.bytes.now) n names.«package» names.service names.method }
    {
        lowest(n, |i| Names::of(self.method(i)) == names)
    }
}

#[tactic(auto, using(crate::proofs::Files::reach, crate::proofs::Files::laid_row, crate::proofs::Files::laid_no_row))]
pub fn row(s: &[u8], l: Layout, t: usize) -> TypeRow
    requires { Laid s.now l }
    ensures { result ≡ row_at (table_of s.now) t }
{
    if t < l.types {
        type_at(s, TYPE * t)
    } else {
        TypeRow {
            kind: 0,
            a: 0,
            b: 0,
        }
    }
}

#[tactic(auto, using(crate::proofs::Files::reach, crate::proofs::Files::laid_field, crate::proofs::Files::laid_no_field))]
pub fn field_row(s: &[u8], l: Layout, i: usize) -> Field
    requires { Laid s.now l }
    ensures { result ≡ field_row_of (table_of s.now) i }
{
    if i < l.fields {
        field_at(s, l.fields_at + FIELD * i)
    } else {
        Field { ty: 0, optional: 0 }
    }
}

#[tactic(auto, using(crate::proofs::Files::reach, crate::proofs::Files::laid_method, crate::proofs::Files::laid_no_method))]
pub fn method_row(s: &[u8], l: Layout, i: usize) -> Method
    requires { Laid s.now l }
    ensures { result ≡ method_row (table_of s.now) i }
{
    if i < l.methods {
        method_at(s, l.methods_at + METHOD * i)
    } else {
        Method {
            package: 0,
            service: 0,
            method: 0,
            form: 0,
            input: 0,
            output: 0,
            input_stream: 0,
            output_stream: 0,
        }
    }
}

// Whether the method has these three identifiers.
// Three numbers, as a frame's header has them: a caller would build a `Names` for one call.
pub fn is_named(m: Method, package: u32, service: u32, method: u32) -> bool
    ensures { result ≡ named «package» service method m }
{
    Names::of(m)
        == Names {
            package,
            service,
            method,
        }
}
