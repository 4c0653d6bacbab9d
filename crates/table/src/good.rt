// A schema file that is known to be good: the check is made once, and no contract repeats the fact.
ghost use Rattle.std.specs.Prelude.{◌≡◌, ◌<◌, length, IfOk};
ghost use Rattle.schema.specs.Table.{row_at};
ghost use Rattle.schema.specs.File.{Laid, table_of};
ghost use Rattle.schema.specs.Check.{IsGood, field_row_of, method_row, find_method, checked};
ghost use Rattle.table.specs.Told.{told};

use crate::checking::check;
use crate::file::{TYPE, layout_of, type_at};
use crate::rows::{Names, Sections};
use constants::refusal::Refused;
use schema::{Field, Layout, Method, TypeRow};

#[derive(Clone, Copy)]
pub struct Schema<'a> {
    pub bytes: &'a [u8],
    ghost good: { IsGood bytes.now },
}

impl<'a> Schema<'a> {
    // The check of a file, whatever its bytes.
    pub fn check(bytes: &'a [u8]) -> Result<Schema<'a>, Refused>
        ensures verdict { told result ≡ checked bytes.now }
        ensures same { IfOk result (λ s. s.bytes ≡ bytes.entry) }
    {
        check(bytes)?;
        Ok(Schema { bytes })
    }

    // A file that was found good before.
    pub fn of_good(bytes: &'a [u8]) -> Schema<'a>
        requires { IsGood bytes.now }
        ensures { result.bytes ≡ bytes.entry }
    {
        Schema { bytes }
    }

    // Where its sections lie.
    pub fn layout(&self) -> Layout
        ensures { Laid self.now.bytes.now result }
    {
        layout_of(self.bytes)
    }

    // The file with its layout at hand.
    pub fn sections(&self) -> Sections<'a>
        ensures { result.bytes ≡ self.now.bytes }
    {
        Sections::of(self.bytes)
    }

    pub fn type_row(&self, t: usize) -> TypeRow
        ensures { result ≡ row_at (table_of self.now.bytes.now) t }
    {
        self.sections().row(t)
    }

    // The row of a type that the table has, found without the layout.
    pub fn known_row(&self, t: usize) -> TypeRow
        requires { 0 < (row_at (table_of self.now.bytes.now) t).kind }
        ensures { result ≡ row_at (table_of self.now.bytes.now) t }
    {
        type_at(self.bytes, TYPE * t)
    }

    pub fn field(&self, i: usize) -> Field
        ensures { result ≡ field_row_of (table_of self.now.bytes.now) i }
    {
        self.sections().field(i)
    }

    #[tactic(auto, using(crate::proofs::Files::laid_methods))]
    pub fn method_count(&self) -> usize
        ensures { result ≡ length (table_of self.now.bytes.now).methods }
    {
        self.layout().methods
    }

    pub fn method(&self, i: usize) -> Method
        ensures { result ≡ method_row (table_of self.now.bytes.now) i }
    {
        self.sections().method(i)
    }

    // The first method with these three identifiers.
    // It takes three numbers, as a frame's header has them: a caller would build a `Names` for one call.
    pub fn find_method(&self, package: u32, service: u32, method: u32) -> Option<usize>
        ensures { result ≡ find_method (table_of self.now.bytes.now) «package» service method }
    {
        let names = Names {
            package,
            service,
            method,
        };
        let file = self.sections();
        file.find_among(file.layout.methods, names)
    }
}
