// Where the sections of a schema file lie, and the entries at a place of it.
ghost use Rattle.std.specs.Prelude.{◌≡◌, ◌+◌, ◌≤◌, true, length};
ghost use Rattle.schema.specs.File.{cell, type_at, field_at, method_at, shaped, layout_of};

use constants::format;
use schema::{Field, Layout, Method, TypeRow};

// Bytes of a type row, of a field, of a method and of the trailer.
pub const TYPE: usize = 12;

pub const FIELD: usize = 8;

pub const METHOD: usize = 32;

const TRAILER: usize = 16;

// The 32-bit number at a place.
#[tactic(auto, unfolding(schema::specs::File::cell))]
pub fn cell(s: &[u8], at: usize) -> u32
    requires { at + 4 ≤ length s.now }
    ensures { result ≡ cell s.now at }
{
    wire::little::u32_at(s, at)
}

pub fn type_at(s: &[u8], at: usize) -> TypeRow
    requires { at + 12 ≤ length s.now }
    ensures { result ≡ type_at s.now at }
{
    TypeRow {
        kind: cell(s, at),
        a: cell(s, at + 4),
        b: cell(s, at + 8),
    }
}

pub fn field_at(s: &[u8], at: usize) -> Field
    requires { at + 8 ≤ length s.now }
    ensures { result ≡ field_at s.now at }
{
    Field {
        ty: cell(s, at),
        optional: cell(s, at + 4),
    }
}

pub fn method_at(s: &[u8], at: usize) -> Method
    requires { at + 32 ≤ length s.now }
    ensures { result ≡ method_at s.now at }
{
    Method {
        package: cell(s, at),
        service: cell(s, at + 4),
        method: cell(s, at + 8),
        form: cell(s, at + 12),
        input: cell(s, at + 16),
        output: cell(s, at + 20),
        input_stream: cell(s, at + 24),
        output_stream: cell(s, at + 28),
    }
}

// Whether the file has the shape of a schema file.
#[tactic(auto, unfolding(schema::specs::File::shaped))]
pub fn is_shaped(s: &[u8]) -> bool
    ensures { result ≡ shaped s.now }
{
    if s.len() < TRAILER {
        return false;
    }
    let trailer = s.len() - TRAILER;
    let fields = cell(s, trailer) as usize;
    let methods = cell(s, trailer + 4) as usize;
    let own = cell(s, trailer + 8) as usize;
    let number = cell(s, trailer + 12);
    if methods < fields {
        return false;
    }
    if trailer < methods {
        return false;
    }
    (number == format::LAYOUT)
        & ((own == trailer)
            & ((fields % TYPE == 0)
                & (((methods - fields) % FIELD == 0) & ((trailer - methods) % METHOD == 0))))
}

// The layout of a file that has the shape.
#[tactic(auto, using(schema::proofs::Files::tests_of), unfolding(schema::specs::File::layout_of))]
pub fn layout_of(s: &[u8]) -> Layout
    requires { shaped s.now ≡ true }
    ensures { result ≡ layout_of s.now }
{
    let trailer = s.len() - TRAILER;
    let fields_at = cell(s, trailer) as usize;
    let methods_at = cell(s, trailer + 4) as usize;
    Layout {
        types: fields_at / TYPE,
        fields: (methods_at - fields_at) / FIELD,
        methods: (trailer - methods_at) / METHOD,
        fields_at: fields_at,
        methods_at: methods_at,
    }
}
