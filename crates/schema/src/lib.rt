// The schema table: a file of type rows, field entries, method entries and a trailer, all little-endian 32-bit numbers. The definitions stand in specs/,
// their laws in proofs/, and the code in the crate `table`.
#![tactic(auto)]

// A type row: the kind, and the two numbers that its kind uses. The kind is a number and not a `Kind`: a file may hold any, and its row is read before it is
// judged (`Rattle.schema.specs.Check.good_row`).
#[derive(Clone, Copy)]
pub struct TypeRow {
    pub kind: u32,
    pub a: u32,
    pub b: u32,
}

// A field entry: its type number, and 1 where the field is optional, else 0. It is a number and not a flag: a file may hold any
// (`Rattle.schema.specs.Check.good_field`).
#[derive(Clone, Copy, PartialEq, Eq)]
pub struct Field {
    pub ty: u32,
    pub optional: u32,
}

// A method entry: three identifiers, the form, and the types of input, output, input stream and output stream.
#[derive(Clone, Copy, PartialEq, Eq)]
pub struct Method {
    pub package: u32,
    pub service: u32,
    pub method: u32,
    pub form: u32,
    pub input: u32,
    pub output: u32,
    pub input_stream: u32,
    pub output_stream: u32,
}

// Where the sections of a file lie: how many entries each has, and where fields and methods start. Types start at 0.
#[derive(Clone, Copy)]
pub struct Layout {
    pub types: usize,
    pub fields: usize,
    pub methods: usize,
    pub fields_at: usize,
    pub methods_at: usize,
}
