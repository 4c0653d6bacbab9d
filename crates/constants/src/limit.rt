// The limits.

// Bytes of a payload.
pub const PAYLOAD: usize = 16384;

// Levels of values in each other, the root counted.
pub const DEPTH: usize = 16;

// Levels below the root.
pub const BELOW_ROOT: usize = DEPTH - 1;

// Pairs of a map.
pub const PAIRS: usize = 64;

// Fields of a struct.
pub const STRUCT_FIELDS: u32 = 64;

// Types of a schema file.
pub const TYPES: usize = 256;

// Fields of a schema file.
pub const FIELDS: usize = 2048;

// Methods of a schema file.
pub const METHODS: usize = 256;

// Forms of a method.
pub const FORMS: u32 = 16;

// The last of them.
pub const LAST_FORM: u32 = FORMS - 1;

// Bytes of a record, or of a schema file that is listed.
pub const FILE: usize = 65536;

// Cells of the sheet that a record is run with.
pub const SHEET: usize = 16384;

// Open calls.
pub const CALLS: usize = 128;

// Elements of a call's stream.
pub const ELEMENTS: u16 = 65535;

// A figure of a tally row.
pub const TALLY: u32 = 4294967295;
