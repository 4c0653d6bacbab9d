// Where the fields of a frame stand. A field ends where the next begins; the payload's length stands at `constants::format::HEADER`.
pub const MAGIC_AT: usize = 0;

pub const MAGIC_2_AT: usize = 1;

pub const VERSION_AT: usize = 2;

pub const KIND_AT: usize = 3;

pub const FLAGS_AT: usize = 4;

pub const PACKAGE_AT: usize = 5;

pub const SERVICE_AT: usize = 9;

pub const METHOD_AT: usize = 13;

pub const CORRELATION_AT: usize = 17;

// The bytes of a package's, a service's or a method's number, and of a correlation.
pub const IDENTIFIER_BYTES: usize = 4;

pub const CORRELATION_BYTES: usize = 8;
