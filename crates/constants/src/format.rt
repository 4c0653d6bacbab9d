// What is fixed in a frame, in a file and on a sheet.

// The first byte of a frame.
pub const MAGIC: u8 = 0xAF;

// Its second byte.
pub const MAGIC_2: u8 = 0x01;

// The version.
pub const VERSION: u8 = 1;

// The flags.
pub const FLAGS: u8 = 0;

// The bytes before the payload's length.
pub const HEADER: usize = 25;

// The layout number of a schema file and of an index.
pub const LAYOUT: u32 = 1;

// In place of a type, where there is none.
pub const NO_TYPE: u32 = 4294967295;

// Cells of a row of the sheet.
pub const ROW_CELLS: usize = 4;
