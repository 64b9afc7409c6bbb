//! How large a design, its file and the history of a database may be.

/// The most libraries of a design.
pub const MOST_LIBS: usize = 1_024;

/// The most cells of a library.
pub const MOST_CELLS: usize = 65_536;

/// The most ports of a cell.
pub const MOST_PORTS: usize = 65_536;

/// The most bits of a port.
pub const MOST_WIDTH: u32 = 65_536;

/// The most bits of all ports of a cell together.
pub const MOST_BITS: u64 = 1_048_576;

/// The most instances of a cell.
pub const MOST_INSTS: usize = 1_048_576;

/// The most nets of a cell.
pub const MOST_NETS: usize = 1_048_576;

/// The most ends of all nets of a cell together.
pub const MOST_ENDS: usize = 4_194_304;

/// The most notes of a design.
pub const MOST_NOTES: usize = 1_048_576;

/// The deepest level of forms in a design file, whose own form is at level 1.
pub const MOST_LEVELS: usize = 256;

/// The most bytes of a design file.
pub const MOST_FILE_BYTES: u64 = 134_217_728;

/// The most events of a history, with a place kept for the release of each live pin.
pub const MOST_EVENTS: u64 = 4_194_304;
