//! How large a script may be, and how many run beside each other.

/// The most bytes that a script may have, and the most lines.
pub const MOST_SCRIPT_BYTES: u64 = 262_144;

/// The most scripts of a run.
pub const MOST_SCRIPTS: usize = 64;
