//! How large a generated design may be.

/// The largest size of a generated design, and of its run.
pub const MOST_SIZE: u32 = 4_096;
