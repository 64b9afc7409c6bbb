//! How many workers there may be.

/// The most workers beside each other.
pub const MOST_WORKERS: u32 = 64;
