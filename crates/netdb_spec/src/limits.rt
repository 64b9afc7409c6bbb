//! How large a report may be, and how many workers there are.

/// The most bytes that a report may have that is checked.
pub const MOST_REPORT_BYTES: u64 = 134_217_728;

/// The most workers of a flattening.
pub const MOST_WORKERS: u32 = 64;
