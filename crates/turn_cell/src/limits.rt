//! How many callers take turns.

/// The most seats at a turn.
pub const MOST_SEATS: u32 = 64;
