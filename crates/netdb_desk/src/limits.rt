//! How many seats a desk has, and how long a line may be.

/// The number of seats. They count from 0.
pub const SEATS: u32 = 64;

/// The most bytes of a line.
pub const MOST_LINE_BYTES: usize = 200_000;
