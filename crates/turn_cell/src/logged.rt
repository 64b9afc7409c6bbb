//! Values that keep a list of what was done to them.
ghost use Rattle.std.specs.Prelude.{ℕ, List};

/// A value that has a base, which stays, and a list of entries, which grows from nothing. Base and entries are read by
/// contracts alone.
pub trait Logged: Drop {
    /// What the list begins from.
    type Base;

    /// One thing that was done, by one seat.
    type Entry;

    ghost base: { Self → Self.Base };

    ghost entries: { Self → List Self.Entry };

    // The number of the seat that made the entry.
    ghost made_by: { Self.Entry → ℕ };
}
