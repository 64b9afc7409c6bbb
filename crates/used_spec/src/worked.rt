//! Worked designs, computed on the definitions.
ghost use Rattle.used_spec.specs.ExampleUsed.{LargeIsUsed, SmallIsUsed, ToplessStays};

/// A cell that nothing uses has no use, and is left out.
pub fn small_is_used()
    ensures { SmallIsUsed }
{}

/// Uses in one contents, from other libraries and from cells that nothing uses; what only such a cell uses is left out with it, and
/// ids are numbered anew.
pub fn large_is_used()
    ensures { LargeIsUsed }
{}

/// A design without a top is left as it is.
pub fn topless_stays()
    ensures { ToplessStays }
{}
