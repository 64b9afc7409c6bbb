//! How many items are made into lines at once.
ghost use Rattle.std.specs.Prelude.{◌≡◌, ◌<◌, ◌≤◌, ◌+◌, ◌*◌, ◌/◌, false, max, min, true};
ghost use Rattle.par_flat.specs.declared.limits.TheConstants.{MOST_WORKERS};

use crate::desks::Most;

/// How many items are made into lines in the first round, where so many are there.
pub const FIRST_AT_ONCE: u64 = 131_072;

/// The most items that are made into lines in one round, but for those by which equal shares are rounded up.
pub const MOST_AT_ONCE: u64 = 1_048_576;

/// The most bytes of text that are made in one round, but for a line of each worker. The texts of two rounds stand in memory.
pub const MOST_BYTES: usize = 16_777_216;

/// The most items of a worker for which no thread is started: to start and to join one takes as long as some thousand lines.
pub const FEW_ITEMS: u64 = 1_024;

/// Which items are made into lines at once: those of each worker, where so many were written before; and whether each worker makes its
/// lines in a thread of its own, or all of them one behind the other.
#[derive(Clone, Copy)]
pub struct Round {
    pub workers: u32,
    pub threads: bool,
    pub first: u64,
    pub most: Most,
}

/// Whether so many items are so few for each worker that one thread makes their lines sooner than several.
pub fn are_few(workers: u32, count: u64) -> bool {
    count <= u64::from(workers) * FEW_ITEMS
}

/// What each worker makes at most, where all of them make so many items: an even share of these, and of the bytes.
pub fn share_of(workers: u32, left: u64) -> Most
    requires { (1 ≤ workers) × (workers ≤ MOST_WORKERS) }
    ensures all { left ≤ workers * result.items }
    ensures even { workers * result.items < left + workers }
    ensures bytes { result.bytes ≡ MOST_BYTES / workers }
{
    Most {
        items: left.div_ceil(u64::from(workers)),
        bytes: MOST_BYTES / workers as usize,
    }
}

/// How many items are made at once behind a round of so many: half as many, but one at least, where a worker stopped early, since its text
/// was too long; as many where all of the text was long; else twice as many.
pub fn next_at_once(at_once: u64, whole: bool, long: bool) -> u64
    requires { (1 ≤ at_once) × (at_once ≤ MOST_AT_ONCE) }
    ensures early { whole ≡ false → result ≡ max (at_once / 2) 1 }
    ensures long { whole ≡ true → long ≡ true → result ≡ at_once }
    ensures short { whole ≡ true → long ≡ false → result ≡ min (at_once * 2) MOST_AT_ONCE }
    ensures some { 1 ≤ result }
    ensures few { result ≤ MOST_AT_ONCE }
{
    if !whole {
        return (at_once / 2).max(1);
    }
    if long {
        return at_once;
    }
    (at_once * 2).min(MOST_AT_ONCE)
}
