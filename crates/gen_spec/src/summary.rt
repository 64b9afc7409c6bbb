//! What is told of a run.

/// How many items of each kind a flattening has, and how many properties its occurrences have together.
#[derive(Clone, Copy, Debug, PartialEq, Eq)]
pub struct Counts {
    pub instances: u64,
    pub nets: u64,
    pub pins: u64,
    pub properties: u64,
}

/// A version, and what its flattening has.
#[derive(Clone, Copy, Debug, PartialEq, Eq)]
pub struct Walked {
    pub version: u64,
    pub counts: Counts,
}

/// What is told of a run: its number, the numbers of accepted commits, of dropped versions and of events, and the walks over the
/// first version and the last.
#[derive(Clone, Copy, Debug, PartialEq, Eq)]
pub struct Summary {
    pub number: u32,
    pub commits: u64,
    pub collected: u64,
    pub events: u64,
    pub first: Walked,
    pub last: Walked,
}
