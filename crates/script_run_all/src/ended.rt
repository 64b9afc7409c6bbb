//! How a run ended.

/// How a run of scripts ended.
#[derive(Clone, Copy, Debug, PartialEq, Eq)]
pub enum RunEnd {
    /// Each script ended by its last line.
    Whole,
    /// Some script ended since the log was full.
    LogFull,
}
