//! Why a call is refused.
use netlist_schema::Object;
use thiserror::Error;

/// Why a pin is refused. Neither is an event of the history.
#[derive(Clone, Copy, Debug, PartialEq, Eq, Error)]
pub enum PinError {
    /// The history has no room for the pin and its release.
    #[error("log full")]
    LogFull,
    #[error("no memory")]
    NoMemory,
}

/// Why a pin of a version is refused. `NoVersion` and `Gone` are events of the history.
#[derive(Clone, Copy, Debug, PartialEq, Eq, Error)]
pub enum PinAtError {
    /// The history has no room for the pin and its release.
    #[error("log full")]
    LogFull,
    /// There is no such version yet. The last one has this number.
    #[error("no such version, the last one is {head}")]
    NoVersion { head: u64 },
    /// The version is kept no longer. The least one that is kept has this number.
    #[error("no longer kept, the least that is kept is {least}")]
    Gone { least: u64 },
    #[error("no memory")]
    NoMemory,
}

/// Why a collect is refused. Neither is an event of the history.
#[derive(Clone, Copy, Debug, PartialEq, Eq, Error)]
pub enum CollectError {
    /// The history has no room for the event.
    #[error("log full")]
    LogFull,
    #[error("no memory")]
    NoMemory,
}

/// Why a commit is refused. `Conflict` is an event of the history.
#[derive(Clone, Copy, Debug, PartialEq, Eq, Error)]
pub enum CommitError {
    /// The history has no room for the event.
    #[error("log full")]
    LogFull,
    /// Commits after the pinned version wrote what the operations read: the least such object, and the last commit that
    /// wrote it, by the version that it made.
    #[error("conflict with version {version}")]
    Conflict { object: Object, version: u64 },
    #[error("no memory")]
    NoMemory,
}
