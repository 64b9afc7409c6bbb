//! Why bytes were not written.
use thiserror::Error;

/// Why bytes were not written to their end.
#[derive(Clone, Copy, Debug, PartialEq, Eq, Error)]
pub enum WriteError {
    /// The sink had a fault.
    #[error("write fault")]
    WriteFault,
    /// There was no memory, here or in the sink.
    #[error("no memory")]
    NoMemory,
}
