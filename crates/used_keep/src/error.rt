//! Why nothing was kept.
use thiserror::Error;

/// Why there is no design with nothing but the top and the cells below it.
#[derive(Clone, Copy, Debug, PartialEq, Eq, Error)]
pub enum KeepError {
    /// The design has no top.
    #[error("no top")]
    NoTop,
    /// An allocation was refused.
    #[error("no memory")]
    NoMemory,
}
