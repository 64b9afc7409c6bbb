//! Want of memory.
use std::alloc::{AllocError, AllocFailed};
use thiserror::Error;

/// An allocation was refused. It is the whole error of calls that can fail in no other way; the call's clauses say what
/// stands after it.
#[derive(Clone, Copy, Debug, PartialEq, Eq, Error)]
#[error("no memory")]
pub struct NoMemory;

impl From<AllocError> for NoMemory {
    fn from(_e: AllocError) -> NoMemory {
        NoMemory
    }
}

impl<T: Drop> From<AllocFailed<T>> for NoMemory {
    fn from(_e: AllocFailed<T>) -> NoMemory {
        NoMemory
    }
}
