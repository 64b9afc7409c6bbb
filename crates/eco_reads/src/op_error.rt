//! `OpError`: why an operation was not done.
ghost use Rattle.std.specs.Prelude.{◌≡◌};
ghost use Rattle.eco_reads.specs.declared.op_error.OpError.TheVariants.{NoMemory, Refused};

use edit_spec::Reply;
use netlist_schema::NoMemory;
use std::alloc::{AllocError, AllocFailed};

/// Why an operation was not done.
#[derive(Debug, Drop)]
pub enum OpError {
    /// A rule of the operation refuses it, by this reply.
    Refused(Reply),
    /// An allocation was refused.
    NoMemory,
}

impl From<NoMemory> for OpError {
    ghost from_gives = { λ _ error. error ≡ NoMemory };

    fn from(_error: NoMemory) -> OpError {
        OpError::NoMemory
    }
}

impl From<AllocError> for OpError {
    ghost from_gives = { λ _ error. error ≡ NoMemory };

    fn from(_error: AllocError) -> OpError {
        OpError::NoMemory
    }
}

impl<T: Drop> From<AllocFailed<T>> for OpError {
    ghost from_gives = { λ _ error. error ≡ NoMemory };

    fn from(_error: AllocFailed<T>) -> OpError {
        OpError::NoMemory
    }
}

impl From<Reply> for OpError {
    ghost from_gives = { λ reply error. error ≡ Refused reply };

    fn from(reply: Reply) -> OpError {
        OpError::Refused(reply)
    }
}
