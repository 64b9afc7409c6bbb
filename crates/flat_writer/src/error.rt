//! Why what a flattening comes to was not written to its end.
ghost use Rattle.std.specs.Prelude.{◌≡◌};
ghost use Rattle.flat_writer.specs.Outcome.{outcome_of};

use netdb_outside::WriteError;
use thiserror::Error;

/// Why what the items of a design come to was not written to its end: their lines, made by one worker or by many, the pin table, or the
/// findings of an electrical check. All calls that write one of these have this error.
#[derive(Clone, Copy, Debug, PartialEq, Eq, Error)]
pub enum FlatError {
    /// The design has no top.
    #[error("no top")]
    NoTop,
    /// The sink had a fault.
    #[error("write fault")]
    WriteFault,
    /// There was no memory, here or in the sink.
    #[error("no memory")]
    NoMemory,
}

/// What writing the lines or rows of a design with a top came to.
pub fn outcome(written: Result<(), WriteError>) -> Result<(), FlatError>
    ensures { result ≡ outcome_of written }
{
    match written {
        Ok(()) => Ok(()),
        Err(WriteError::WriteFault) => Err(FlatError::WriteFault),
        Err(WriteError::NoMemory) => Err(FlatError::NoMemory),
    }
}
