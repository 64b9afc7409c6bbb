//! `Told`: a status with a number.
ghost use Rattle.std.specs.Prelude.{◌≡◌};

use crate::status::Status;

/// The status of an answer, and the number that it gives: a version, or how many were dropped; 0 where it gives none.
#[derive(Clone, Copy, Debug, PartialEq, Eq)]
pub struct Told {
    pub status: Status,
    pub number: u64,
}

impl Told {
    /// A status that gives no number. Takes no memory.
    pub fn only(status: Status) -> Told
        ensures { result ≡ record { status = status; number = 0 } }
    {
        Told { status, number: 0 }
    }

    /// A call that was done, with its number. Takes no memory.
    pub fn done(number: u64) -> Told
        ensures { result ≡ record { status = Status.Done; number = number } }
    {
        Told {
            status: Status::Done,
            number,
        }
    }
}
