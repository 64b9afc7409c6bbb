//! Which answers are events of the log.
ghost use Rattle.std.specs.Prelude.{◌≡◌};
ghost use Rattle.db_share.specs.Inside.{is_commit_event, is_pin_at_event};

use db_core::{CommitError, Pin, PinAtError, Tx};

/// Whether the pin of a version is an event: it is one, or the version is not there or no longer.
pub(crate) fn pin_at_adds(pinned: &Result<Pin, PinAtError>) -> bool
    ensures { result ≡ is_pin_at_event pinned.now }
{
    match pinned {
        Ok(_) => true,
        Err(PinAtError::NoVersion { .. } | PinAtError::Gone { .. }) => true,
        Err(PinAtError::LogFull | PinAtError::NoMemory) => false,
    }
}

/// Whether a commit is an event: it made a version, or it conflicts.
pub(crate) fn commit_adds(committed: &Result<(u64, Pin), (CommitError, Tx)>) -> bool
    ensures { result ≡ is_commit_event committed.now }
{
    match committed {
        Ok(_) => true,
        Err((CommitError::Conflict { .. }, _)) => true,
        Err((CommitError::LogFull | CommitError::NoMemory, _)) => false,
    }
}
