//! Why a tree means no design.
ghost use Rattle.std.specs.Prelude.{◌≡◌};
ghost use Rattle.edif_spec.specs.declared.fault.Kind.TheVariants.{BadForm};
ghost use Rattle.edif_spec.specs.declared.fault.MeaningFault.TheVariants.{At, Clash, OverLimit};
ghost use Rattle.edif_parts.specs.declared.error.EdifError.TheVariants.{Fault, NoMemory};

use edif_spec::{ClashKind, Kind, MeaningFault};
use netlist_schema::NoMemory;
use std::alloc::{AllocError, AllocFailed};

/// What ended the reading of a tree.
#[derive(Debug, PartialEq, Eq, Drop)]
pub enum EdifError {
    /// A fault that stands in the tree.
    Fault(MeaningFault),
    /// An allocation was refused.
    NoMemory,
}

impl From<NoMemory> for EdifError {
    ghost from_gives = { λ _ e. e ≡ NoMemory };

    fn from(_e: NoMemory) -> EdifError {
        EdifError::NoMemory
    }
}

impl From<AllocError> for EdifError {
    ghost from_gives = { λ _ e. e ≡ NoMemory };

    fn from(_e: AllocError) -> EdifError {
        EdifError::NoMemory
    }
}

impl<T: Drop> From<AllocFailed<T>> for EdifError {
    ghost from_gives = { λ _ e. e ≡ NoMemory };

    fn from(_e: AllocFailed<T>) -> EdifError {
        EdifError::NoMemory
    }
}

/// A fault of this kind at a place.
pub fn fault_at(kind: Kind, place: u64) -> EdifError
    ensures { result ≡ Fault (At kind place) }
{
    EdifError::Fault(MeaningFault::At { kind, place })
}

/// A bad form at a place.
pub fn bad_form(place: u64) -> EdifError
    ensures { result ≡ Fault (At BadForm place) }
{
    fault_at(Kind::BadForm, place)
}

/// A fault of this kind at a place, because of a form at an earlier one.
pub fn clash(kind: ClashKind, place: u64, earlier: u64) -> EdifError
    ensures { result ≡ Fault (Clash kind place earlier) }
{
    EdifError::Fault(MeaningFault::Clash {
        kind,
        place,
        earlier,
    })
}

/// The fault of a form at a place, the first one beyond a limit.
pub fn over_limit(limit: u64, place: u64) -> EdifError
    ensures { result ≡ Fault (OverLimit limit place) }
{
    EdifError::Fault(MeaningFault::OverLimit { limit, place })
}
