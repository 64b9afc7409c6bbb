//! The version that a commit makes.
ghost use Rattle.std.specs.Prelude.{◌≡◌, IfOk};
ghost use Rattle.edit_rules_spec.specs.Objects.{AgreesOn, Grown};
ghost use Rattle.edit_spec.specs.Needs.{Reads};
ghost use Rattle.edit_spec.specs.Step.{run};

use edit_tx::{Snapshot, Tx};
use netlist_schema::NoMemory;
use std::alloc::Global;

/// What the operations of a transaction make of the last version, as the version of this number. Where the pinned version is the
/// last one, that is what the transaction has already, and no cell is copied.
pub(crate) fn next_version(
    alloc: Global,
    tx: &Tx,
    last: &Snapshot,
    version: u64,
) -> Result<Snapshot, NoMemory>
    requires grown { Grown tx.now.pin.design last.now.design }
    requires agree { AgreesOn tx.now.pin.design last.now.design (Reads tx.now.pin.design tx.now.ops) }
    requires one { tx.now.pin.version ≡ last.now.version → tx.now.pin.design ≡ last.now.design }
    ensures { IfOk result (λ made. made ≡ record { version = version; design = (run last.now.design tx.now.ops).design }) }
{
    if tx.pin().version() == last.version() {
        return tx.next(alloc, version);
    }
    tx.merged(alloc, last, version)
}
