//! What a walk goes over, which stays as it is.
ghost use Rattle.std.specs.Prelude.{◌≡◌, IfOk, Some};
ghost use Rattle.netlist_schema.specs.Valid.{IsValid};
ghost use Rattle.flat_items.specs.Stand.{IsGround, top_of};

use crate::notes::PlacedNotes;
use net_classes::Classes;
use netlist_schema::{CellId, NoMemory, Shown};
use std::alloc::Global;

/// A design with a top, what is connected in the trees of its cells, and its notes by their paths.
pub struct Ground<S: Shown + Drop> {
    pub alloc: Global,
    pub design: S,
    pub classes: Classes,
    pub notes: PlacedNotes,
}

impl<S: Shown + Drop> Drop for Ground<S> {
    fn drop(self) {
        let Ground {
            alloc: _,
            design: _,
            classes: _,
            notes: _,
        } = self;
    }
}

impl<S: Shown + Drop> Ground<S> {
    /// The ground of a design whose top has this cell. The one error is that an allocation was refused.
    pub fn of(alloc: Global, design: S, top: CellId) -> Result<Ground<S>, NoMemory>
        requires valid { IsValid (S.design design) }
        requires has_top { (S.design design).top ≡ Some (top_of (S.design design)) }
        requires is_top { (top_of (S.design design)).cell ≡ top }
        ensures design { IfOk result (λ ground. ground.design ≡ design) }
        ensures ground { IfOk result (λ ground. IsGround (S.design ground.design) ground.classes ground.notes) }
    {
        let classes = Classes::of(alloc, &design, top)?;
        let notes = PlacedNotes::of(alloc, &design, top)?;
        Ok(Ground {
            alloc,
            design,
            classes,
            notes,
        })
    }
}
