//! `Visits`: the occurrences of blocks that were come to.
ghost use Rattle.std.specs.Prelude.{◌≡◌, [], IfOk, List, None};
ghost use Rattle.std.specs.BTreeMap.{get};
ghost use Rattle.netlist_schema.specs.Hierarchy.{IsCell};
ghost use Rattle.netlist_schema.specs.Order.{cell_cmp};
ghost use Rattle.netlist_schema.specs.Types.{CellId};
ghost use Rattle.flat_spec.specs.Occurrences.{Occurrence};
ghost use Rattle.edit_cells.specs.State.{HasReadSome};
ghost use Rattle.uniquify_copies.specs.Drafts.{IsNumbered, placed_in};
ghost use Rattle.uniquify_op.specs.Marks.{marks_after};
ghost use Rattle.uniquify_op.specs.Visited.{IsPut, IsPutAt, IsVisited};

use crate::met::Met;
use edit_cells::Cells;
use netlist_schema::NoMemory;
use std::alloc::Global;
use uniquify_blocks::block_kids;
use uniquify_copies::{CopyDraft, Step};

/// Occurrences of blocks on a list, with the copies that they get, and the cells that were met among them.
#[derive(Drop)]
pub struct Visits {
    pub draft: CopyDraft,
    pub met: Met,
}

impl Visits {
    /// Puts an occurrence on the list whose cell was not met, so that it keeps the cell: the place of the row of its blocks.
    fn keep<C: Cells>(
        &mut self,
        alloc: Global,
        cells: &mut C,
        above: usize,
        step: Step,
    ) -> Result<usize, NoMemory>
        requires { get cell_cmp self.old.met.places step.of ≡ None }
        ensures kept { IfOk result (λ row. (top : CellId) (seen : List Occurrence) (up : Occurrence) → IsVisited (C.state cells.old).design top seen self.old → IsNumbered top (marks_after [] seen) above up → IsPutAt (C.state cells.old).design top seen (placed_in up step.place step.of) self.old self.new row) }
        ensures some { HasReadSome (C.state cells.old) (C.state cells.new) }
    {
        let kids = block_kids(alloc, cells, step.of)?;
        self.draft.keep(above, step.place, step.of)?;
        let row = self.met.add(step.of, kids)?;
        Ok(row)
    }

    /// Puts an occurrence on the list, of the instance at a step in the occurrence with a number: it keeps its cell where that
    /// was not met, and else gets a copy. The place of the row of its blocks; none where the library of its cell has no room.
    pub fn put<C: Cells>(
        &mut self,
        alloc: Global,
        cells: &mut C,
        above: usize,
        step: Step,
    ) -> Result<Option<usize>, NoMemory>
        requires { IsCell (C.state cells.old).design step.of }
        ensures put { IfOk result (λ row. (top : CellId) (seen : List Occurrence) (up : Occurrence) → IsVisited (C.state cells.old).design top seen self.old → IsNumbered top (marks_after [] seen) above up → IsPut (C.state cells.old).design top seen (placed_in up step.place step.of) self.old self.new row) }
        ensures some { HasReadSome (C.state cells.old) (C.state cells.new) }
    {
        let Some(row) = self.met.place_of(step.of) else {
            let row = self.keep(alloc, cells, above, step)?;
            return Ok(Some(row));
        };
        let fits = self.draft.copy(alloc, cells, above, step.place, step.of)?;
        if fits {
            return Ok(Some(row));
        }
        Ok(None)
    }
}
