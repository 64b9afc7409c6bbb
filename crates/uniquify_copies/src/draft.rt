//! `CopyDraft`: spots that are put on a list, each with the copy that it gets.
ghost use Rattle.std.specs.Prelude.{[], IfOk, List, OnOk, false};
ghost use Rattle.netlist_schema.specs.Design.{Design};
ghost use Rattle.netlist_schema.specs.Hierarchy.{IsCell};
ghost use Rattle.netlist_schema.specs.Types.{CellId};
ghost use Rattle.edit_cells.specs.State.{HasReadSome};
ghost use Rattle.flat_spec.specs.Occurrences.{Occurrence};
ghost use Rattle.uniquify_copies.specs.Drafts.{IsCopied, IsDraft, IsMoreDraft, IsNumbered, Marked, placed_in};

use crate::namer::Namer;
use crate::spot::Spot;
use edit_cells::Cells;
use netlist_schema::{CellId, NoMemory};
use std::alloc::Global;

/// Occurrences of blocks below a top, each put behind the one that holds it, and the names of their copies.
pub struct CopyDraft {
    pub spots: Vec<Spot>,
    pub namer: Namer,
}

impl Drop for CopyDraft {
    fn drop(self) {
        let CopyDraft { spots: _, namer: _ } = self;
    }
}

impl CopyDraft {
    /// No occurrence yet. Takes no memory.
    pub fn new(alloc: Global) -> CopyDraft
        ensures { (d : Design) (top : CellId) → IsDraft d top [] result }
    {
        CopyDraft {
            spots: Vec::new(alloc),
            namer: Namer::new(alloc),
        }
    }

    /// Puts an occurrence on the list that keeps its cell: at a place of the one with a number, which is 0 for the top.
    pub fn keep(&mut self, above: usize, place: u32, cell: CellId) -> Result<(), NoMemory>
        ensures { OnOk result ((d : Design) (top : CellId) (done : List Marked) (up : Occurrence) → IsDraft d top done self.old → IsNumbered top done above up → IsMoreDraft d top done (placed_in up place cell) false self.new) }
    {
        self.spots.push(Spot {
            above,
            place,
            cell,
            twin: None,
        })?;
        Ok(())
    }

    /// Puts an occurrence on the list that gets a copy; false where the library of its cell has no room for that.
    pub fn copy<C: Cells>(
        &mut self,
        alloc: Global,
        cells: &mut C,
        above: usize,
        place: u32,
        cell: CellId,
    ) -> Result<bool, NoMemory>
        requires { IsCell (C.state cells.old).design cell }
        ensures copied { IfOk result (λ fits. (top : CellId) (done : List Marked) (up : Occurrence) → IsDraft (C.state cells.old).design top done self.old → IsNumbered top done above up → IsCopied (C.state cells.old).design top done (placed_in up place cell) self.new fits) }
        ensures some { HasReadSome (C.state cells.old) (C.state cells.new) }
    {
        let Some(twin) = self.namer.next_copy(alloc, cells, cell)? else {
            return Ok(false);
        };
        self.spots.push(Spot {
            above,
            place,
            cell,
            twin: Some(twin),
        })?;
        Ok(true)
    }
}
