//! What is planned for the contents of a cell.
ghost use Rattle.std.specs.Prelude.{◌≡◌};
ghost use Rattle.eco_reads.specs.Plan.{change_of};

use edit_cells::CellChange;
use netlist_schema::{CellId, Contents, Inst, Net};

/// What is planned for the contents of a cell.
#[derive(Debug, Drop)]
pub enum Plan {
    /// Other contents.
    Whole(Contents),
    /// A net at a place: it replaces the one there, or goes behind the last.
    Net { place: u32, net: Net },
    /// An instance at a place: it replaces the one there, or goes behind the last.
    Inst { place: u32, inst: Inst },
}

impl Plan {
    /// The plan as a change of a cell.
    pub fn change(self, id: CellId) -> CellChange
        ensures { result ≡ change_of id self }
    {
        match self {
            Plan::Whole(contents) => CellChange::Inner { id, contents },
            Plan::Net { place, net } => CellChange::Net { id, place, net },
            Plan::Inst { place, inst } => CellChange::Inst { id, place, inst },
        }
    }
}
