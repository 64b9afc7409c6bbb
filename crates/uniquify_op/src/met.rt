//! `Met`: the cells that were met, with their blocks.
ghost use Rattle.std.specs.Prelude.{◌≡◌, ◌++◌, [], ◌∷◌, IfOk, None, Some, cond, length};
ghost use Rattle.std.specs.BTreeMap.{get, is_at};
ghost use Rattle.netlist_schema.specs.Order.{cell_cmp};
ghost use Rattle.netlist_schema.specs.Types.{CellId};

use netlist_schema::{CellId, NoMemory, Row};
use std::alloc::Global;
use std::collections::BTreeMap;
use uniquify_copies::Step;

/// Cells that were met, and the blocks that stand in cells.
#[derive(Drop)]
pub struct Met {
    /// Of each cell that was met, the place of the row of its blocks.
    pub places: BTreeMap<CellId, usize>,
    /// Rows of blocks. The first is the top's, which is never met.
    pub rows: Vec<Row<Step>>,
}

impl Met {
    /// No cell was met yet, and these are the blocks of the top.
    pub fn new(alloc: Global, kids: Row<Step>) -> Result<Met, NoMemory>
        ensures rows { IfOk result (λ met. met.rows.items ≡ kids ∷ []) }
        ensures places { IfOk result (λ met. (id : CellId) → get cell_cmp met.places id ≡ None) }
    {
        let mut rows = Vec::new(alloc);
        rows.push(kids)?;
        Ok(Met {
            places: BTreeMap::new(alloc),
            rows,
        })
    }

    /// The place of the row of a cell's blocks, where the cell was met.
    pub fn place_of(&self, id: CellId) -> Option<usize>
        ensures { result ≡ get cell_cmp self.now.places id }
    {
        self.places.get(&id).copied()
    }

    /// A cell is met, with its blocks: the place of their row.
    pub fn add(&mut self, id: CellId, kids: Row<Step>) -> Result<usize, NoMemory>
        ensures place { IfOk result (λ place. place ≡ length self.old.rows.items) }
        ensures rows { IfOk result (λ _. self.new.rows.items ≡ self.old.rows.items ++ kids ∷ []) }
        ensures places { IfOk result (λ place. (q : CellId) → get cell_cmp self.new.places q ≡ cond (is_at (cell_cmp id) q) (Some place) (get cell_cmp self.old.places q)) }
    {
        let place = self.rows.len();
        self.rows.push(kids)?;
        self.places.insert(id, place)?;
        Ok(place)
    }
}
