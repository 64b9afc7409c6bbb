//! Marks of cells.
ghost use Rattle.std.specs.Prelude.{◌≡◌, false, true, length, set, IfOk};
ghost use Rattle.std.specs.List.{All};
ghost use Rattle.flat_cells.specs.Marks.{AreBlank, IsSet, is_marked};

use netlist_schema::{CellId, LibId, NoMemory, Shown};
use std::alloc::Global;

/// A mark for each cell of a design.
#[derive(Debug, Drop)]
pub struct CellMarks {
    /// By library and place.
    rows: Vec<Vec<bool>>,
}

/// So many marks, none of which is set.
fn blank_row(alloc: Global, count: u32) -> Result<Vec<bool>, NoMemory>
    ensures long { IfOk result (λ row. length row.items ≡ count) }
    ensures none { IfOk result (λ row. All (λ mark. mark ≡ false) row.items) }
{
    let mut row = Vec::new(alloc);
    for _ in 0..count {
        row.push(false)?;
    }
    Ok(row)
}

impl CellMarks {
    /// A mark for each cell of the design, none of which is set.
    pub fn none<S: Shown>(alloc: Global, design: &S) -> Result<CellMarks, NoMemory>
        ensures { IfOk result (AreBlank (S.design design.now)) }
    {
        let mut rows = Vec::new(alloc);
        for lib in 0..design.lib_count() {
            let row = blank_row(alloc, design.cell_count(LibId(lib)))?;
            rows.push(row)?;
        }
        Ok(CellMarks { rows })
    }

    /// Whether a cell is marked.
    pub fn has(&self, cell: CellId) -> bool
        ensures { result ≡ is_marked self.now cell }
    {
        match self.rows.as_slice().get(cell.lib.0 as usize) {
            Some(row) => row
                .as_slice()
                .get(cell.slot as usize)
                .copied()
                .unwrap_or(false),
            None => false,
        }
    }

    /// Marks a cell.
    pub fn set(&mut self, cell: CellId)
        ensures { IsSet self.old cell self.new }
    {
        let rows = self.rows.as_mut_slice();
        if (cell.lib.0 as usize) < rows.len() {
            set_in(&mut rows[cell.lib.0 as usize], cell.slot);
        }
    }
}

/// Sets the mark at a place.
fn set_in(row: &mut Vec<bool>, slot: u32)
    ensures { row.new.items ≡ set row.old.items slot true }
{
    if (slot as usize) < row.len() {
        row[slot as usize] = true;
    }
}
