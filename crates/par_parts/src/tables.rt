//! `ItemCounts`: a number for each cell.
ghost use Rattle.std.specs.Prelude.{◌≡◌, length, set, IfOk};
ghost use Rattle.par_parts.specs.Counts.{HasRoom, IsSet, count_at};

use netlist_schema::{CellId, LibId, NoMemory, Shown};
use std::alloc::Global;

/// A count for each cell of a design.
#[derive(Debug, Drop)]
pub struct ItemCounts {
    /// By library and place.
    rows: Vec<Vec<u64>>,
}

/// So many counts, all zero.
fn blank_row(alloc: Global, count: u32) -> Result<Vec<u64>, NoMemory>
    ensures { IfOk result (λ row. length row.items ≡ count) }
{
    let mut row = Vec::new(alloc);
    for _ in 0..count {
        row.push(0)?;
    }
    Ok(row)
}

impl ItemCounts {
    /// A count for each cell of the design, all zero.
    pub fn none<S: Shown>(alloc: Global, design: &S) -> Result<ItemCounts, NoMemory>
        ensures { IfOk result (HasRoom (S.design design.now)) }
    {
        let mut rows = Vec::new(alloc);
        for lib in 0..design.lib_count() {
            let row = blank_row(alloc, design.cell_count(LibId(lib)))?;
            rows.push(row)?;
        }
        Ok(ItemCounts { rows })
    }

    /// The count of a cell: `None` exactly where there is no such cell. Takes no memory.
    pub fn at(&self, cell: CellId) -> Option<u64>
        ensures { result ≡ count_at self.now cell }
    {
        self.rows
            .as_slice()
            .get(cell.lib.0 as usize)?
            .as_slice()
            .get(cell.slot as usize)
            .copied()
    }

    /// Sets the count of a cell. Takes no memory.
    pub fn set(&mut self, cell: CellId, count: u64)
        ensures { IsSet self.old cell count self.new }
    {
        let rows = self.rows.as_mut_slice();
        if (cell.lib.0 as usize) < rows.len() {
            set_in(&mut rows[cell.lib.0 as usize], cell.slot, count);
        }
    }
}

/// Sets the count at a place.
fn set_in(row: &mut Vec<u64>, slot: u32, count: u64)
    ensures { row.new.items ≡ set row.old.items slot count }
{
    if (slot as usize) < row.len() {
        row[slot as usize] = count;
    }
}
