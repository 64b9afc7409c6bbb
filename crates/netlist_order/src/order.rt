//! The order of a library's cells.
ghost use Rattle.std.specs.Prelude.{◌≡◌, IfOk};
ghost use Rattle.netlist_order_spec.specs.Order.{order_of};
ghost use Rattle.netlist_schema.specs.Design.{cells_in};
ghost use Rattle.netlist_order.specs.ReadyQueue.{first_cells};

use crate::ready_queue::{ReadyQueue, Waiting};
use netlist_schema::{LibId, NoMemory, Shown};
use std::alloc::Global;

/// The order in which the cells of a library are written, by their places in it: repeatedly the first cell that is not there
/// yet and whose children in the library all are. No cells where there is no such library.
///
/// It takes time and memory in proportion to the cells and their instances, times a logarithm of the number of cells. The one
/// error is that an allocation was refused.
pub fn cell_order<S: Shown>(alloc: Global, design: &S, lib: LibId) -> Result<Vec<u32>, NoMemory>
    ensures { IfOk result (λ order. order.items ≡ order_of lib.0 (cells_in (S.design design.now) lib)) }
{
    let count = design.cell_count(lib);
    let mut queue = ReadyQueue::new(alloc, count)?;
    let all = all_cells(alloc, count)?;
    queue.settle(design, lib, all.as_slice())?;
    let mut order = Vec::new(alloc);
    for _ in 0..count {
        let Some(slot) = queue.next() else {
            break;
        };
        order.push(slot)?;
        let freed = queue.take(alloc, slot);
        queue.settle(design, lib, freed.as_slice())?;
    }
    Ok(order)
}

/// All cells of a library, none of which was looked at.
fn all_cells(alloc: Global, count: u32) -> Result<Vec<Waiting>, NoMemory>
    ensures { IfOk result (λ all. all.items ≡ first_cells count) }
{
    let mut all = Vec::new(alloc);
    for slot in 0..count {
        all.push(Waiting { slot, from: 0 })?;
    }
    Ok(all)
}
