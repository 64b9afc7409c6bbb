//! The items of all cells' occurrences.
ghost use Rattle.std.specs.Prelude.{[], IfOk};
ghost use Rattle.std.specs.List.{All};
ghost use Rattle.netlist_schema.specs.Hierarchy.{IsCell};
ghost use Rattle.netlist_schema.specs.Valid.{IsValid};
ghost use Rattle.netlist_order_spec.specs.After.{AllAfter};
ghost use Rattle.flat_cells.specs.Below.{ComesBehind};
ghost use Rattle.par_parts.specs.Counts.{HasRoom};
ghost use Rattle.par_parts.specs.Items.{AreCounted, AreCounts};

use crate::count::count_cell;
use crate::tables::ItemCounts;
use flat_cells::cells_below;
use netlist_schema::{CellId, NoMemory, Shown};
use std::alloc::Global;

/// Counts the items of each of these cells, each of which stands behind the cells of its instances.
fn count_all<S: Shown>(design: &S, below: &[CellId], counts: &mut ItemCounts)
    requires behind { AllAfter (ComesBehind (S.design design.now)) [] below.now }
    requires there { All (IsCell (S.design design.now)) below.now }
    requires valid { IsValid (S.design design.now) }
    requires room { HasRoom (S.design design.now) counts.old }
    ensures { AreCounted (S.design design.now) below.now counts.new }
{
    for cell in below {
        let count = count_cell(design, counts, *cell);
        counts.set(*cell, count);
    }
}

/// How many items stand at and below an occurrence of each of these cells, each of which stands behind the cells of its instances.
pub(crate) fn count_below<S: Shown>(
    alloc: Global,
    design: &S,
    below: &[CellId],
) -> Result<ItemCounts, NoMemory>
    requires behind { AllAfter (ComesBehind (S.design design.now)) [] below.now }
    requires there { All (IsCell (S.design design.now)) below.now }
    requires valid { IsValid (S.design design.now) }
    ensures { IfOk result (AreCounted (S.design design.now) below.now) }
{
    let mut counts = ItemCounts::none(alloc, design)?;
    count_all(design, below, &mut counts);
    Ok(counts)
}

/// How many items stand at and below an occurrence of each cell at or below the top, which is a cell of the design: as far as a number
/// of 64 bits can say. The one error is that an allocation was refused.
///
/// Each cell is looked at once. It takes time and memory in proportion to the cells and instances of the design, times a logarithm of
/// the number of cells: never in proportion to occurrences.
pub fn count_items<S: Shown>(alloc: Global, design: &S, top: CellId) -> Result<ItemCounts, NoMemory>
    requires is { IsCell (S.design design.now) top }
    requires valid { IsValid (S.design design.now) }
    ensures { IfOk result (AreCounts (S.design design.now) top) }
{
    let below = cells_below(alloc, design, top)?;
    count_below(alloc, design, below.as_slice())
}
