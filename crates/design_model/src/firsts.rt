//! The representative of each net of a tree.
ghost use Rattle.std.specs.Prelude.{◌≡◌, IfOk};
ghost use Rattle.netlist_schema.specs.Valid.{IsValid};
ghost use Rattle.flat_spec.specs.Occurrences.{nets as nets_below};
ghost use Rattle.design_model.specs.Firsts.{AreFirsts};

use crate::labels::label_nets;
use flat_spec::NetAt;
use netlist_schema::{CellId, NoMemory, Shown};
use std::alloc::Global;

/// For each net of the root's tree, listed in order, the place of its representative in the list. The one error is that an
/// allocation was refused.
pub(crate) fn list_firsts<S: Shown>(
    alloc: Global,
    design: &S,
    root: CellId,
    nets: &[NetAt],
) -> Result<Vec<usize>, NoMemory>
    requires valid { IsValid (S.design design.now) }
    requires nets { nets.now ≡ nets_below (S.design design.now) root }
    ensures { IfOk result (λ places. AreFirsts (S.design design.now) root nets.now places.items) }
{
    label_nets(alloc, design, root, nets)
}
