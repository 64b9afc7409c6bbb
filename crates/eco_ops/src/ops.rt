//! One operation.
ghost use Rattle.std.specs.Prelude.{◌≡◌, ◌↔◌, IsTrue, MatchResult};
ghost use Rattle.edit_spec.specs.Typed.{IsTypedOp};
ghost use Rattle.eco_reads.specs.Done.{IsDone};
ghost use Rattle.eco_reads.specs.Outcome.{IsDoneOrRefused};
ghost use Rattle.eco_ops.specs.Single.{IsSingle};

use crate::ends::{cut, join};
use crate::insts::{add_inst, drop_inst};
use eco_plans::{
    add_cell, add_net, drop_net, drop_note, set_note, set_prop, show_cell, show_inst, show_net,
};
use eco_reads::OpError;
use edit_cells::Cells;
use edit_spec::{Op, Reply, op_is_typed};
use netlist_schema::NoMemory;
use std::alloc::Global;

/// Whether the operation is a single one: `eco_op` does those.
pub fn is_single(op: &Op) -> bool
    ensures { IsTrue result ↔ IsSingle op.now }
{
    !matches!(
        op,
        Op::Uniquify | Op::UniquePath { .. } | Op::Ungroup { .. }
    )
}

/// Does an operation. Where memory is refused, the list of objects read may have gone on.
fn try_op<C: Cells>(alloc: Global, cells: &mut C, op: &Op) -> Result<Reply, OpError>
    requires single { IsSingle op.now }
    requires typed { IsTypedOp op.now }
    ensures { IsDoneOrRefused result (C.state cells.old) (C.state cells.new) op.now }
{
    match op {
        Op::ShowCell { cell } => show_cell(cells, cell),
        Op::ShowNet { cell, net } => show_net(alloc, cells, cell, net),
        Op::ShowInst { cell, inst } => show_inst(alloc, cells, cell, inst),
        Op::AddCell { cell, leaf, ports } => add_cell(alloc, cells, cell, *leaf, ports),
        Op::AddNet { cell, net } => add_net(alloc, cells, cell, net),
        Op::DropNet { cell, net } => drop_net(alloc, cells, cell, net),
        Op::AddInst { cell, inst, of } => add_inst(alloc, cells, cell, inst, of),
        Op::DropInst { cell, inst } => drop_inst(alloc, cells, cell, inst),
        Op::Join { cell, net, end } => join(alloc, cells, cell, net, end),
        Op::Cut { cell, end } => cut(alloc, cells, cell, end),
        Op::SetProp {
            cell,
            target,
            property,
        } => set_prop(alloc, cells, cell, target, property),
        Op::SetNote { path, property } => set_note(alloc, cells, path, property),
        Op::DropNote { path, key } => drop_note(alloc, cells, path, key),
        Op::Uniquify | Op::UniquePath { .. } | Op::Ungroup { .. } => unreachable!(),
    }
}

/// Does a single operation: the reply and the design are those of its definition; the objects read grow by what it needs,
/// and the objects written by what it writes, both as sets. A reply that refuses changes nothing but the objects read. The
/// one error is that an allocation was refused; design, objects read and objects written are as before then.
///
/// It looks at what it names and needs, and never at the whole design. Names of a contents are looked up in place. One net
/// or one instance is handed over as a change of its own, so `AddNet`, `AddInst`, `Join`, `Cut` and the properties of nets
/// and instances copy that net or instance alone; `DropNet` and `DropInst` copy the contents of the cell once. `AddInst`
/// looks once at each cell below the one that it places.
pub fn eco_op<C: Cells>(alloc: Global, cells: &mut C, op: &Op) -> Result<Reply, NoMemory>
    requires { IsSingle op.now }
    ensures { MatchResult result (IsDone (C.state cells.old) (C.state cells.new) op.now) (λ _. C.state cells.new ≡ C.state cells.old) }
{
    op_is_typed(op);
    let mark = cells.mark();
    match try_op(alloc, cells, op) {
        Ok(reply) => Ok(reply),
        Err(OpError::Refused(reply)) => Ok(reply),
        Err(OpError::NoMemory) => {
            cells.back(mark);
            Err(NoMemory)
        }
    }
}
