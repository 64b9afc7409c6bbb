//! Running an operation.
ghost use Rattle.std.specs.Prelude.{◌≡◌, MatchResult};
ghost use Rattle.eco_ops.specs.Single.{IsSingle};
ghost use Rattle.eco_reads.specs.Done.{IsDone};

use eco_ops::{eco_op, is_single};
use edit_cells::Cells;
use edit_spec::{Op, Reply};
use netlist_schema::NoMemory;
use std::alloc::Global;
use ungroup_op::ungroup;
use uniquify_op::{unique_path, uniquify};

/// Runs an operation: the reply and the design are those of its definition; the objects read grow by what it needs, and the
/// objects written by what it writes, both as sets. A reply that refuses changes nothing but the objects read. The one error
/// is that an allocation was refused; design, objects read and objects written are as before then.
pub fn apply_op<C: Cells>(alloc: Global, cells: &mut C, op: &Op) -> Result<Reply, NoMemory>
    ensures { MatchResult result (IsDone (C.state cells.old) (C.state cells.new) op.now) (λ _. C.state cells.new ≡ C.state cells.old) }
{
    if is_single(op) {
        return eco_op(alloc, cells, op);
    }
    wide_op(alloc, cells, op)
}

/// Runs an operation that copies or dissolves cells.
fn wide_op<C: Cells>(alloc: Global, cells: &mut C, op: &Op) -> Result<Reply, NoMemory>
    requires { ¬ IsSingle op.now }
    ensures { MatchResult result (IsDone (C.state cells.old) (C.state cells.new) op.now) (λ _. C.state cells.new ≡ C.state cells.old) }
{
    match op {
        Op::Ungroup { cell, inst } => ungroup(alloc, cells, cell, inst),
        Op::UniquePath { path } => unique_path(alloc, cells, path),
        Op::Uniquify => uniquify(alloc, cells),
        _ => unreachable!(),
    }
}
