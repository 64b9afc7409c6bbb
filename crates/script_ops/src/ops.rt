//! Operations, from the words behind the first.
ghost use Rattle.std.specs.Prelude.{◌≡◌, ◌∷◌, ◌++◌, []};
ghost use Rattle.script_spec.specs.Lines.{cell_pieces, name, IsPlainOp};
ghost use Rattle.script_spec.specs.Pieces.{SpellPieces};
ghost use Rattle.script_words.specs.Reading.{lent, Reads};
ghost use Rattle.script_ops.specs.Verbs.{op_rest, OpHasBytes, ReadsOp, verb_of_op};
ghost use Rattle.script_ops.specs.declared.verbs.OpVerb.TheVariants as verbs;

use crate::front::{end, finished, take_cell, take_leaf, take_name, take_path, take_target};
use crate::pieces::ports;
use crate::values::property;
use crate::verbs::{Inside, OpVerb};
use edit_spec::{CellName, Op};
use netlist_schema::Ident;
use script_words::Unread;
use std::alloc::Global;

/// A cell alone.
fn cell_alone(alloc: Global, words: &[&[u8]]) -> Result<CellName, Unread>
    ensures { Reads (λ cell. SpellPieces (lent words.now) (cell_pieces cell)) result }
{
    let (cell, others) = take_cell(alloc, words)?;
    finished(others)?;
    Ok(cell)
}

/// An identifier alone.
fn last_name(alloc: Global, words: &[&[u8]]) -> Result<Ident, Unread>
    ensures { Reads (λ id. SpellPieces (lent words.now) (name id ∷ [])) result }
{
    let (id, others) = take_name(alloc, words)?;
    finished(others)?;
    Ok(id)
}

/// The operation on a name in a cell.
fn inside(verb: Inside, cell: CellName, id: Ident) -> Op
    ensures verb { verb_of_op result ≡ verbs.InCell verb }
    ensures pieces { op_rest result ≡ cell_pieces cell ++ name id ∷ [] }
    ensures plain { IsPlainOp result }
    ensures bytes { OpHasBytes result }
{
    match verb {
        Inside::ShowNet => Op::ShowNet { cell, net: id },
        Inside::ShowInst => Op::ShowInst { cell, inst: id },
        Inside::AddNet => Op::AddNet { cell, net: id },
        Inside::DropNet => Op::DropNet { cell, net: id },
        Inside::DropInst => Op::DropInst { cell, inst: id },
        Inside::Ungroup => Op::Ungroup { cell, inst: id },
    }
}

/// An operation on a name in a cell.
fn read_inside(alloc: Global, verb: Inside, words: &[&[u8]]) -> Result<Op, Unread>
    ensures { ReadsOp (verbs.InCell verb) (lent words.now) result }
{
    let (cell, others) = take_cell(alloc, words)?;
    let id = last_name(alloc, others)?;
    Ok(inside(verb, cell, id))
}

fn read_show_cell(alloc: Global, words: &[&[u8]]) -> Result<Op, Unread>
    ensures { ReadsOp verbs.ShowCell (lent words.now) result }
{
    let cell = cell_alone(alloc, words)?;
    Ok(Op::ShowCell { cell })
}

fn read_add_cell(alloc: Global, words: &[&[u8]]) -> Result<Op, Unread>
    ensures { ReadsOp verbs.AddCell (lent words.now) result }
{
    let (cell, others) = take_cell(alloc, words)?;
    let (leaf, others) = take_leaf(others)?;
    let ports = ports(alloc, others)?;
    Ok(Op::AddCell { cell, leaf, ports })
}

fn read_add_inst(alloc: Global, words: &[&[u8]]) -> Result<Op, Unread>
    ensures { ReadsOp verbs.AddInst (lent words.now) result }
{
    let (cell, others) = take_cell(alloc, words)?;
    let (inst, others) = take_name(alloc, others)?;
    let of = cell_alone(alloc, others)?;
    Ok(Op::AddInst { cell, inst, of })
}

fn read_join(alloc: Global, words: &[&[u8]]) -> Result<Op, Unread>
    ensures { ReadsOp verbs.Join (lent words.now) result }
{
    let (cell, others) = take_cell(alloc, words)?;
    let (net, others) = take_name(alloc, others)?;
    let end = end(alloc, others)?;
    Ok(Op::Join { cell, net, end })
}

fn read_cut(alloc: Global, words: &[&[u8]]) -> Result<Op, Unread>
    ensures { ReadsOp verbs.Cut (lent words.now) result }
{
    let (cell, others) = take_cell(alloc, words)?;
    let end = end(alloc, others)?;
    Ok(Op::Cut { cell, end })
}

fn read_set_prop(alloc: Global, words: &[&[u8]]) -> Result<Op, Unread>
    ensures { ReadsOp verbs.SetProp (lent words.now) result }
{
    let (cell, others) = take_cell(alloc, words)?;
    let (target, others) = take_target(alloc, others)?;
    let property = property(alloc, others)?;
    Ok(Op::SetProp {
        cell,
        target,
        property,
    })
}

fn read_set_note(alloc: Global, words: &[&[u8]]) -> Result<Op, Unread>
    ensures { ReadsOp verbs.SetNote (lent words.now) result }
{
    let (path, others) = take_path(alloc, words)?;
    let property = property(alloc, others)?;
    Ok(Op::SetNote { path, property })
}

fn read_drop_note(alloc: Global, words: &[&[u8]]) -> Result<Op, Unread>
    ensures { ReadsOp verbs.DropNote (lent words.now) result }
{
    let (path, others) = take_path(alloc, words)?;
    let key = last_name(alloc, others)?;
    Ok(Op::DropNote { path, key })
}

fn read_uniquify(words: &[&[u8]]) -> Result<Op, Unread>
    ensures { ReadsOp verbs.Uniquify (lent words.now) result }
{
    finished(words)?;
    Ok(Op::Uniquify)
}

fn read_unique_path(alloc: Global, words: &[&[u8]]) -> Result<Op, Unread>
    ensures { ReadsOp verbs.UniquePath (lent words.now) result }
{
    let (path, others) = take_path(alloc, words)?;
    finished(others)?;
    Ok(Op::UniquePath { path })
}

/// The operation with this verb. `Bad` where the words say none.
pub fn read_op(alloc: Global, verb: OpVerb, words: &[&[u8]]) -> Result<Op, Unread>
    ensures { ReadsOp verb (lent words.now) result }
{
    match verb {
        OpVerb::ShowCell => read_show_cell(alloc, words),
        OpVerb::InCell(inside) => read_inside(alloc, inside, words),
        OpVerb::AddCell => read_add_cell(alloc, words),
        OpVerb::AddInst => read_add_inst(alloc, words),
        OpVerb::Join => read_join(alloc, words),
        OpVerb::Cut => read_cut(alloc, words),
        OpVerb::SetProp => read_set_prop(alloc, words),
        OpVerb::SetNote => read_set_note(alloc, words),
        OpVerb::DropNote => read_drop_note(alloc, words),
        OpVerb::Uniquify => read_uniquify(words),
        OpVerb::UniquePath => read_unique_path(alloc, words),
    }
}
