//! Operations of a transaction, and its commit, which is made again after a conflict.
ghost use Rattle.std.specs.Prelude.{◌≡◌, ◌++◌, ◌∷◌, [], IfOk, OnOk};
ghost use Rattle.edit_spec.specs.Step.{run};
ghost use Rattle.edit_tx.specs.Facts.{HasRun, started};
ghost use Rattle.script_spec.specs.Session.{reply_behind};
ghost use Rattle.script_spec.specs.Texts.{conflict_words, line, reply_text};
ghost use Rattle.script_spec.specs.declared.script.Step.TheVariants.{Commit};
ghost use Rattle.db_share.specs.Passes.{HasPin, IsReady};
ghost use Rattle.db_share.specs.Calls.{GoesOn, HasReleased};
ghost use Rattle.script_held.specs.Holding.{block_of};
ghost use Rattle.script_run.specs.Coming.{BeginsAgain, Comes, Commits, Tries, accepted, refused, reply_lines};
ghost use Rattle.script_run.specs.Holding.{Stands};

use crate::along::Along;
use crate::lines::start_block;
use db_share::{CommitError, Pass, Tx};
use edit_spec::Op;
use netdb_outside::Gate;
use netlist_schema::{Copied, NoMemory, Object, Row};
use script_held::{Block, Held, Stop, filled};
use script_say::{say_committed, say_conflict, say_log_full, say_reply};
use std::alloc::Global;
use std::sync::Wait;

/// Runs an operation and says its reply. The pin stays; after `NoMemory` the operation was run or not.
pub(crate) fn try_op(alloc: Global, tx: &mut Tx, op: &Op, out: &mut Vec<u8>) -> Result<(), NoMemory>
    ensures run { OnOk result (HasRun tx.old tx.new op.now) }
    ensures said { OnOk result (out.new.items ≡ out.old.items ++ line (reply_text (reply_behind tx.old.pin.design tx.old.ops op.now) ∷ [])) }
    ensures pin { tx.new.pin ≡ tx.old.pin }
{
    let copy = op.copy(alloc)?;
    match tx.run(copy) {
        Ok(reply) => say_reply(alloc, reply, out),
        Err(NoMemory) => Err(NoMemory),
    }
}

/// Tells the gate that the caller is at the line so many behind the first one of a block.
fn reach<G: Gate>(along: &Along<'_, G>, caller: u32, first: usize, behind: usize) {
    let lines = along.lines;
    if first < lines.len() && behind < lines.len() - first {
        along.gate.reached(caller, lines[first + behind].number);
    }
}

/// Tells the gate that the caller is at the commit line of a block.
fn reach_commit<G: Gate>(along: &Along<'_, G>, caller: u32, block: &Block) {
    reach(
        along,
        caller,
        block.first,
        block.tx.ops().as_slice().len() + 1,
    );
}

/// Runs the operations of a block again, each at its line, and says their replies. The pin stays.
fn run_ops<G: Gate>(
    along: &Along<'_, G>,
    block: &mut Block,
    ops: &[Op],
    caller: u32,
    out: &mut Vec<u8>,
) -> Result<(), NoMemory>
    requires { block.old.tx ≡ started block.old.tx.pin }
    ensures ops { OnOk result (block.new.tx.ops ≡ ops.now) }
    ensures said { OnOk result (out.new.items ≡ out.old.items ++ reply_lines (run block.old.tx.pin.design ops.now).replies) }
    ensures pin { block.new.tx.pin ≡ block.old.tx.pin }
    ensures retries { block.new.retries ≡ block.old.retries }
{
    for done in 0..ops.len() {
        reach(along, caller, block.first, done + 1);
        let Ok(()) = try_op(along.alloc, &mut block.tx, &ops[done], out) else {
            return Err(NoMemory);
        };
    }
    Ok(())
}

/// A block whose commit was refused, as it is to be begun again.
#[derive(Clone, Copy)]
struct Begin<'a> {
    ops: &'a [Op],
    /// How many retries are left then.
    retries: u32,
    first: usize,
}

/// Begins a block whose commit was refused on a new pin of the last version, and runs its operations again.
fn begin_again<G: Gate>(
    rt: &impl Wait,
    along: &Along<'_, G>,
    pass: &mut Pass,
    begin: Begin<'_>,
    out: &mut Vec<u8>,
) -> Result<Block, Stop>
    requires { Stands along.now.db.now pass.old Held.Nothing }
    ensures on { GoesOn along.now.db.now pass.old pass.new }
    ensures begins { BeginsAgain along.now.db.now pass.old pass.new out.old.items out.new.items begin.entry.ops.now begin.entry.retries result }
{
    reach(along, pass.number(), begin.first, 0);
    let mut block = match start_block(rt, along, pass, begin.retries, begin.first, out) {
        Ok(block) => block,
        Err(stop) => return Err(stop),
    };
    match run_ops(along, &mut block, begin.ops, pass.number(), out) {
        Ok(()) => Ok(block),
        Err(NoMemory) => Err(Stop::NoMemory(Held::InBlock(block))),
    }
}

/// Why a commit was refused: the object that it read, and the later commit that wrote it.
#[derive(Clone, Copy)]
struct Conflict {
    object: Object,
    version: u64,
}

/// Says the conflict that refused a transaction, and releases its pin. The operations come back.
fn give_up<G: Gate>(
    rt: &impl Wait,
    along: &Along<'_, G>,
    pass: &mut Pass,
    tx: Tx,
    conflict: Conflict,
    out: &mut Vec<u8>,
) -> Result<Row<Op>, NoMemory>
    requires ready { IsReady along.now.db.now pass.old }
    requires pin { HasPin along.now.db.now pass.old tx.pin }
    ensures on { GoesOn along.now.db.now pass.old pass.new }
    ensures released { HasReleased along.now.db.now pass.old pass.new tx.pin }
    ensures ops { IfOk result (λ ops. ops ≡ tx.ops) }
    ensures said { OnOk result (out.new.items ≡ out.old.items ++ line (conflict_words tx.pin.design conflict.object conflict.version)) }
{
    let (pin, ops, _replies) = tx.into_parts();
    let Conflict { object, version } = conflict;
    let said = say_conflict(along.alloc, pin.snapshot_ref(), object, version, out);
    along.db.release(rt, pass, pin);
    match said {
        Ok(()) => Ok(ops),
        Err(NoMemory) => Err(NoMemory),
    }
}

/// The block has ended, where that was said.
fn accepted(said: Result<(), NoMemory>) -> Result<Option<Row<Op>>, Stop>
    ensures { result ≡ accepted said }
{
    match said {
        Ok(()) => Ok(None),
        Err(NoMemory) => Err(Stop::NoMemory(Held::Nothing)),
    }
}

/// The operations of a refused commit, where that was said.
fn refused(said: Result<Row<Op>, NoMemory>) -> Result<Option<Row<Op>>, Stop>
    ensures { result ≡ refused said }
{
    match said {
        Ok(ops) => Ok(Some(ops)),
        Err(NoMemory) => Err(Stop::NoMemory(Held::Nothing)),
    }
}

/// Commits a block once, and releases its pin. Where the commit meets a conflict, the operations come back.
fn commit_once<G: Gate>(
    rt: &impl Wait,
    along: &Along<'_, G>,
    pass: &mut Pass,
    block: Block,
    out: &mut Vec<u8>,
) -> Result<Option<Row<Op>>, Stop>
    requires { Stands along.now.db.now pass.old (Held.InBlock block) }
    ensures on { GoesOn along.now.db.now pass.old pass.new }
    ensures commits { Commits along.now.db.now pass.old pass.new out.old.items out.new.items block result }
{
    match along.db.commit(rt, along.alloc, pass, block.tx) {
        Ok((version, pin)) => {
            along.db.release(rt, pass, pin);
            accepted(say_committed(version, out))
        }
        Err((CommitError::LogFull, tx)) => {
            Err(filled(say_log_full(out), Held::OnPin(tx.abandon())))
        }
        Err((CommitError::NoMemory, tx)) => Err(Stop::NoMemory(Held::OnPin(tx.abandon()))),
        Err((CommitError::Conflict { object, version }, tx)) => {
            let conflict = Conflict { object, version };
            refused(give_up(rt, along, pass, tx, conflict, out))
        }
    }
}

/// Commits a block once, and begins it again where its commit meets a conflict and retries are left.
fn try_block<G: Gate>(
    rt: &impl Wait,
    along: &Along<'_, G>,
    pass: &mut Pass,
    block: Block,
    out: &mut Vec<u8>,
) -> Result<Option<Block>, Stop>
    requires { Stands along.now.db.now pass.old (Held.InBlock block) }
    ensures on { GoesOn along.now.db.now pass.old pass.new }
    ensures tries { Tries along.now.db.now pass.old pass.new out.old.items out.new.items block result }
{
    let retries = block.retries;
    let first = block.first;
    let ops = match commit_once(rt, along, pass, block, out) {
        Ok(Some(ops)) => ops,
        Ok(None) => return Ok(None),
        Err(stop) => return Err(stop),
    };
    if retries == 0 {
        return Ok(None);
    }
    let begin = Begin {
        ops: ops.as_slice(),
        retries: retries - 1,
        first,
    };
    match begin_again(rt, along, pass, begin, out) {
        Ok(next) => Ok(Some(next)),
        Err(stop) => Err(stop),
    }
}

/// Commits a block, which is run again after a conflict while retries are left. The gate is called again for each of its lines then.
pub(crate) fn commit_block<G: Gate>(
    rt: &impl Wait,
    along: &Along<'_, G>,
    pass: &mut Pass,
    block: Block,
    out: &mut Vec<u8>,
) -> Result<Held, Stop>
    requires { Stands along.now.db.now pass.old (Held.InBlock block) }
    ensures on { GoesOn along.now.db.now pass.old pass.new }
    ensures comes { Comes along.now.db.now pass.old pass.new out.old.items out.new.items (block_of block) Commit result }
{
    let mut block = block;
    'again: loop {
        match try_block(rt, along, pass, block, out) {
            Ok(Some(next)) => block = next,
            Ok(None) => return Ok(Held::Nothing),
            Err(stop) => return Err(stop),
        }
        reach_commit(along, pass.number(), &block);
    }
}
