//! `Tx`: a transaction.
ghost use Rattle.std.specs.Prelude.{◌≡◌, ◌++◌, ◌<◌, List, [], ◌∷◌, length, IfErr, IfOk, MatchResult, OnErr, OnOk};
ghost use Rattle.std.specs.Borrow.{sem};
ghost use Rattle.std.specs.Io.BufRead.{Rests};
ghost use Rattle.edit_spec.specs.declared.ops.Op.{Op as Op'};
ghost use Rattle.edit_rules_spec.specs.declared.reply.Reply.{Reply as Reply'};
ghost use Rattle.eco_reads.specs.Done.{IsDone};
ghost use Rattle.edit_tx.specs.contracts.tx.Tx.{the_row};
ghost use Rattle.edit_spec.specs.Needs.{Reads};
ghost use Rattle.edit_rules_spec.specs.Objects.{AgreesOn, Grown};
ghost use Rattle.edit_spec.specs.Step.{run, step};
ghost use Rattle.edit_tx.specs.Facts.{HasRun, IsTried, started};

use crate::apply::apply_op;
use crate::pin::Pin;
use db_version::Snapshot;
use db_work::Work;
use edit_spec::{Op, Reply, op_is_typed};
use netlist_schema::{NoMemory, Object, Row, design_is_valid};
use std::alloc::Global;
use std::marker::Model;
use std::sync::Arc;

/// What is left of a transaction that is over: the cells that it wrote, as far as no version has them, and its lists of objects. To
/// let it go may take time in proportion to them.
pub struct Left {
    work: Work,
}

impl Drop for Left {
    fn drop(self) {
        let Left { work: _ } = self;
    }
}

/// A transaction: operations that are tried, one after the other, on a pinned version, with their replies.
pub struct Tx {
    alloc: Global,
    pin: Pin,
    work: Work,
    ops: Row<Op>,
    replies: Row<Reply>,
}

impl Drop for Tx {
    fn drop(self) {
        let Tx {
            alloc: _,
            pin: _,
            work: _,
            ops: _,
            replies: _,
        } = self;
    }
}

impl Model for Tx {
    ghost use Rattle.edit_tx.specs.Facts.{TxFacts};

    ghost Value = { TxFacts };

    ghost use Rattle.edit_tx.specs.Inside.{facts_of, IsTx};

    ghost view = { facts_of };

    ghost invariant = { IsTx };
}

impl Tx {
    /// A transaction on a pin, of which nothing was run. Where memory is refused, the pin comes back.
    pub fn start(alloc: Global, pin: Pin) -> Result<Tx, (NoMemory, Pin)>
        ensures ok { IfOk result (λ tx. tx ≡ started pin) }
        ensures err { IfErr result (λ e. e.1 ≡ pin) }
    {
        let Ok(base) = pin.snapshot() else {
            return Err((NoMemory, pin));
        };
        let Ok(work) = Work::new(alloc, base) else {
            return Err((NoMemory, pin));
        };
        Ok(Tx {
            alloc,
            pin,
            work,
            ops: Row::of(Vec::new(alloc)),
            replies: Row::of(Vec::new(alloc)),
        })
    }

    /// What the operations come to on a later version that agrees with the pinned one on all that they read, as the version of
    /// this number. It costs what was written.
    pub fn merged(&self, alloc: Global, head: &Snapshot, version: u64) -> Result<Snapshot, NoMemory>
        requires grown { Grown self.now.pin.design head.now.design }
        requires agree { AgreesOn self.now.pin.design head.now.design (Reads self.now.pin.design self.now.ops) }
        ensures { IfOk result (λ made. made ≡ record { version = version; design = (run head.now.design self.now.ops).design }) }
    {
        design_is_valid(self.pin.snapshot_ref());
        design_is_valid(head);
        let made = self.work.onto(alloc, head)?;
        Ok(Snapshot::of(version, Arc::new(alloc, made)?))
    }

    /// What the operations come to on the pinned version itself, as the version of this number. It costs what was written, and
    /// copies no cell: cells that were written are those of the transaction.
    pub fn next(&self, alloc: Global, version: u64) -> Result<Snapshot, NoMemory>
        ensures { IfOk result (λ made. made ≡ record { version = version; design = (run self.now.pin.design self.now.ops).design }) }
    {
        let made = self.work.version(alloc)?;
        Ok(Snapshot::of(version, Arc::new(alloc, made)?))
    }

    /// Runs an operation on what those before it leave of the pinned version, and lends its reply. After a refusing reply the
    /// transaction goes on. Where memory is refused, the transaction is as before, and the operation is dropped.
    pub fn run(&mut self, op: Op) -> Result<&Reply, NoMemory>
        ensures reply { IfOk result (λ reply. reply.now ≡ (step (run self.old.pin.design self.old.ops).design op).reply) }
        ensures* run { sem 𝓛 (Rests the_row self.entry (λ new. MatchResult result (λ _. HasRun self.old new op) (λ _. new ≡ self.old))) }
    {
        match self.take(op) {
            Ok(()) => Ok(self.last_reply()),
            Err(NoMemory) => Err(NoMemory),
        }
    }

    /// Runs an operation.
    fn take(&mut self, op: Op) -> Result<(), NoMemory>
        ensures ok { OnOk result (HasRun self.old self.new op) }
        ensures err { OnErr result (self.new ≡ self.old) }
    {
        op_is_typed(&op);
        let ops = self.ops.as_slice().len();
        let replies = self.replies.as_slice().len();
        self.ops.push(op)?;
        let Ok(()) = self.replies.push(Reply::Done) else {
            self.ops.cut(ops);
            return Err(NoMemory);
        };
        match apply_last(self.alloc, &mut self.work, &self.ops) {
            Ok(reply) => {
                self.replies.set(replies, reply);
                Ok(())
            }
            Err(NoMemory) => {
                self.ops.cut(ops);
                self.replies.cut(replies);
                Err(NoMemory)
            }
        }
    }

    /// The last reply, where an operation was run.
    fn last_reply(&self) -> &Reply
        requires { 0 < length self.now.replies }
        ensures { (before : List Reply') (reply : Reply') → self.now.replies ≡ before ++ reply ∷ [] → result.now ≡ reply }
    {
        let replies = self.replies.as_slice();
        &replies[replies.len() - 1]
    }

    /// The pin.
    pub fn pin(&self) -> &Pin
        ensures { result.now ≡ self.now.pin }
    {
        &self.pin
    }

    /// The operations that were run, in order.
    pub fn ops(&self) -> &Row<Op>
        ensures { result.now ≡ self.now.ops }
    {
        &self.ops
    }

    /// Their replies, in order, which are those on the pinned version.
    pub fn replies(&self) -> &Row<Reply>
        ensures value { result.now ≡ self.now.replies }
        ensures tried { IsTried self.now }
    {
        &self.replies
    }

    /// The objects read: as a set, what the operations need, each at its own step on the pinned version.
    pub fn reads(&self) -> &Row<Object>
        ensures value { result.now ≡ self.now.reads }
        ensures tried { IsTried self.now }
    {
        self.work.reads()
    }

    /// The objects written: as a set, what the operations write, each at its own step on the pinned version.
    pub fn written(&self) -> &Row<Object>
        ensures value { result.now ≡ self.now.written }
        ensures tried { IsTried self.now }
    {
        self.work.written()
    }

    /// Gives the pin back. Takes no memory.
    pub fn abandon(self) -> Pin
        ensures { result ≡ self.pin }
    {
        let Tx {
            alloc: _,
            pin,
            work: _,
            ops: _,
            replies: _,
        } = self;
        pin
    }

    /// Gives the pin, the operations and the replies back, and what else is left of the transaction, to be let go. Takes no memory.
    pub fn split(self) -> (Pin, Row<Op>, Row<Reply>, Left)
        ensures pin { result.0 ≡ self.pin }
        ensures ops { result.1 ≡ self.ops }
        ensures replies { result.2 ≡ self.replies }
    {
        let Tx {
            alloc: _,
            pin,
            work,
            ops,
            replies,
        } = self;
        (pin, ops, replies, Left { work })
    }

    /// Gives the pin, the operations and the replies back. Takes no memory.
    pub fn into_parts(self) -> (Pin, Row<Op>, Row<Reply>)
        ensures pin { result.0 ≡ self.pin }
        ensures ops { result.1 ≡ self.ops }
        ensures replies { result.2 ≡ self.replies }
    {
        let Tx {
            alloc: _,
            pin,
            work: _,
            ops,
            replies,
        } = self;
        (pin, ops, replies)
    }
}

/// Runs the last of some operations.
fn apply_last(alloc: Global, work: &mut Work, ops: &Row<Op>) -> Result<Reply, NoMemory>
    ensures done { IfOk result (λ reply. (before : List Op') (op : Op') → ops.now ≡ before ++ op ∷ [] → IsDone work.old work.new op reply) }
    ensures failed { OnErr result (work.new ≡ work.old) }
{
    match ops.as_slice().last() {
        Some(op) => apply_op(alloc, work, op),
        None => Err(NoMemory),
    }
}
