//! `Db`: the shared database.
ghost use Rattle.std.specs.Prelude.{◌≡◌, ◌≤◌, All, IfOk};
ghost use Rattle.turn_cell.specs.Seats.{HasEachSeat, taken};
ghost use Rattle.db_share.specs.Passes.{IsReady, HasPin, story};
ghost use Rattle.db_share.specs.Calls.{GoesOn, Opens, Closes, HasPinned, HasPinnedAt, HasReleased, HasCollected, HasCommitted};
ghost use Rattle.db_share.specs.Inside.{Enters, HasTurn, Leaves, Steps};
ghost use Rattle.turn_cell.specs.declared.limits.TheConstants.{MOST_SEATS};

use crate::events::{commit_adds, pin_at_adds};
use db_core::{CollectError, CommitError, Core, Pin, PinAtError, PinError, Tx};
use db_spec::Event;
use netlist_schema::{Design, NoMemory};
use std::alloc::Global;
use std::marker::Model;
use std::sync::Wait;
use turn_cell::{Logged, Turn, TurnSeat};

/// The core behind the turn: its base is the opening design, its list is the log, and the number of an entry is its caller.
#[derive(Drop)]
pub struct SharedCore {
    core: Core,
}

impl Model for SharedCore {
    ghost use Rattle.db_core.specs.Story.{Story};

    ghost Value = { Story };

    ghost view = { λ s. s.core };
}

impl Logged for SharedCore {
    type Base = Design;

    type Entry = Event;

    ghost base = { λ s. s.opening };

    ghost entries = { λ s. s.events };

    ghost made_by = { λ e. e.caller };
}

/// What a caller makes its calls with. It has a number, from 0, which `number` tells, and clauses see the events that it has
/// seen and its own ones. It may go from thread to thread.
pub type Pass = TurnSeat<SharedCore>;

/// A design that up to 64 callers share, in versions. It is shared by `&`; each caller has a `Pass`.
///
/// A call with a pass waits for its turn. What the pass has seen is then a front of the log, which is legal from the opening design,
/// and goes on from what it had seen before; its own events there are those of its calls, each once. A call that is an event
/// adds it to the log as its last one, and the pass has seen the whole log up to it. After each call the pass is at rest: no other
/// caller waits for it.
pub struct Db {
    turn: Turn<SharedCore>,
}

impl Drop for Db {
    fn drop(self) {
        let Db { turn: _ } = self;
    }
}

impl Model for Db {
    ghost use Rattle.db_share.specs.Passes.{Shared};

    ghost Value = { Shared };

    ghost view = { λ s. s.turn };
}

impl Db {
    /// A database with this design as version 0, which is kept, an empty log, and a pass for each of 1 to 64 callers, in the
    /// order of their numbers from 0. No pass is made later. After `NoMemory` the design is dropped.
    pub fn new(alloc: Global, design: Design, callers: u32) -> Result<(Db, Vec<Pass>), NoMemory>
        requires { (1 ≤ callers) × (callers ≤ MOST_SEATS) }
        ensures { IfOk result (λ r. Opens design callers r.0 r.1.items) }
    {
        let core = Core::new(alloc, design)?;
        core.history_is_legal();
        let (turn, passes) = Turn::new(alloc, SharedCore { core }, callers)?;
        Ok((Db { turn }, passes))
    }

    // Waits for the turn and takes the core.
    fn enter(&self, rt: &impl Wait, pass: &mut Pass) -> SharedCore
        requires { IsReady self.now pass.old }
        ensures enters { Enters self.now pass.old pass.new }
        ensures core { result ≡ story self.now (taken pass.new) }
    {
        let shared = self.turn.enter(rt, pass);
        shared.core.history_is_legal();
        shared
    }

    // Gives the core back, with one event more of this pass or none, and lets the next caller in.
    fn leave(&self, pass: &mut Pass, shared: SharedCore, added: bool)
        requires turn { HasTurn self.now pass.old }
        requires steps { Steps pass.old.number added (story self.now (taken pass.old)) shared }
        ensures { Leaves self.now pass.old pass.new shared }
    {
        shared.core.history_is_legal();
        self.turn.leave(pass, shared, added);
    }

    /// Pins the last version. Pins are numbered from 0 in the order of the log. `LogFull` comes exactly where the log has no
    /// room for the pin and its release. Neither refusal is an event, and after it the log is as it was at that turn.
    pub fn pin(&self, rt: &impl Wait, _alloc: Global, pass: &mut Pass) -> Result<Pin, PinError>
        requires { IsReady self.now pass.old }
        ensures on { GoesOn self.now pass.old pass.new }
        ensures answer { HasPinned self.now pass.old pass.new result }
    {
        let mut shared = self.enter(rt, pass);
        let pinned = shared.core.pin(pass.number());
        self.leave(pass, shared, pinned.is_ok());
        pinned
    }

    /// Pins a version. The refusals come in this order: `LogFull`, exactly where the log has no room for the pin and its
    /// release; `NoVersion`, exactly where the version passes the last one; `Gone`, exactly where it is not kept. `NoVersion`
    /// and `Gone` are events. After `LogFull` and `NoMemory` the log is as it was at that turn.
    pub fn pin_at(
        &self,
        rt: &impl Wait,
        _alloc: Global,
        pass: &mut Pass,
        version: u64,
    ) -> Result<Pin, PinAtError>
        requires { IsReady self.now pass.old }
        ensures on { GoesOn self.now pass.old pass.new }
        ensures answer { HasPinnedAt self.now pass.old pass.new version result }
    {
        let mut shared = self.enter(rt, pass);
        let pinned = shared.core.pin_at(pass.number(), version);
        let added = pin_at_adds(&pinned);
        self.leave(pass, shared, added);
        pinned
    }

    /// Ends a live pin of this pass. It is never refused and takes no memory: its place in the log was taken by the pin.
    pub fn release(&self, rt: &impl Wait, pass: &mut Pass, pin: Pin)
        requires ready { IsReady self.now pass.old }
        requires pin { HasPin self.now pass.old pin }
        ensures on { GoesOn self.now pass.old pass.new }
        ensures answer { HasReleased self.now pass.old pass.new pin }
    {
        let mut shared = self.enter(rt, pass);
        shared.core.release(pin);
        self.leave(pass, shared, true);
    }

    /// Drops the versions that no live pin holds, all but the last one, and answers how many. `LogFull` comes exactly where the
    /// log has no room for the event. Neither refusal is an event, and after it the log is as it was at that turn.
    pub fn collect(
        &self,
        rt: &impl Wait,
        alloc: Global,
        pass: &mut Pass,
    ) -> Result<u32, CollectError>
        requires { IsReady self.now pass.old }
        ensures on { GoesOn self.now pass.old pass.new }
        ensures answer { HasCollected self.now pass.old pass.new result }
    {
        let mut gone = Vec::new(alloc);
        let mut shared = self.enter(rt, pass);
        let collected = shared.core.collect_into(pass.number(), &mut gone);
        self.leave(pass, shared, collected.is_ok());
        collected
    }

    /// Runs the operations of a transaction, whose pin is a live one of this pass, on the last version, which makes the next
    /// one, and answers its number and the pin, which stays live. The replies there are those that the transaction has. First
    /// `LogFull` comes exactly where the log has no room for the event; then `Conflict` exactly where a commit after the pinned
    /// version wrote what the transaction read, with the least such object and its last commit. On each refusal the transaction
    /// comes back as it was. `Conflict` is an event. After `LogFull` and `NoMemory` the log is as it was at that turn.
    pub fn commit(
        &self,
        rt: &impl Wait,
        _alloc: Global,
        pass: &mut Pass,
        tx: Tx,
    ) -> Result<(u64, Pin), (CommitError, Tx)>
        requires ready { IsReady self.now pass.old }
        requires pin { HasPin self.now pass.old tx.pin }
        ensures on { GoesOn self.now pass.old pass.new }
        ensures answer { HasCommitted self.now pass.old pass.new tx result }
    {
        let mut left = None;
        let mut shared = self.enter(rt, pass);
        let committed = shared.core.commit_into(tx, &mut left);
        let added = commit_adds(&committed);
        self.leave(pass, shared, added);
        committed
    }

    /// Gives the core back. All passes of this database come, in any order. Takes no memory and waits for nobody.
    pub fn close(self, passes: Vec<Pass>) -> Core
        requires ready { All (IsReady self) passes.items }
        requires all { HasEachSeat self.seats passes.items }
        ensures { Closes self passes.items result }
    {
        let Db { turn } = self;
        let SharedCore { core } = turn.close(passes);
        core.history_is_legal();
        core
    }
}
