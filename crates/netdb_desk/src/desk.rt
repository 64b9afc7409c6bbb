//! `Desk`: a database with seats.
ghost use Rattle.std.specs.Prelude.{◌≡◌, ◌<◌, ◌↔◌, IfNone, IfOk, IfSome, IsTrue, None, Some};
ghost use Rattle.std.specs.Option.{option_copied, option_map};
ghost use Rattle.db_spec.specs.State.{head};
ghost use Rattle.db_core.specs.Story.{IsHistory, shot, state};
ghost use Rattle.netdb_desk.specs.declared.held.Held.TheVariants.{Nothing, OnPin, InTx};
ghost use Rattle.netdb_desk.specs.Seats.{IsHeldBy, IsPinAt, held_at, pin_of, with_seat};
ghost use Rattle.netdb_desk.specs.Calls.{AbandonsSeat, BeginsSeat, CollectsSeat, CommitsSeat, HasPin, HasTx, IsFree, IsOpened, IsWrong, PinsSeat, PinsSeatAt, ReleasesSeat, RunsIn, RunsSeat, last_reply, seen_at};

use crate::held::{Held, WrongUse};
use crate::limits::SEATS;
use crate::line::{LineError, op_of};
use crate::seats::{empty_seats, look, swap};
use db_core::{CollectError, CommitError, Core, PinAtError, PinError};
use db_spec::Event;
use edit_spec::Reply;
use edit_tx::{Pin, Snapshot, Tx};
use netlist_schema::{Design, NoMemory};
use std::alloc::Global;
use std::marker::Model;

/// A database with 64 seats, numbered from 0. Each seat is a caller of its own: it holds nothing, a pin, or a transaction. Contracts see
/// the history and what the seats hold.
///
/// A call for a seat that is none, or that holds what does not fit, is a `WrongUse` and changes nothing. Each other call is one call of
/// the database by the caller that has the seat's number, and its answer is that one's.
pub struct Desk {
    alloc: Global,
    core: Core,
    seats: Vec<Held>,
}

impl Drop for Desk {
    fn drop(self) {
        let Desk {
            alloc: _,
            core: _,
            seats: _,
        } = self;
    }
}

impl Model for Desk {
    ghost use Rattle.netdb_desk.specs.Seats.{DeskFacts, IsDesk};

    ghost Value = { DeskFacts };

    ghost view = { λ d. record { story = d.core; seats = d.seats.items } };

    ghost invariant = { λ d. IsDesk (record { story = d.core; seats = d.seats.items }) };
}

impl Desk {
    /// The database of a design, at whose seats nothing is held. The one error is that an allocation was refused; the design is dropped
    /// then.
    pub fn open(alloc: Global, design: Design) -> Result<Desk, NoMemory>
        ensures { IfOk result (IsOpened design) }
    {
        let seats = empty_seats(alloc)?;
        let core = Core::new(alloc, design)?;
        Ok(Desk { alloc, core, seats })
    }

    /// The history: the events, in order. Takes no memory.
    pub fn log(&self) -> &[Event]
        ensures events { result.now ≡ self.now.story.events }
        ensures history { IsHistory self.now.story }
    {
        self.core.log()
    }

    /// Lends the last version. Takes no memory.
    pub fn head(&self) -> &Snapshot
        ensures { result.now ≡ shot (state self.now.story) (head (state self.now.story)) }
    {
        self.core.head()
    }

    /// Lends the version that a seat holds, alone or in a transaction: `None` exactly where it holds none. Takes no memory.
    pub fn seen(&self, seat: u32) -> Option<&Snapshot>
        ensures value { option_copied result ≡ option_map seen_at (pin_of (held_at self.now seat)) }
        ensures version { IfSome result (λ seen. seen.now ≡ shot (state self.now.story) seen.now.version) }
    {
        match look(self.seats.as_slice(), seat)? {
            Held::Nothing => None,
            Held::OnPin(pin) => Some(pin.snapshot_ref()),
            Held::InTx(tx) => Some(tx.pin().snapshot_ref()),
        }
    }

    /// Lends the reply to the last operation of a seat's transaction: `None` exactly where it holds none, or one of which nothing was run.
    /// Takes no memory.
    pub fn reply(&self, seat: u32) -> Option<&Reply>
        ensures { option_copied result ≡ last_reply (held_at self.now seat) }
    {
        match look(self.seats.as_slice(), seat)? {
            Held::InTx(tx) => tx.replies().as_slice().last(),
            Held::Nothing | Held::OnPin(_) => None,
        }
    }

    /// Whether a seat is one and holds nothing.
    fn is_free(&self, seat: u32) -> bool
        ensures { IsTrue result ↔ IsFree self.now seat }
    {
        match look(self.seats.as_slice(), seat) {
            Some(Held::Nothing) => true,
            Some(Held::OnPin(_) | Held::InTx(_)) | None => false,
        }
    }

    /// Puts what a seat is to hold in its place.
    #[tactic(auto, using(crate::proofs::Seating::desk_with))]
    fn put(&mut self, seat: u32, held: Held)
        requires { IsHeldBy self.old.story seat (Some held) }
        ensures { self.new ≡ with_seat self.old seat held }
    {
        swap(&mut self.seats, seat, held);
    }

    /// Takes what a seat holds, where it is one. It holds nothing then.
    #[tactic(auto, using(crate::proofs::Seating::desk_with))]
    fn take(&mut self, seat: u32) -> Option<Held>
        ensures was { result ≡ held_at self.old seat }
        ensures own { IsHeldBy self.old.story seat result }
        ensures left { self.new ≡ with_seat self.old seat Nothing }
    {
        swap(&mut self.seats, seat, Held::Nothing)
    }

    /// Takes the pin that a seat holds: `None` exactly where it holds none with no transaction, and then nothing is changed.
    #[tactic(auto, using(crate::proofs::Rows::set_absent, crate::proofs::Rows::set_same, crate::proofs::Seating::put_back))]
    fn take_pin(&mut self, seat: u32) -> Option<Pin>
        ensures none { IfNone result (IsWrong self.old self.new (HasPin self.old seat)) }
        ensures some { IfSome result (λ pin. (held_at self.old seat ≡ Some (OnPin pin)) × (self.new ≡ with_seat self.old seat Nothing)) }
        ensures own { IfSome result (λ pin. IsPinAt self.old.story seat pin) }
    {
        match self.take(seat)? {
            Held::OnPin(pin) => Some(pin),
            Held::Nothing => None,
            Held::InTx(tx) => {
                self.put(seat, Held::InTx(tx));
                None
            }
        }
    }

    /// Takes the transaction that a seat holds: `None` exactly where it holds none, and then nothing is changed.
    #[tactic(auto, using(crate::proofs::Rows::set_absent, crate::proofs::Rows::set_same, crate::proofs::Seating::put_back))]
    fn take_tx(&mut self, seat: u32) -> Option<Tx>
        ensures none { IfNone result (IsWrong self.old self.new (HasTx self.old seat)) }
        ensures some { IfSome result (λ tx. (held_at self.old seat ≡ Some (InTx tx)) × (self.new ≡ with_seat self.old seat Nothing)) }
        ensures own { IfSome result (λ tx. IsPinAt self.old.story seat tx.pin) }
    {
        match self.take(seat)? {
            Held::InTx(tx) => Some(tx),
            Held::Nothing => None,
            Held::OnPin(pin) => {
                self.put(seat, Held::OnPin(pin));
                None
            }
        }
    }

    /// Pins the last version for a seat that holds nothing, and gives its number. `LogFull` comes exactly where the history has no room for
    /// the pin and its release. At an error nothing was changed.
    #[tactic(auto, using(crate::proofs::Seating::desk_pins, crate::proofs::Seating::desk_unpinned))]
    pub fn pin(&mut self, seat: u32) -> Result<Result<u64, PinError>, WrongUse>
        ensures { PinsSeat self.old self.new seat result }
    {
        if !self.is_free(seat) {
            return Err(WrongUse);
        }
        self.core.history_is_legal();
        match self.core.pin(seat) {
            Ok(pin) => {
                let version = pin.version();
                swap(&mut self.seats, seat, Held::OnPin(pin));
                Ok(Ok(version))
            }
            Err(error) => Ok(Err(error)),
        }
    }

    /// Pins a version for a seat that holds nothing, and gives its number. `NoVersion` and `Gone` are events, and say the last version or
    /// the least that is kept; `LogFull` comes as of `pin`. The seat holds nothing then.
    #[tactic(auto, using(crate::proofs::Seating::desk_pins_at, crate::proofs::Seating::desk_unpinned_at))]
    pub fn pin_at(&mut self, seat: u32, version: u64) -> Result<Result<u64, PinAtError>, WrongUse>
        ensures { PinsSeatAt self.old self.new seat version result }
    {
        if !self.is_free(seat) {
            return Err(WrongUse);
        }
        self.core.history_is_legal();
        match self.core.pin_at(seat, version) {
            Ok(pin) => {
                let version = pin.version();
                swap(&mut self.seats, seat, Held::OnPin(pin));
                Ok(Ok(version))
            }
            Err(error) => Ok(Err(error)),
        }
    }

    /// Releases a seat's pin, which holds nothing then. It is never refused, and takes no memory.
    #[tactic(auto, using(crate::proofs::Seating::desk_released))]
    pub fn release(&mut self, seat: u32) -> Result<(), WrongUse>
        ensures { ReleasesSeat self.old self.new seat result }
    {
        let Some(pin) = self.take_pin(seat) else {
            return Err(WrongUse);
        };
        self.core.history_is_legal();
        self.core.release(pin);
        Ok(())
    }

    /// Begins a transaction on a seat's pin. At `NoMemory` nothing was changed.
    pub fn begin(&mut self, seat: u32) -> Result<Result<(), NoMemory>, WrongUse>
        ensures { BeginsSeat self.old self.new seat result }
    {
        let Some(pin) = self.take_pin(seat) else {
            return Err(WrongUse);
        };
        match Tx::start(self.alloc, pin) {
            Ok(tx) => {
                self.put(seat, Held::InTx(tx));
                Ok(Ok(()))
            }
            Err((NoMemory, pin)) => {
                self.put(seat, Held::OnPin(pin));
                Ok(Err(NoMemory))
            }
        }
    }

    /// Runs the operation that a line says in a seat's transaction; `reply` lends what it answers. At an error nothing was changed.
    pub fn line(&mut self, seat: u32, text: &[u8]) -> Result<Result<(), LineError>, WrongUse>
        ensures { RunsSeat self.old self.new seat text.now result }
    {
        let Some(mut tx) = self.take_tx(seat) else {
            return Err(WrongUse);
        };
        let answer = run_line(self.alloc, &mut tx, text);
        self.put(seat, Held::InTx(tx));
        Ok(answer)
    }

    /// Commits a seat's transaction, and gives the number of the version that it makes; the seat holds its pin then. First `LogFull` comes
    /// exactly where the history has no room for the event, then `Conflict` exactly where a commit after the pinned version wrote what the
    /// transaction read; that is an event, and says the object and the version. At an error the transaction goes on as it was.
    #[tactic(auto, using(crate::proofs::Seating::desk_commits, crate::proofs::Seating::desk_goes_on))]
    pub fn commit(&mut self, seat: u32) -> Result<Result<u64, CommitError>, WrongUse>
        ensures { CommitsSeat self.old self.new seat result }
    {
        let Some(tx) = self.take_tx(seat) else {
            return Err(WrongUse);
        };
        self.core.history_is_legal();
        match self.core.commit(tx) {
            Ok((version, pin)) => {
                swap(&mut self.seats, seat, Held::OnPin(pin));
                Ok(Ok(version))
            }
            Err((error, tx)) => {
                swap(&mut self.seats, seat, Held::InTx(tx));
                Ok(Err(error))
            }
        }
    }

    /// Ends a seat's transaction without a commit; the seat holds its pin then. Takes no memory.
    pub fn abandon(&mut self, seat: u32) -> Result<(), WrongUse>
        ensures { AbandonsSeat self.old self.new seat result }
    {
        let Some(tx) = self.take_tx(seat) else {
            return Err(WrongUse);
        };
        self.put(seat, Held::OnPin(tx.abandon()));
        Ok(())
    }

    /// Drops the versions that no seat holds, all but the last one, and answers how many. `LogFull` comes exactly where the history has no
    /// room for the event. At an error nothing was changed.
    #[tactic(auto, using(crate::proofs::Seating::desk_collects))]
    pub fn collect(&mut self, seat: u32) -> Result<Result<u32, CollectError>, WrongUse>
        ensures { CollectsSeat self.old self.new seat result }
    {
        if seat >= SEATS {
            return Err(WrongUse);
        }
        self.core.history_is_legal();
        Ok(self.core.collect(seat))
    }
}

/// Runs the operation that a line says. At an error the transaction is as it was.
fn run_line(alloc: Global, tx: &mut Tx, text: &[u8]) -> Result<(), LineError>
    ensures run { RunsIn tx.old tx.new text.now result }
    ensures pin { tx.new.pin ≡ tx.old.pin }
{
    let op = op_of(alloc, text)?;
    match tx.run(op) {
        Ok(_) => Ok(()),
        Err(NoMemory) => Err(LineError::NoMemory),
    }
}
