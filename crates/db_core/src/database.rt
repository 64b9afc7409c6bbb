//! `Core`: the database of one thread.
ghost use Rattle.std.specs.Prelude.{◌≡◌, [], ◌+◌, ◌<◌, ◌≤◌, ◌↔◌, length, IfErr, IfOk, IfSome, IsNone, IsTrue, MatchOption, OnErr, OnOk};
ghost use Rattle.netlist_schema.specs.Valid.{IsValid};
ghost use Rattle.db_spec.specs.State.{IsLive, changed, head};
ghost use Rattle.db_spec.specs.Answers.{Admits, HasPlaces, HasNoConflict, IsConflict, IsKept, IsLeastKept, most_events};
ghost use Rattle.db_spec.specs.Laws.{IsTypedCall};
ghost use Rattle.db_core.specs.Story.{IsHistory, IsPinOf, shot, state};
ghost use Rattle.db_core.specs.Calls.{Accepts, Adds, Collects, Commits, IsRefused, Pins, PinsAt, PinsHead, Releases, event_of};
ghost use Rattle.db_core.specs.declared.database.TheConstants.{MOST_MORE};

use crate::errors::{CollectError, CommitError, PinAtError, PinError};
use crate::kept::{find, first_of, keep_held, share_dropped};
use crate::next::next_version;
use crate::vecs::make_room;
use conflict_check::{Later, Stamps};
use db_spec::{Answer, Call, Event};
use edit_tx::{Left, Pin, Snapshot, Tx, Version};
use netlist_schema::{Copied, Design, MOST_EVENTS, NoMemory, design_is_valid};
use pin_registry::Pins as Registry;
use std::alloc::Global;
use std::marker::Model;
use std::sync::Arc;

/// The most places that one call asks for.
const MOST_MORE: usize = 2;

/// A design that callers share, in versions. Contracts see its opening design and the history of the calls.
pub struct Core {
    alloc: Global,
    /// The design that the history begins with. It does not count as a kept version.
    opening: Snapshot,
    /// The kept versions, from the least on.
    versions: Vec<Snapshot>,
    /// The last version.
    head: Snapshot,
    pins: Registry,
    stamps: Stamps,
    /// The history, with a place for the release of each live pin.
    log: Vec<Event>,
}

impl Drop for Core {
    fn drop(self) {
        let Core {
            alloc: _,
            opening: _,
            versions: _,
            head: _,
            pins: _,
            stamps: _,
            log: _,
        } = self;
    }
}

impl Model for Core {
    ghost use Rattle.db_core.specs.Story.{Story};

    ghost Value = { Story };

    ghost use Rattle.db_core.specs.Inside.{story_of, IsCore};

    ghost view = { story_of };

    ghost invariant = { IsCore };
}

impl Core {
    /// A database with this design as version 0, which is kept, and no events. The one error is that an allocation was
    /// refused; the design is dropped then.
    pub fn new(alloc: Global, design: Design) -> Result<Core, NoMemory>
        ensures { IfOk result (λ core. core ≡ record { opening = design; events = [] }) }
    {
        let opening = Snapshot::of(0, Arc::new(alloc, Version::of(alloc, design)?)?);
        design_is_valid(&opening);
        let head = opening.share()?;
        let first = opening.share()?;
        let mut versions = Vec::new(alloc);
        versions.push(first)?;
        Ok(Core {
            alloc,
            opening,
            versions,
            head,
            pins: Registry::new(alloc),
            stamps: Stamps::new(alloc),
            log: Vec::new(alloc),
        })
    }

    /// The history: the events, in order. Takes no memory.
    pub fn log(&self) -> &[Event]
        ensures events { result.now ≡ self.now.events }
        ensures history { IsHistory self.now }
        ensures short { length self.now.events ≤ most_events }
    {
        self.log.as_slice()
    }

    /// Tells what each history keeps: it is legal, and within its limit. Takes no memory, and does nothing.
    pub fn history_is_legal(&self)
        ensures history { IsHistory self.now }
        ensures short { length self.now.events ≤ most_events }
    {
        let _ = &self.log;
    }

    /// Lends the design that the history begins with, whether version 0 is still kept or not. Takes no memory.
    pub fn opening(&self) -> &Snapshot
        ensures value { result.now ≡ record { version = 0; design = self.now.opening } }
        ensures valid { IsValid self.now.opening }
    {
        &self.opening
    }

    /// Lends the last version. Takes no memory.
    pub fn head(&self) -> &Snapshot
        ensures { result.now ≡ shot (state self.now) (head (state self.now)) }
    {
        &self.head
    }

    /// Lends a kept version: `None` exactly where the version is not kept. Takes no memory.
    pub fn version(&self, version: u64) -> Option<&Snapshot>
        ensures { MatchOption result (¬ IsKept (state self.now) version) (λ kept. IsKept (state self.now) version × (kept.now ≡ shot (state self.now) version)) }
    {
        find(self.versions.as_slice(), version)
    }

    /// The number of kept versions. Takes no memory.
    pub fn kept(&self) -> u32
        ensures { result ≡ length (state self.now).kept }
    {
        self.versions.len() as u32
    }

    /// Whether the history has this many places more, beside those of the releases of the live pins.
    fn has_places(&self, more: usize) -> bool
        requires { more ≤ MOST_MORE }
        ensures { IsTrue result ↔ HasPlaces (state self.now) more }
    {
        (self.log.len() + self.pins.live() as usize + more) as u64 <= MOST_EVENTS
    }

    /// Adds an event that changes nothing else.
    fn note(&mut self, event: Event) -> Result<(), NoMemory>
        requires places { HasPlaces (state self.old) 1 }
        requires admits { Admits (state self.old) event }
        requires same { changed (state self.old) event.caller event.call event.answer ≡ state self.old }
        requires typed { IsTypedCall event.call }
        ensures ok { OnOk result (Adds self.old self.new event) }
        ensures err { OnErr result (self.new ≡ self.old) }
    {
        let taken = self.pins.live() as usize + 1;
        make_room(&mut self.log, taken)?;
        self.log.push_reserved(event);
        Ok(())
    }

    /// Makes a pin on a version, as the answer to a call.
    fn hold(&mut self, caller: u32, at: Snapshot, call: Call) -> Result<Pin, NoMemory>
        requires places { HasPlaces (state self.old) 2 }
        requires shot { at ≡ shot (state self.old) at.version }
        requires admits { Admits (state self.old) (event_of caller call (Answer.Pinned (state self.old).made at.version)) }
        requires typed { IsTypedCall call }
        ensures ok { IfOk result (λ pin. Pins self.old self.new caller call pin) }
        ensures err { OnErr result (self.new ≡ self.old) }
    {
        let taken = self.pins.live() as usize + 2;
        make_room(&mut self.log, taken)?;
        let version = at.version();
        let number = self.pins.add(version)?;
        self.log.push_reserved(Event {
            caller,
            call,
            answer: Answer::Pinned {
                pin: number,
                version,
            },
        });
        Ok(Pin::of(number, caller, at))
    }

    /// Pins the last version. `LogFull` comes exactly where the history has no room for the pin and its release. At an error
    /// nothing was changed.
    pub fn pin(&mut self, caller: u32) -> Result<Pin, PinError>
        ensures { PinsHead self.old self.new caller result }
    {
        if !self.has_places(2) {
            return Err(PinError::LogFull);
        }
        let Ok(at) = self.head.share() else {
            return Err(PinError::NoMemory);
        };
        match self.hold(caller, at, Call::Pin) {
            Ok(pin) => Ok(pin),
            Err(NoMemory) => Err(PinError::NoMemory),
        }
    }

    /// Pins a version. The refusals come in this order: `LogFull`, exactly where the history has no room for the pin and its
    /// release; `NoVersion`, exactly where the version passes the last one; `Gone`, exactly where it is not kept. The last two
    /// are events. At the other errors nothing was changed.
    pub fn pin_at(&mut self, caller: u32, version: u64) -> Result<Pin, PinAtError>
        ensures { PinsAt self.old self.new caller version result }
    {
        if !self.has_places(2) {
            return Err(PinAtError::LogFull);
        }
        let last = self.head_version();
        if version > last {
            return self.passes(caller, version, last);
        }
        let Ok(found) = self.share_of(version) else {
            return Err(PinAtError::NoMemory);
        };
        let Some(at) = found else {
            return self.gone(caller, version);
        };
        match self.hold(caller, at, Call::PinAt(version)) {
            Ok(pin) => Ok(pin),
            Err(NoMemory) => Err(PinAtError::NoMemory),
        }
    }

    /// The number of the last version.
    fn head_version(&self) -> u64
        ensures { result ≡ head (state self.now) }
    {
        self.head.version()
    }

    /// Answers that there is no such version yet.
    fn passes(&mut self, caller: u32, version: u64, last: u64) -> Result<Pin, PinAtError>
        requires places { HasPlaces (state self.old) 2 }
        requires is_last { last ≡ head (state self.old) }
        requires past { last < version }
        ensures { PinsAt self.old self.new caller version result }
    {
        match self.note(Event {
            caller,
            call: Call::PinAt(version),
            answer: Answer::NoVersion(last),
        }) {
            Ok(()) => Err(PinAtError::NoVersion { head: last }),
            Err(NoMemory) => Err(PinAtError::NoMemory),
        }
    }

    /// A kept version, shared: `None` exactly where the version is not kept.
    fn share_of(&self, version: u64) -> Result<Option<Snapshot>, NoMemory>
        ensures { IfOk result (λ found. MatchOption found (¬ IsKept (state self.now) version) (λ at. IsKept (state self.now) version × (at ≡ shot (state self.now) version))) }
    {
        match self.version(version) {
            Some(kept) => Ok(Some(kept.share()?)),
            None => Ok(None),
        }
    }

    /// The number of the least kept version.
    fn least(&self) -> u64
        ensures { IsLeastKept (state self.now) result }
    {
        first_of(self.versions.as_slice()).unwrap_or(0)
    }

    /// Answers that a version is kept no longer.
    fn gone(&mut self, caller: u32, version: u64) -> Result<Pin, PinAtError>
        requires places { HasPlaces (state self.old) 2 }
        requires there { version ≤ head (state self.old) }
        requires away { ¬ IsKept (state self.old) version }
        ensures { PinsAt self.old self.new caller version result }
    {
        let least = self.least();
        match self.note(Event {
            caller,
            call: Call::PinAt(version),
            answer: Answer::Gone(least),
        }) {
            Ok(()) => Err(PinAtError::Gone { least }),
            Err(NoMemory) => Err(PinAtError::NoMemory),
        }
    }

    /// Ends a live pin of this database. It is never refused, and takes no memory: the pin took the place of its event.
    pub fn release(&mut self, pin: Pin)
        requires { IsLive (state self.old) pin.number pin.caller pin.version }
        ensures { Releases self.old self.new pin }
    {
        let number = pin.number();
        let caller = pin.caller();
        self.pins.remove(number);
        self.log.push_reserved(Event {
            caller,
            call: Call::Release(number),
            answer: Answer::Released,
        });
    }

    /// Drops the versions that no live pin holds, all but the last one, and answers how many. `LogFull` comes exactly where
    /// the history has no room for the event. At an error nothing was changed.
    pub fn collect(&mut self, caller: u32) -> Result<u32, CollectError>
        ensures { Collects self.old self.new caller result }
    {
        let mut gone = Vec::new(self.alloc);
        self.collect_into(caller, &mut gone)
    }

    /// The same, and puts a share of each dropped version on a list, so that what the versions hold is let go with the list and not
    /// within the call.
    pub fn collect_into(
        &mut self,
        caller: u32,
        gone: &mut Vec<Snapshot>,
    ) -> Result<u32, CollectError>
        ensures { Collects self.old self.new caller result }
    {
        if !self.has_places(1) {
            return Err(CollectError::LogFull);
        }
        let Ok(()) = self.share_gone(gone) else {
            return Err(CollectError::NoMemory);
        };
        let taken = self.pins.live() as usize + 1;
        let Ok(()) = make_room(&mut self.log, taken) else {
            return Err(CollectError::NoMemory);
        };
        let before = self.versions.len();
        keep_held(&mut self.versions, self.head.version(), &self.pins);
        let dropped = (before - self.versions.len()) as u32;
        self.log.push_reserved(Event {
            caller,
            call: Call::Collect,
            answer: Answer::Collected(dropped),
        });
        Ok(dropped)
    }

    /// Shares the versions that a collect drops.
    fn share_gone(&self, gone: &mut Vec<Snapshot>) -> Result<(), NoMemory> {
        share_dropped(
            self.versions.as_slice(),
            self.head.version(),
            &self.pins,
            gone,
        )
    }

    /// Runs the operations of a transaction on the last version, which makes the next one, and gives its number and the pin.
    /// It costs what they touch, and their replies are those that the transaction has. First `LogFull` comes exactly where the
    /// history has no room for the event, then `Conflict` exactly where a commit after the pinned version wrote what they
    /// read; that is an event. At the other errors nothing was changed. At each error the transaction comes back as it was.
    pub fn commit(&mut self, tx: Tx) -> Result<(u64, Pin), (CommitError, Tx)>
        requires { IsPinOf self.old tx.pin }
        ensures { Commits self.old self.new tx result }
    {
        let mut left = None;
        self.commit_into(tx, &mut left)
    }

    /// The same, and puts what is left of an accepted transaction in a place, so that it is let go with the place and not within the
    /// call.
    pub fn commit_into(
        &mut self,
        tx: Tx,
        left: &mut Option<Left>,
    ) -> Result<(u64, Pin), (CommitError, Tx)>
        requires { IsPinOf self.old tx.pin }
        ensures { Commits self.old self.new tx result }
    {
        if !self.has_places(1) {
            return Err((CommitError::LogFull, tx));
        }
        match self.first_later(&tx) {
            Some(later) => {
                let error = self.refuse(&tx, later);
                Err((error, tx))
            }
            None => match self.accept(tx, left) {
                Ok(done) => Ok(done),
                Err(back) => Err((CommitError::NoMemory, back)),
            },
        }
    }

    /// The first object that a transaction read and a later commit wrote.
    fn first_later(&self, tx: &Tx) -> Option<Later>
        requires { IsPinOf self.now tx.now.pin }
        ensures none { IsNone result → HasNoConflict (state self.now) tx.now.pin.version tx.now.ops }
        ensures some { IfSome result (λ later. IsConflict (state self.now) tx.now.pin.version tx.now.ops later.object later.version) }
    {
        self.stamps.first_later(tx.reads(), tx.pin().version())
    }

    /// Makes the version of a commit that clashes with none. All memory is taken before anything is changed: where it is
    /// refused, the transaction comes back.
    fn accept(&mut self, tx: Tx, left: &mut Option<Left>) -> Result<(u64, Pin), Tx>
        requires places { HasPlaces (state self.old) 1 }
        requires pin { IsPinOf self.old tx.pin }
        requires free { HasNoConflict (state self.old) tx.pin.version tx.ops }
        ensures ok { IfOk result (λ done. Accepts self.old self.new tx done.0 done.1) }
        ensures err { IfErr result (λ back. (back ≡ tx) × (self.new ≡ self.old)) }
    {
        let version = self.head.version() + 1;
        let Ok(next) = next_version(self.alloc, &tx, &self.head, version) else {
            return Err(tx);
        };
        let Ok(kept) = next.share() else {
            return Err(tx);
        };
        let taken = self.pins.live() as usize + 1;
        let Ok(()) = make_room(&mut self.versions, 1) else {
            return Err(tx);
        };
        let Ok(()) = make_room(&mut self.log, taken) else {
            return Err(tx);
        };
        let Ok(()) = self.stamps.mark(tx.written(), version) else {
            return Err(tx);
        };
        self.versions.push_reserved(kept);
        self.head = next;
        let (pin, ops, replies, rest) = tx.split();
        *left = Some(rest);
        self.log.push_reserved(Event {
            caller: pin.caller(),
            call: Call::Commit {
                pin: pin.number(),
                ops,
            },
            answer: Answer::Committed { version, replies },
        });
        Ok((version, pin))
    }

    /// Answers that a commit clashes.
    fn refuse(&mut self, tx: &Tx, later: Later) -> CommitError
        requires places { HasPlaces (state self.old) 1 }
        requires pin { IsPinOf self.old tx.now.pin }
        requires conflict { IsConflict (state self.old) tx.now.pin.version tx.now.ops later.object later.version }
        ensures { IsRefused self.old self.new tx.now result }
    {
        let Ok(ops) = tx.ops().copy(self.alloc) else {
            return CommitError::NoMemory;
        };
        match self.note(Event {
            caller: tx.pin().caller(),
            call: Call::Commit {
                pin: tx.pin().number(),
                ops,
            },
            answer: Answer::Conflict {
                object: later.object,
                version: later.version,
            },
        }) {
            Ok(()) => CommitError::Conflict {
                object: later.object,
                version: later.version,
            },
            Err(NoMemory) => CommitError::NoMemory,
        }
    }
}
