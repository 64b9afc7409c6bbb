//! What a script holds between two of its lines, and why it stops before its end.
ghost use Rattle.std.specs.Prelude.{◌≡◌};
ghost use Rattle.script_spec.specs.Session.{last_release};
ghost use Rattle.script_run_spec.specs.Calls.{Makes};
ghost use Rattle.db_share.specs.Passes.{IsReady};
ghost use Rattle.db_share.specs.Calls.{GoesOn};
ghost use Rattle.script_held.specs.Holding.{IsHeldBy, ended_full, filled, held_of, left_held, pin_held, held_after};

use db_share::{Db, Pass, Pin, Tx};
use netlist_schema::NoMemory;
use std::sync::Wait;

/// A transaction that a line began.
#[derive(Drop)]
pub struct Block {
    pub tx: Tx,
    /// How often it may be run again after a conflict.
    pub retries: u32,
    /// Where the line that began it stands among the lines of the script.
    pub first: usize,
}

/// What a script holds between two of its lines.
#[derive(Drop)]
pub enum Held {
    Nothing,
    OnPin(Pin),
    /// The pin that was wanted was refused.
    OffPin,
    InBlock(Block),
}

/// Why a script stops before its end. What is held then is still to be released.
#[derive(Drop)]
pub enum Stop {
    /// The log was full for a call.
    LogFull(Held),
    /// Memory was refused.
    NoMemory(Held),
}

/// What is held behind a line, where its last words were said; else the script stops.
pub fn held_after(said: Result<(), NoMemory>, held: Held) -> Result<Held, Stop>
    ensures { result ≡ held_after said held }
{
    match said {
        Ok(()) => Ok(held),
        Err(NoMemory) => Err(Stop::NoMemory(held)),
    }
}

/// The end by a full log, where its word was said; else that by want of memory.
pub fn filled(said: Result<(), NoMemory>, held: Held) -> Stop
    ensures { result ≡ filled said held }
{
    match said {
        Ok(()) => Stop::LogFull(held),
        Err(NoMemory) => Stop::NoMemory(held),
    }
}

/// The pin that is held, where one is.
fn pin_held(held: Held) -> Option<Pin>
    ensures { result ≡ pin_held held }
{
    match held {
        Held::Nothing => None,
        Held::OnPin(pin) => Some(pin),
        Held::OffPin => None,
        Held::InBlock(block) => Some(block.tx.abandon()),
    }
}

/// Releases the pin that is held.
fn let_go(rt: &impl Wait, db: &Db, pass: &mut Pass, held: Held)
    requires ready { IsReady db.now pass.old }
    requires mine { IsHeldBy db.now pass.old held }
    ensures on { GoesOn db.now pass.old pass.new }
    ensures makes { Makes db.now.base pass.old.number pass.old.seen pass.new.seen (last_release (held_of held)) }
{
    match pin_held(held) {
        Some(pin) => db.release(rt, pass, pin),
        None => {}
    }
}

/// What is held where the lines have ended, and whether the log was full.
fn parts(ended: Result<Held, Stop>) -> (Held, Result<bool, NoMemory>)
    ensures held { result.0 ≡ left_held ended }
    ensures full { result.1 ≡ ended_full ended }
{
    match ended {
        Ok(held) => (held, Ok(false)),
        Err(Stop::LogFull(held)) => (held, Ok(true)),
        Err(Stop::NoMemory(held)) => (held, Err(NoMemory)),
    }
}

/// Releases the pin that is held where the lines have ended: whether the log was full.
pub fn settle(
    rt: &impl Wait,
    db: &Db,
    pass: &mut Pass,
    ended: Result<Held, Stop>,
) -> Result<bool, NoMemory>
    requires ready { IsReady db.now pass.old }
    requires mine { IsHeldBy db.now pass.old (left_held ended) }
    ensures on { GoesOn db.now pass.old pass.new }
    ensures makes { Makes db.now.base pass.old.number pass.old.seen pass.new.seen (last_release (held_of (left_held ended))) }
    ensures full { result ≡ ended_full ended }
{
    let (held, full) = parts(ended);
    let_go(rt, db, pass, held);
    full
}
