//! Two callers of one database.
ghost use Rattle.std.specs.Prelude.{◌≡◌, ◌<◌, [], ℕ, All, IfOk, IfSome, slice_index_or, vec_len};
ghost use Rattle.db_share.specs.Passes.{IsReady};
ghost use Rattle.test_share.specs.Callers.{GoesTo, HasOpen};
ghost use Rattle.test_share.specs.Trios.{AreReady};

use crate::callers::{Caller, Trio};
use crate::lists::{apart, callers_of, passes_of};
use crate::steps::{Step, go};
use db_share::{Core, Db};
use netlist_schema::{Design, NoMemory};
use std::alloc::Global;
use std::sync::Wait;
use std::thread;
use std::thread::Threads;

/// Steps of the two callers: those of the first one and then those of the second one, or both at once in threads of their own.
#[derive(Clone, Copy)]
pub struct Phase<'a> {
    pub first: &'a [Step<'a>],
    pub second: &'a [Step<'a>],
    pub at_once: bool,
}

impl<'a> Phase<'a> {
    /// The steps of the caller of a number.
    fn of(&self, number: u32) -> &'a [Step<'a>] {
        match number {
            0 => self.first,
            1 => self.second,
            _ => &[],
        }
    }
}

/// A new database, and its callers.
fn opened(alloc: Global, design: Design) -> Option<(Db, Trio)>
    ensures { IfSome result (λ r. AreReady r.0 r.1) }
{
    let Ok((db, passes)) = Db::new(alloc, design, 3) else {
        return None;
    };
    let (first, second, idle) = apart(passes)?;
    let trio = Trio {
        first: Caller {
            pass: first,
            tx: None,
        },
        second: Caller {
            pass: second,
            tx: None,
        },
        idle: Caller {
            pass: idle,
            tx: None,
        },
    };
    Some((db, trio))
}

/// The core of a database that is closed.
fn closed(alloc: Global, db: Db, trio: Trio) -> Option<Core>
    requires { AreReady db trio }
{
    let Trio {
        first,
        second,
        idle,
    } = trio;
    let passes = passes_of(alloc, first.pass, second.pass, idle.pass)?;
    Some(db.close(passes))
}

/// The steps of all callers, each in a thread of its own but for the last.
fn run_phase<R: Threads + Wait + Sync>(
    rt: &R,
    alloc: Global,
    db: &Db,
    callers: Vec<Caller>,
    phase: &Phase,
) -> Result<Vec<Caller>, NoMemory>
    requires { All (λ c. IsReady db.now c.pass × HasOpen db.now c.pass c.tx) callers.items }
    ensures len { IfOk result (λ v. vec_len v ≡ vec_len callers) }
    ensures each { IfOk result (λ v. (k : ℕ) (d : _) → k < vec_len callers
        → GoesTo db.now (slice_index_or callers.items k d).pass (slice_index_or v.items k d).pass (slice_index_or v.items k d).tx) }
{
    Ok(thread::map_vec(
        rt,
        callers,
        &|caller: Caller| -> Caller
            requires { IsReady db.now caller.pass × HasOpen db.now caller.pass caller.tx }
            ensures { GoesTo db.entry.now caller.pass result.pass result.tx }
        {
            let steps = phase.of(caller.pass.number());
            go(rt, alloc, db, caller, steps)
        },
    )?)
}

fn at_once<R: Threads + Wait + Sync>(
    rt: &R,
    alloc: Global,
    db: &Db,
    trio: Trio,
    phase: &Phase,
) -> Option<Trio>
    requires { AreReady db.now trio }
    ensures { IfSome result (λ t. AreReady db.now t) }
{
    let callers = callers_of(alloc, trio.first, trio.second, trio.idle)?;
    let Ok(back) = run_phase(rt, alloc, db, callers, phase) else {
        return None;
    };
    let (first, second, idle) = apart(back)?;
    Some(Trio {
        first,
        second,
        idle,
    })
}

fn in_turn(rt: &impl Wait, alloc: Global, db: &Db, trio: Trio, phase: &Phase) -> Trio
    requires { AreReady db.now trio }
    ensures { AreReady db.now result }
{
    let Trio {
        first,
        second,
        idle,
    } = trio;
    let first = go(rt, alloc, db, first, phase.first);
    let second = go(rt, alloc, db, second, phase.second);
    Trio {
        first,
        second,
        idle,
    }
}

fn in_phase<R: Threads + Wait + Sync>(
    rt: &R,
    alloc: Global,
    db: &Db,
    trio: Trio,
    phase: &Phase,
) -> Option<Trio>
    requires { AreReady db.now trio }
    ensures { IfSome result (λ t. AreReady db.now t) }
{
    if phase.at_once {
        return at_once(rt, alloc, db, trio, phase);
    }
    Some(in_turn(rt, alloc, db, trio, phase))
}

fn all_phases<R: Threads + Wait + Sync>(
    rt: &R,
    alloc: Global,
    db: &Db,
    mut trio: Trio,
    phases: &[Phase],
) -> Option<Trio>
    requires { AreReady db.now trio }
    ensures { IfSome result (λ t. AreReady db.now t) }
{
    for phase in phases {
        trio = in_phase(rt, alloc, db, trio, phase)?;
    }
    Some(trio)
}

/// All phases on a new database of a design, which is then closed.
pub fn in_phases<R: Threads + Wait + Sync>(
    rt: &R,
    alloc: Global,
    design: Design,
    phases: &[Phase],
) -> Option<Core> {
    let (db, trio) = opened(alloc, design)?;
    let trio = all_phases(rt, alloc, &db, trio, phases)?;
    closed(alloc, db, trio)
}
