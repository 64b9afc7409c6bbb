//! Many callers at once, each in a thread of its own.
ghost use Rattle.std.specs.Prelude.{◌≡◌, ◌≤◌, ◌<◌, ℕ, All, IfOk, slice_index_or, vec_len};
ghost use Rattle.db_share.specs.Passes.{IsReady};
ghost use Rattle.db_share.specs.Calls.{Stays};
ghost use Rattle.test_share.specs.Callers.{GoesTo, HasOpen};

use crate::callers::Caller;
use crate::designs::{Edit, two_cells};
use crate::said::others;
use crate::steps::{Step, go};
use db_share::{Core, Db, Pass};
use netlist_schema::{Design, NoMemory};
use std::alloc::Global;
use std::sync::Wait;
use std::test::Fail;
use std::thread;
use std::thread::Threads;

/// One round of a caller: it pins, edits A or B, commits, releases and collects, and looks for the first version.
#[tactic(auto, using(crate::proofs::Moves::first_to))]
fn go_round(rt: &impl Wait, alloc: Global, db: &Db, caller: Caller, round: u32) -> Caller
    requires ready { IsReady db.now caller.pass }
    requires tx { HasOpen db.now caller.pass caller.tx }
    ensures { GoesTo db.now caller.pass result.pass result.tx }
{
    let number = caller.pass.number();
    let Ok(net) = format!(in alloc; "n{number}_{round}") else {
        return caller;
    };
    let cell = if number % 2 == round % 2 { "A" } else { "B" };
    let steps = [
        Step::Pin,
        Step::Do(Edit::Net {
            cell,
            net: net.as_str(),
        }),
        Step::Commit,
        Step::Release,
        Step::Collect,
        Step::PinAt(0),
        Step::Release,
    ];
    go(rt, alloc, db, caller, &steps)
}

fn go_rounds(rt: &impl Wait, alloc: Global, db: &Db, pass: Pass, rounds: u32) -> Pass
    requires { IsReady db.now pass }
    ensures { Stays db.now pass result }
{
    let mut caller = Caller { pass, tx: None };
    for round in 0..rounds {
        caller = go_round(rt, alloc, db, caller, round);
    }
    caller.pass
}

/// Each caller in a thread of its own.
fn run_all<R: Threads + Wait + Sync>(
    rt: &R,
    alloc: Global,
    db: &Db,
    passes: Vec<Pass>,
    rounds: u32,
) -> Result<Vec<Pass>, NoMemory>
    requires { All (λ p. IsReady db.now p) passes.items }
    ensures len { IfOk result (λ v. vec_len v ≡ vec_len passes) }
    ensures each { IfOk result (λ v. (k : ℕ) (d : _) → k < vec_len passes → Stays db.now (slice_index_or passes.items k d) (slice_index_or v.items k d)) }
{
    Ok(thread::map_vec(
        rt,
        passes,
        &|pass: Pass| -> Pass
            requires { IsReady db.now pass }
            ensures { Stays db.entry.now pass result }
        { go_rounds(rt, alloc, db, pass, rounds) },
    )?)
}

/// So many callers on a new database of a design: the core, when all are done.
pub fn core_of<R: Threads + Wait + Sync>(
    rt: &R,
    alloc: Global,
    design: Design,
    callers: u32,
    rounds: u32,
) -> Result<Core, NoMemory>
    requires { (1 ≤ callers) × (callers ≤ 64) }
{
    let (db, passes) = Db::new(alloc, design, callers)?;
    let passes = run_all(rt, alloc, &db, passes, rounds)?;
    Ok(db.close(passes))
}

/// Runs so many callers: whether the log has their events. Beside new pins each round has four, since a pin of the first version is
/// refused once that is gone, and is not released then.
fn are_counted<R: Threads + Wait + Sync>(
    rt: &R,
    alloc: Global,
    callers: u32,
    rounds: u32,
) -> Result<bool, Fail>
    requires { (1 ≤ callers) × (callers ≤ 64) }
{
    let design = two_cells(alloc)?;
    let calls = 4 * u64::from(callers) * u64::from(rounds);
    match core_of(rt, alloc, design, callers, rounds) {
        Ok(core) => Ok(others(core.log()) as u64 == calls),
        Err(_) => Ok(false),
    }
}

#[test]
fn each_call_of_2_8_and_64_callers_is_one_event(rt: HostRuntime) -> Result<(), Fail> {
    assert!(rt; are_counted(&rt, rt.alloc(), 2, 24)?);
    assert!(rt; are_counted(&rt, rt.alloc(), 8, 10)?);
    assert!(rt; are_counted(&rt, rt.alloc(), 64, 3)?);
    Ok(())
}
