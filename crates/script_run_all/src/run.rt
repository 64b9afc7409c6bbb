//! Scripts beside each other on one database.
ghost use Rattle.std.specs.Prelude.{◌≤◌, IfOk, length};
ghost use Rattle.script_spec.specs.Headline.{CanWalk};
ghost use Rattle.script_run_spec.specs.Scripts.{all_steps};
ghost use Rattle.script_run_all.specs.Run.{HaveRun};
ghost use Rattle.script_spec.specs.declared.limits.TheConstants.{MOST_SCRIPTS};

use crate::workers::{parts_of, run_all, some_met_full};
use db_share::{Core, Db};
use netdb_outside::Gate;
use netlist_schema::{Design, NoMemory, Row, Text};
use script_spec::Script;
use std::alloc::Global;
use std::sync::Wait;
use std::thread::Threads;

/// What is left of a run: the database with its history, the transcripts in the order of the scripts, and whether some script met a
/// full log.
#[derive(Drop)]
pub struct Closed {
    pub core: Core,
    pub texts: Row<Text>,
    pub log_full: bool,
}

/// Runs 1 to 64 scripts beside each other on a database of the design: each as the caller of its number, by a worker with a pass of its
/// own, in a thread or, where none can be started, here. The design has a top where a script walks. It returns when all workers have
/// ended and the database is closed.
///
/// The history of the database is legal, each script fits the events of its caller there, and there is no other caller. The one error is
/// that an allocation was refused, here or to a worker.
pub fn run_scripts<R: Threads + Wait + Sync, G: Gate + Sync>(
    rt: &R,
    alloc: Global,
    design: Design,
    scripts: &[Script],
    gate: &G,
) -> Result<Closed, NoMemory>
    requires many { (1 ≤ length scripts.now) × (length scripts.now ≤ MOST_SCRIPTS) }
    requires walks { CanWalk design (all_steps scripts.now) }
    ensures { IfOk result (λ closed. HaveRun design (all_steps scripts.now) closed.core closed.texts closed.log_full) }
{
    let (db, passes) = Db::new(alloc, design, scripts.len() as u32)?;
    let all = run_all(rt, alloc, &db, scripts, gate, passes)?;
    let log_full = some_met_full(&all);
    let (back, texts) = parts_of(alloc, all)?;
    Ok(Closed {
        core: db.close(back),
        texts: Row::of(texts),
        log_full,
    })
}
