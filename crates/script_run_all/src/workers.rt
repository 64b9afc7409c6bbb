//! Workers: one script each, with a pass of its own.
ghost use Rattle.std.specs.Prelude.{◌≡◌, ◌<◌, ℕ, IfOk, Ok, map, slice_index_or, vec_len};
ghost use Rattle.std.specs.List.{All, list_any};
ghost use Rattle.db_share.specs.Passes.{Pass as PassFacts};
ghost use Rattle.script_run_spec.specs.Scripts.{all_steps};
ghost use Rattle.script_run_all.specs.Workers.{IsDone, IsFresh};

use db_share::{Db, Pass};
use netdb_outside::Gate;
use netlist_schema::{NoMemory, Text};
use script_run::{Transcript, run_script};
use script_spec::Script;
use std::alloc::Global;
use std::sync::Wait;
use std::thread::{self, Threads};

/// What a script came to, and the pass with which it was run.
#[derive(Drop)]
pub struct Done {
    pub pass: Pass,
    pub transcript: Transcript,
}

/// Runs the script of the pass's number.
fn run_own<R: Wait, G: Gate>(
    rt: &R,
    alloc: Global,
    db: &Db,
    scripts: &[Script],
    gate: &G,
    mut pass: Pass,
) -> Result<Done, NoMemory>
    requires { IsFresh db.now scripts.now pass }
    ensures { IfOk result (IsDone db.now (all_steps scripts.now) pass.number) }
{
    let number = pass.number() as usize;
    let script = &scripts[number];
    let transcript = run_script(rt, alloc, db, &mut pass, script, gate)?;
    Ok(Done { pass, transcript })
}

/// Runs each script by a worker of its own: in a thread, or where one can't be started, here. All have ended when it returns.
fn run_each<R: Threads + Wait + Sync, G: Gate + Sync>(
    rt: &R,
    alloc: Global,
    db: &Db,
    scripts: &[Script],
    gate: &G,
    passes: Vec<Pass>,
) -> Result<Vec<Result<Done, NoMemory>>, NoMemory>
    requires { All (IsFresh db.now scripts.now) passes.items }
    ensures len { IfOk result (λ tries. vec_len tries ≡ vec_len passes) }
    ensures each { IfOk result (λ tries. (k : ℕ) (d : _) (p : PassFacts) → k < vec_len passes → IfOk (slice_index_or tries.items k d) (IsDone db.now (all_steps scripts.now) (slice_index_or passes.items k p).number)) }
{
    let tries = thread::map_vec(
        rt,
        passes,
        &|pass: Pass| -> Result<Done, NoMemory>
            requires { IsFresh db.now scripts.now pass }
            ensures { IfOk result (IsDone db.entry.now (all_steps scripts.entry.now) pass.number) }
        { run_own(rt, alloc, db, scripts, gate, pass) },
    )?;
    Ok(tries)
}

/// What all scripts came to, where there was memory for each.
fn all_of(alloc: Global, tries: Vec<Result<Done, NoMemory>>) -> Result<Vec<Done>, NoMemory>
    ensures { IfOk result (λ all. map Ok all.items ≡ tries.items) }
{
    let mut all = Vec::new(alloc);
    for tried in tries {
        all.push(tried?)?;
    }
    Ok(all)
}

/// Runs the scripts beside each other, each with the pass of its number.
pub(crate) fn run_all<R: Threads + Wait + Sync, G: Gate + Sync>(
    rt: &R,
    alloc: Global,
    db: &Db,
    scripts: &[Script],
    gate: &G,
    passes: Vec<Pass>,
) -> Result<Vec<Done>, NoMemory>
    requires fresh { All (IsFresh db.now scripts.now) passes.items }
    requires numbered { (k : ℕ) (p : PassFacts) → k < vec_len passes → (slice_index_or passes.items k p).number ≡ k }
    ensures len { IfOk result (λ all. vec_len all ≡ vec_len passes) }
    ensures each { IfOk result (λ all. (k : ℕ) (d : _) → k < vec_len passes → IsDone db.now (all_steps scripts.now) k (slice_index_or all.items k d)) }
{
    let tries = run_each(rt, alloc, db, scripts, gate, passes)?;
    all_of(alloc, tries)
}

/// Whether some script met a full log.
pub(crate) fn some_met_full(all: &[Done]) -> bool
    ensures { result ≡ list_any (λ done. done.transcript.log_full) all.now }
{
    all.iter().any(|done| done.transcript.log_full)
}

/// The passes, and the transcripts.
pub(crate) fn parts_of(alloc: Global, all: Vec<Done>) -> Result<(Vec<Pass>, Vec<Text>), NoMemory>
    ensures passes { IfOk result (λ parts. parts.0.items ≡ map (λ done. done.pass) all.items) }
    ensures texts { IfOk result (λ parts. parts.1.items ≡ map (λ done. done.transcript.text) all.items) }
{
    let mut passes = Vec::new(alloc);
    let mut texts = Vec::new(alloc);
    for done in all {
        let Done { pass, transcript } = done;
        passes.push(pass)?;
        texts.push(transcript.text)?;
    }
    Ok((passes, texts))
}
