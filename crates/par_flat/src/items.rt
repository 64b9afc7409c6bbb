//! `par_flat`: the items of a flattening.
ghost use Rattle.std.specs.Prelude.{◌≡◌, ◌<◌, ◌≤◌, ◌+◌, ◌*◌, ◌^◌, ◌++◌, ◌↔◌, ℕ, Err, IfOk, IsOk, None, OnOk, slice_index_or, vec_len};
ghost use Rattle.flat_spec.specs.Flattening.{flattening};
ghost use Rattle.par_flat.specs.Parts.{AreJoined, items_in, part_of};
ghost use Rattle.par_flat.specs.declared.limits.TheConstants.{MOST_WORKERS};

use crate::cut::{Cut, even_cut, first_of, most_of};
use crate::parts::items_from;
use flat_spec::Item;
use netdb_outside::Gate;
use netlist_schema::{NoMemory, Row, Shown};
use occ_walk::WalkError;
use par_parts::CountedGround;
use std::alloc::Global;
use std::thread::{self, Threads};

/// The items of one worker.
fn part_of<S: Shown + Drop>(
    ground: &CountedGround<S>,
    cut: Cut,
    worker: u32,
) -> Result<Row<Item>, NoMemory>
    requires one { worker < cut.workers }
    requires few { cut.workers ≤ MOST_WORKERS }
    requires fits { cut.workers * cut.share + cut.more < 2 ^ 64 }
    ensures { IfOk result (λ part. part ≡ part_of (flattening ground.now) cut worker) }
{
    let part = items_from(ground, first_of(cut, worker), most_of(cut, worker))?;
    Ok(Row::of(part))
}

/// What one worker does.
fn work<S: Shown + Drop, G: Gate>(
    ground: &CountedGround<S>,
    cut: Cut,
    gate: &G,
    worker: u32,
) -> Result<Row<Item>, NoMemory>
    requires one { worker < cut.workers }
    requires few { cut.workers ≤ MOST_WORKERS }
    requires fits { cut.workers * cut.share + cut.more < 2 ^ 64 }
    ensures { IfOk result (λ part. part ≡ part_of (flattening ground.now) cut worker) }
{
    gate.reached(worker, 1);
    let part = part_of(ground, cut, worker);
    gate.reached(worker, 2);
    part
}

/// Has each worker give its items: in a thread, or where one can't be started, here. All have ended when it returns.
fn work_each<R: Threads + Sync, S: Shown + Drop + Sync, G: Gate + Sync>(
    rt: &R,
    ground: &CountedGround<S>,
    cut: Cut,
    gate: &G,
) -> Result<Vec<Result<Row<Item>, NoMemory>>, NoMemory>
    requires few { cut.workers ≤ MOST_WORKERS }
    requires fits { cut.workers * cut.share + cut.more < 2 ^ 64 }
    ensures len { IfOk result (λ parts. vec_len parts ≡ cut.workers) }
    ensures each { IfOk result (λ parts. (w : ℕ) (d : _) → w < cut.workers → IfOk (slice_index_or parts.items w d) (λ part. part ≡ part_of (flattening ground.now) cut w)) }
{
    let parts = thread::map_indices(
        rt,
        ground.alloc(),
        cut.workers as usize,
        &|worker: usize| -> Result<Row<Item>, NoMemory>
            requires { (worker < cut.workers) × (cut.workers ≤ MOST_WORKERS) × (cut.workers * cut.share + cut.more < 2 ^ 64) }
            ensures { IfOk result (λ part. part ≡ part_of (flattening ground.entry.now) cut worker) }
        { work(ground, cut, gate, worker as u32) },
    )?;
    Ok(parts)
}

/// Adds the items of one worker.
fn add_part(part: Result<Row<Item>, NoMemory>, all: &mut Vec<Item>) -> Result<(), NoMemory>
    ensures is { OnOk result (IsOk part) }
    ensures items { OnOk result (all.new.items ≡ all.old.items ++ items_in part) }
{
    match part {
        Ok(items) => {
            let mut items = items.into_vec();
            all.append(&mut items)?;
            Ok(())
        }
        Err(error) => Err(error),
    }
}

/// The items of all workers, in the order of their numbers.
fn joined(alloc: Global, parts: Vec<Result<Row<Item>, NoMemory>>) -> Result<Vec<Item>, NoMemory>
    ensures { IfOk result (λ all. AreJoined parts.items all.items) }
{
    let mut all = Vec::new(alloc);
    for part in parts {
        add_part(part, &mut all)?;
    }
    Ok(all)
}

/// All items.
fn all_items<R: Threads + Sync, S: Shown + Drop + Sync, G: Gate + Sync>(
    rt: &R,
    ground: &CountedGround<S>,
    workers: u32,
    gate: &G,
) -> Result<Vec<Item>, NoMemory>
    requires many { (1 ≤ workers) × (workers ≤ MOST_WORKERS) }
    ensures { IfOk result (λ items. items.items ≡ flattening ground.now) }
{
    let cut = even_cut(workers, ground.item_count());
    let parts = work_each(rt, ground, cut, gate)?;
    joined(ground.alloc(), parts)
}

/// The flattening of a design, by 1 to 64 workers beside each other: each in a thread, or where one can't be started, here. It returns
/// when all have ended. `NoTop` comes exactly where the design has no top.
///
/// The items are cut into as many runs as there are workers, whichever occurrences they belong to: no run has more than one item more
/// than another. Each worker, also one with no item, calls the gate with its number and 1 before its first item, and with 2 behind its
/// last one. What is connected and which notes are for which occurrence is found once, before the workers start. All items stand in
/// memory.
pub fn par_flat<R: Threads + Sync, S: Shown + Sync, G: Gate + Sync>(
    rt: &R,
    alloc: Global,
    design: &S,
    workers: u32,
    gate: &G,
) -> Result<Row<Item>, WalkError>
    requires { (1 ≤ workers) × (workers ≤ MOST_WORKERS) }
    ensures items { IfOk result (λ items. items ≡ flattening (S.design design.now)) }
    ensures no_top { (result ≡ Err WalkError.NoTop) ↔ ((S.design design.now).top ≡ None) }
{
    match CountedGround::by_workers(rt, alloc, design, workers) {
        Ok(ground) => match all_items(rt, &ground, workers, gate) {
            Ok(items) => Ok(Row::of(items)),
            Err(_) => Err(WalkError::NoMemory),
        },
        Err(error) => Err(error),
    }
}
