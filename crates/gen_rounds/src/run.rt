//! The whole run.
ghost use Rattle.std.specs.Prelude.{◌≡◌, ◌≤◌, IfOk};
ghost use Rattle.gen_spec.specs.Generated.{generated};
ghost use Rattle.gen_rounds.specs.Stand.{HasEnded, HasRun, IsPin, StandsAfter};
ghost use Rattle.gen_spec.specs.declared.limits.TheConstants.{MOST_SIZE};

use crate::rounds::{EDITOR, pin_head, take_rounds};
use db_core::Core;
use design_gen::gen_design;
use edit_tx::Pin;
use netlist_schema::NoMemory;
use std::alloc::Global;

/// The caller that holds the first version.
const READER: u32 = 1;

/// A database after a run, with the pins that are still held: on its first version and on its last.
#[derive(Drop)]
pub struct Run {
    pub count: u32,
    pub core: Core,
    pub first: Pin,
    pub last: Pin,
}

/// A database with the generated design, of whose first version the reader has a pin.
fn open(alloc: Global, count: u32) -> Result<(Core, Pin), NoMemory>
    requires { (1 ≤ count) × (count ≤ MOST_SIZE) }
    ensures stands { IfOk result (λ opened. StandsAfter count 0 opened.0) }
    ensures pin { IfOk result (λ opened. IsPin 0 1 0 (generated count) opened.1) }
{
    let design = gen_design(alloc, count)?;
    let mut core = Core::new(alloc, design)?;
    let first = pin_head(&mut core, READER)?;
    Ok((core, first))
}

/// The run up to the point where the editor has pinned the last version.
pub fn go_through(alloc: Global, count: u32) -> Result<Run, NoMemory>
    requires { (1 ≤ count) × (count ≤ MOST_SIZE) }
    ensures count { IfOk result (λ run. run.count ≡ count) }
    ensures run { IfOk result (λ run. HasRun run.count run.core run.first run.last) }
{
    let (mut core, first) = open(alloc, count)?;
    take_rounds(alloc, &mut core, count)?;
    let last = pin_head(&mut core, EDITOR)?;
    Ok(Run {
        count,
        core,
        first,
        last,
    })
}

/// Releases both pins, the editor's first.
pub fn end(run: Run) -> Core
    requires { HasRun run.count run.core run.first run.last }
    ensures { HasEnded run.count result.events run.first.design run.last.design }
{
    let Run {
        count: _,
        mut core,
        first,
        last,
    } = run;
    core.release(last);
    core.release(first);
    core.history_is_legal();
    core
}
