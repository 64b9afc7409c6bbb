//! The design of the last version with its index, and the lines of that.
ghost use Rattle.std.specs.Prelude.{◌≡◌, ◌≤◌, IfOk, OnErr, OnOk, IsErrOf};
ghost use Rattle.netdb_outside.specs.declared.write_error.WriteError.TheVariants.{WriteFault};
ghost use Rattle.netdb_outside.specs.Outside.{Appends, AppendsFront, Rose};
ghost use Rattle.script_spec.specs.Report.{head_design};
ghost use Rattle.used_spec.specs.HeadUses.{head_uses_text};

use db_spec::Event;
use design_copy::copy_of;
use netdb_outside::{Sink, WriteError};
use netlist_schema::{NoMemory, Shown};
use std::alloc::Global;
use used_lines::write_uses;
use used_replay::replay;
use where_used::Watched;

/// The design of the last version, with its index: the accepted commits, done again on a copy of the opening design.
fn head_watched<S: Shown>(
    alloc: Global,
    opening: &S,
    history: &[Event],
) -> Result<Watched, NoMemory>
    ensures { IfOk result (λ made. made.design ≡ head_design (S.design opening.now) history.now) }
{
    let design = copy_of(alloc, opening)?;
    let mut watched = Watched::new(alloc, design)?;
    replay(alloc, &mut watched, history)?;
    Ok(watched)
}

/// Writes the uses of the last version of a history with this opening design: the accepted commits are done again on a copy of it, with
/// an index that is kept, and its lines are written. The history need not be legal.
///
/// After an error a front of that text was written, and no more. `WriteFault` comes only where the sink had a fault.
pub fn write_head_uses<S: Shown, K: Sink>(
    alloc: Global,
    opening: &S,
    history: &[Event],
    out: &mut K,
) -> Result<(), WriteError>
    ensures ok { OnOk result (Appends (K.written out.old) (K.written out.new) (head_uses_text (S.design opening.now) history.now)) }
    ensures err { OnErr result (AppendsFront (K.written out.old) (K.written out.new) (head_uses_text (S.design opening.now) history.now)) }
    ensures fault { IsErrOf result WriteFault → Rose (K.faults out.old) (K.faults out.new) }
    ensures never_falls { K.faults out.old ≤ K.faults out.new }
{
    match head_watched(alloc, opening, history) {
        Ok(watched) => write_uses(alloc, watched.design(), watched.used(), out),
        Err(_) => Err(WriteError::NoMemory),
    }
}
