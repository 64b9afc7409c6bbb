//! A script, line by line.
ghost use Rattle.std.specs.Prelude.{◌≡◌, ◌∷◌, [], IfOk, OnErr};
ghost use Rattle.script_spec.specs.Headline.{CanWalk, Ran};
ghost use Rattle.script_spec.specs.ScriptText.{ArePlaced, Free, steps_of};
ghost use Rattle.script_run_spec.specs.Whole.{IsBrokenOff};
ghost use Rattle.db_share.specs.Passes.{IsReady};
ghost use Rattle.db_share.specs.Calls.{GoesOn};
ghost use Rattle.script_run.specs.Coming.{Ends};

use crate::along::Along;
use crate::places::run_line;
use db_share::{Db, Pass};
use netdb_outside::Gate;
use netlist_schema::{NoMemory, Text};
use script_held::{Held, Stop, settle};
use script_lang::Script;
use std::alloc::Global;
use std::sync::Wait;

/// What a script was told, and whether it ended since the log was full.
#[derive(Debug, Drop)]
pub struct Transcript {
    pub text: Text,
    pub log_full: bool,
}

/// Runs the lines of a script, from nothing held, until they end or one of them stops it.
fn run_lines<G: Gate>(
    rt: &impl Wait,
    along: &Along<'_, G>,
    pass: &mut Pass,
    out: &mut Vec<u8>,
) -> Result<Held, Stop>
    requires ready { IsReady along.now.db.now pass.old }
    requires fresh { pass.old.own ≡ [] }
    requires placed { ArePlaced Free (steps_of along.now.lines.now) }
    requires top { CanWalk along.now.db.now.base (steps_of along.now.lines.now ∷ []) }
    requires empty { out.old.items ≡ [] }
    ensures on { GoesOn along.now.db.now pass.old pass.new }
    ensures ends { Ends along.now.db.now pass.new (steps_of along.now.lines.now) out.new.items result }
{
    let mut held = Held::Nothing;
    for at in 0..along.lines.len() {
        along.gate.reached(pass.number(), along.lines[at].number);
        match run_line(rt, along, pass, held, at, out) {
            Ok(next) => held = next,
            Err(stop) => return Err(stop),
        }
    }
    Ok(held)
}

/// Runs a script as the caller of a pass, which has made no call before. It needs a design with a top where a line walks.
///
/// What the caller did since is the script's session in the history that the pass has seen at the end, and the text is its
/// transcript; `log_full` says that it ended since the log was full for a call. No pin of the caller is live. After `NoMemory` the
/// caller's calls are the first ones of such a session, and then the release of a held pin, and no pin of it is live.
///
/// The gate is called before each line, again when a block is run again, and once at the end, however the script ends: after the
/// held pin is released, with the number of the last line plus one. The call waits for its turns at the database.
pub fn run_script<G: Gate>(
    rt: &impl Wait,
    alloc: Global,
    db: &Db,
    pass: &mut Pass,
    script: &Script,
    gate: &G,
) -> Result<Transcript, NoMemory>
    requires ready { IsReady db.now pass.old }
    requires fresh { pass.old.own ≡ [] }
    requires top { CanWalk db.now.base (steps_of script.now.lines ∷ []) }
    ensures on { GoesOn db.now pass.old pass.new }
    ensures ran { IfOk result (λ t. Ran db.now.base pass.new.seen pass.new.number (steps_of script.now.lines) t.text t.log_full) }
    ensures broken { OnErr result (IsBrokenOff db.now.base pass.new.seen pass.new.number (steps_of script.now.lines)) }
{
    let mut out = Vec::new(alloc);
    let along = Along {
        alloc,
        db,
        lines: script.lines(),
        gate,
    };
    let ended = run_lines(rt, &along, pass, &mut out);
    let settled = settle(rt, db, pass, ended);
    gate.reached(pass.number(), script.last() + 1);
    match settled {
        Ok(log_full) => Ok(Transcript {
            text: Text::of(out),
            log_full,
        }),
        Err(NoMemory) => Err(NoMemory),
    }
}
