//! What is told of a run.
ghost use Rattle.std.specs.Prelude.{◌≡◌, ◌≤◌, IfOk, string_bytes};
ghost use Rattle.gen_spec.specs.Summary.{IsSummaryOf};
ghost use Rattle.gen_run.specs.Pieces.{summary_pieces, walk_pieces};
ghost use Rattle.gen_run.specs.Told.{IsTold};
ghost use Rattle.gen_spec.specs.declared.limits.TheConstants.{MOST_SIZE};

use gen_rounds::{commits_in, dropped_in, end, go_through, walk_pinned};
use gen_spec::{Summary, Walked};
use netlist_schema::{NoMemory, Text};
use std::alloc::{AllocError, Global};

/// The run, counted.
fn tell(alloc: Global, count: u32) -> Result<Summary, NoMemory>
    requires { (1 ≤ count) × (count ≤ MOST_SIZE) }
    ensures { IfOk result (λ told. IsTold count told) }
{
    let made = go_through(alloc, count)?;
    let first = walk_pinned(alloc, &made.first)?;
    let last = walk_pinned(alloc, &made.last)?;
    let core = end(made);
    let log = core.log();
    let commits = commits_in(log);
    let collected = dropped_in(log);
    let events = log.len() as u64;
    Ok(Summary {
        number: count,
        commits,
        collected,
        events,
        first,
        last,
    })
}

/// The line of a walk.
fn line_of(alloc: Global, found: Walked) -> Result<String, AllocError>
    ensures { IfOk result (λ line. string_bytes line ≡ walk_pieces found) }
{
    let counts = found.counts;
    format!(in alloc;
        "version {} instances {} nets {} pins {} properties {}\n",
        found.version, counts.instances, counts.nets, counts.pins, counts.properties
    )
}

/// The lines of a summary, with those of its walks.
fn lines_of(alloc: Global, told: &Summary, first: &str, last: &str) -> Result<String, AllocError>
    ensures { IfOk result (λ text. string_bytes text ≡ summary_pieces told.now first.now last.now) }
{
    format!(in alloc;
        "gen {}\ncommits {}\ncollected {}\nevents {}\n{first}{last}",
        told.number, told.commits, told.collected, told.events
    )
}

/// The summary of the run of a number, from 1 to 4,096. Of the generated design caller 1 pins version 0. For each k from 1 to that
/// number, caller 0 pins the last version, commits edit k and releases the pin, and where 16 divides k it collects. Then it pins the
/// last version, both pinned versions are walked, and the pins are released. What is told is counted over that history and the two
/// flattenings, of which a walk has one item at a time. The one error is that an allocation was refused.
pub fn summary(alloc: Global, count: u32) -> Result<Text, NoMemory>
    requires { (1 ≤ count) × (count ≤ MOST_SIZE) }
    ensures { IfOk result (λ text. IsSummaryOf count text) }
{
    let told = tell(alloc, count)?;
    let first = line_of(alloc, told.first)?;
    let last = line_of(alloc, told.last)?;
    let text = lines_of(alloc, &told, first.as_str(), last.as_str())?;
    Ok(Text::of(text.into_bytes()))
}
