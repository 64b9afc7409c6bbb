//! What is counted: the items of a walk, and the events of a history.
ghost use Rattle.std.specs.Prelude.{◌≡◌, ◌≢◌, ◌+◌, ◌≤◌, None, IfOk, count_by, length, sum_by};
ghost use Rattle.netlist_schema.specs.declared.limits.TheConstants.{MOST_EVENTS};
ghost use Rattle.gen_spec.specs.Summary.{counts_of, dropped_by, is_accepted, walked};
ghost use Rattle.gen_rounds.specs.Counting.{with_item};

use db_spec::{Answer, Event};
use db_version::Snapshot;
use edit_tx::Pin;
use flat_spec::Item;
use gen_spec::{Counts, Walked};
use netlist_schema::NoMemory;
use occ_walk::{Walk, WalkError};
use std::alloc::Global;

/// A number and so many more, which memory could not hold where they are too many to be counted.
fn more(count: u64, by: usize) -> Result<u64, NoMemory>
    ensures { IfOk result (λ sum. sum ≡ count + by) }
{
    match count.checked_add(by as u64) {
        Some(sum) => Ok(sum),
        None => Err(NoMemory),
    }
}

/// Counts with one item more.
fn with_item(counts: Counts, item: &Item) -> Result<Counts, NoMemory>
    ensures { IfOk result (λ now. now ≡ with_item counts item.now) }
{
    match item {
        Item::Enter { properties, .. } => Ok(Counts {
            instances: more(counts.instances, 1)?,
            properties: more(counts.properties, properties.as_slice().len())?,
            ..counts
        }),
        Item::Net { .. } => Ok(Counts {
            nets: more(counts.nets, 1)?,
            ..counts
        }),
        Item::Pin { .. } => Ok(Counts {
            pins: more(counts.pins, 1)?,
            ..counts
        }),
    }
}

/// Counts the items that are left to a walk, one at a time.
fn count_items(mut walk: Walk<Snapshot>) -> Result<Counts, NoMemory>
    ensures { IfOk result (λ counts. counts ≡ counts_of walk.left) }
{
    let mut counts = Counts {
        instances: 0,
        nets: 0,
        pins: 0,
        properties: 0,
    };
    for _ in 0..u64::MAX {
        match walk.next() {
            Ok(Some(item)) => {
                let more = with_item(counts, &item)?;
                counts = more;
            }
            Ok(None) => return Ok(counts),
            Err(refused) => return Err(refused),
        }
    }
    Err(NoMemory)
}

/// Counts what the pinned version's flattening has, by a walk.
pub fn walk_pinned(alloc: Global, pin: &Pin) -> Result<Walked, NoMemory>
    requires { pin.now.design.top ≢ None }
    ensures { IfOk result (λ found. found ≡ walked pin.now.version pin.now.design) }
{
    let shot = pin.snapshot()?;
    match Walk::new(alloc, shot) {
        Ok(walk) => {
            let counts = count_items(walk)?;
            Ok(Walked {
                version: pin.version(),
                counts,
            })
        }
        Err(WalkError::NoMemory) => Err(NoMemory),
        Err(WalkError::NoTop) => unreachable!(),
    }
}

/// Whether it is a commit that was accepted.
fn is_accepted(event: &Event) -> bool
    ensures { result ≡ is_accepted event.now.answer }
{
    matches!(event.answer, Answer::Committed { .. })
}

/// How many versions a collect dropped; none for any other event.
fn dropped_by(event: &Event) -> u32
    ensures { result ≡ dropped_by event.now.answer }
{
    match event.answer {
        Answer::Collected(count) => count,
        _ => 0,
    }
}

/// The number of accepted commits.
pub fn commits_in(log: &[Event]) -> u64
    requires { length log.now ≤ MOST_EVENTS }
    ensures { result ≡ count_by (λ event. is_accepted event.answer) log.now }
{
    let mut commits = 0;
    for event in log {
        if is_accepted(event) {
            commits += 1;
        }
    }
    commits
}

/// The number of versions that were dropped together.
pub fn dropped_in(log: &[Event]) -> u64
    requires { length log.now ≤ MOST_EVENTS }
    ensures { result ≡ sum_by (λ event. dropped_by event.answer) log.now }
{
    let mut dropped = 0;
    for event in log {
        dropped += u64::from(dropped_by(event));
    }
    dropped
}
