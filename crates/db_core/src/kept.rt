//! Kept versions, in ascending order.
ghost use Rattle.std.specs.Prelude.{◌≡◌, ◌<◌, ◌≤◌, vec_len, filter, ◌==◌, ◌||◌, option_map, slice_get, MatchOption};
ghost use Rattle.std.specs.List.{AllPairs, Contains, list_any};
ghost use Rattle.db_version.specs.Shot.{Shot};

use edit_tx::Snapshot;
use netlist_schema::NoMemory;
use pin_registry::Pins;

/// The version of this number, which a binary search finds where it is there.
pub(crate) fn find(versions: &[Snapshot], version: u64) -> Option<&Snapshot>
    requires { AllPairs (λ earlier later. earlier.version < later.version) versions.now }
    ensures { MatchOption result ((k : Shot) → Contains versions.now k → ¬ (k.version ≡ version)) (λ found. Contains versions.now found.now × (found.now.version ≡ version)) }
{
    match versions.binary_search_by_key(&version, |kept| kept.version()) {
        Ok(at) => Some(&versions[at]),
        Err(_) => None,
    }
}

/// Takes away the versions that are neither the last one nor held by a pin.
pub(crate) fn keep_held(versions: &mut Vec<Snapshot>, head: u64, pins: &Pins)
    ensures items { versions.new.items ≡ filter (λ kept. (kept.version == head) || list_any (λ pin. pin.version == kept.version) pins.now.live) versions.old.items }
    ensures fewer { vec_len versions.new ≤ vec_len versions.old }
{
    versions.retain(|kept| kept.version() == head || pins.holds(kept.version()));
}

/// Adds shares of the versions that are neither the last one nor held by a pin to a list.
pub(crate) fn share_dropped(
    versions: &[Snapshot],
    head: u64,
    pins: &Pins,
    gone: &mut Vec<Snapshot>,
) -> Result<(), NoMemory> {
    for kept in versions {
        if kept.version() != head && !pins.holds(kept.version()) {
            gone.push(kept.share()?)?;
        }
    }
    Ok(())
}

/// The number of the first of some versions.
pub(crate) fn first_of(versions: &[Snapshot]) -> Option<u64>
    ensures { result ≡ option_map (λ k. k.version) (slice_get versions.now 0) }
{
    match versions.first() {
        Some(kept) => Some(kept.version()),
        None => None,
    }
}
