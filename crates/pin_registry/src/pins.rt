//! `Pins`: the live pins, and the versions that they hold.
ghost use Rattle.std.specs.Prelude.{◌≡◌, ℕ, [], ◌+◌, ◌-◌, ◌<◌, ◌==◌, if◌then◌else◌, IfOk, OnErr, length};
ghost use Rattle.std.specs.List.{list_any};
ghost use Rattle.pin_registry.specs.Counts.{count_at};
ghost use Rattle.pin_registry.specs.Registry.{IsLive, with_pin, without_pin};

use netlist_schema::{MOST_EVENTS, NoMemory};
use std::alloc::Global;
use std::collections::BTreeMap;
use std::marker::Model;

/// The greatest number of pins that a registry makes: each is made at an event of a history.
pub const MOST_PINS: u64 = MOST_EVENTS;

/// The pins that were made, numbered from 0 in the order in which they were made, and those of them that are live. Each
/// live pin holds a version.
pub struct Pins {
    /// The version of each live pin, by its number.
    versions: BTreeMap<u64, u64>,
    /// How many live pins hold a version. A version that is missing here has none.
    holders: BTreeMap<u64, u64>,
    /// The number of pins made.
    made: u64,
}

impl Drop for Pins {
    fn drop(self) {
        let Pins {
            versions: _,
            holders: _,
            made: _,
        } = self;
    }
}

impl Model for Pins {
    ghost use Rattle.pin_registry.specs.Registry.{Registry};

    ghost Value = { Registry };

    ghost use Rattle.pin_registry.specs.Inside.{registry_of, IsRegistry};

    ghost view = { registry_of };

    ghost invariant = { IsRegistry };
}

impl Pins {
    /// A registry of no pins. Takes no memory.
    pub fn new(alloc: Global) -> Pins
        ensures made { result.made ≡ 0 }
        ensures live { result.live ≡ [] }
    {
        Pins {
            versions: BTreeMap::new(alloc),
            holders: BTreeMap::new(alloc),
            made: 0,
        }
    }

    /// Makes a live pin on the version, and gives its number. Fewer than `MOST_PINS` pins may have been made. The one error
    /// is that an allocation was refused; the registry is unchanged then.
    pub fn add(&mut self, version: u64) -> Result<u64, NoMemory>
        requires { self.old.made < MOST_PINS }
        ensures ok { IfOk result (λ number. (number ≡ self.old.made) × (self.new ≡ with_pin self.old version)) }
        ensures err { OnErr result (self.new ≡ self.old) }
    {
        let number = self.made;
        let holders = self.holders.entry(version)?.or_insert(0);
        self.versions.insert(number, version)?;
        *holders += 1;
        self.made += 1;
        Ok(number)
    }

    /// Ends the live pin of this number. Takes no memory.
    pub fn remove(&mut self, number: u64)
        requires { IsLive self.old number }
        ensures { self.new ≡ without_pin self.old number }
    {
        if let Some(version) = self.versions.remove(&number) {
            count_down(&mut self.holders, version);
        }
    }

    /// The number of live pins. Takes no memory.
    pub fn live(&self) -> u32
        ensures { result ≡ length self.now.live }
    {
        self.versions.len() as u32
    }

    /// The number of pins made, which is the next pin's number. Takes no memory.
    pub fn made(&self) -> u64
        ensures { result ≡ self.now.made }
    {
        self.made
    }

    /// Whether a live pin holds the version. Takes no memory.
    pub fn holds(&self, version: u64) -> bool
        ensures { result ≡ list_any (λ pin. pin.version == version) self.now.live }
    {
        count_of(&self.holders, version) > 0
    }
}

/// The count of a version.
fn count_of(counts: &BTreeMap<u64, u64>, version: u64) -> u64
    ensures { result ≡ count_at counts.now version }
{
    counts.get(&version).copied().unwrap_or(0)
}

/// Takes one from the count of a version, and forgets a version that comes to none. Takes no memory.
fn count_down(counts: &mut BTreeMap<u64, u64>, version: u64)
    ensures { (q : ℕ) → count_at counts.new q ≡ count_at counts.old q - (if q == version then 1 else 0) }
{
    let count = count_of(counts, version);
    if count > 1 {
        // The version has its entry, so this can't fail.
        let _ = counts.insert(version, count - 1);
    } else {
        counts.remove(&version);
    }
}
