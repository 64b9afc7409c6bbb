//! `Stamps`: the last commit of each object.
ghost use Rattle.std.specs.Prelude.{◌≡◌, ◌↔◌, IsNone, IfSome, OnOk, OnErr};
ghost use Rattle.std.specs.FinMap as map;
ghost use Rattle.std.specs.BTreeMap.{IsOrdered};
ghost use Rattle.netlist_schema.specs.Order.{object_cmp};
ghost use Rattle.netlist_schema.specs.declared.ids.Object.{Object};
ghost use Rattle.conflict_check.specs.Commits.{IsMarked, IsFirstLater, HasNoLater, later_of};
ghost use Rattle.conflict_check.specs.Marks.{mark_at, marked_at, later_at, HasSameMarks, HasEntries, IsFirst};

use netlist_schema::{NoMemory, Object, Row};
use std::alloc::Global;
use std::collections::BTreeMap;
use std::marker::Model;

/// An object that was read, and its last commit, which came later than the version that was read.
#[derive(Clone, Copy, Debug, PartialEq, Eq)]
pub struct Later {
    pub object: Object,
    /// The last commit that wrote the object.
    pub version: u64,
}

/// The last commit of each object that a commit wrote. A commit goes by the version that it made, and the last one is the
/// one of the greatest version.
pub struct Stamps {
    /// The last commit by object. An entry without one has the same meaning as no entry: it holds the memory of a mark.
    marks: BTreeMap<Object, Option<u64>>,
}

impl Drop for Stamps {
    fn drop(self) {
        let Stamps { marks: _ } = self;
    }
}

impl Model for Stamps {
    ghost use Rattle.conflict_check.specs.Commits.{Commits};
    ghost use Rattle.std.specs.FinMap as map;
    ghost use Rattle.std.specs.Coded.{coded_ℕ};
    ghost use Rattle.netlist_schema.specs.contracts.ids.Object as object;

    ghost Value = { Commits };

    ghost coded = { map.code object.the_row.coded coded_ℕ };

    ghost use Rattle.conflict_check.specs.Inside.{commits_of, IsInOrder};

    ghost view = { commits_of };

    ghost invariant = { IsInOrder };
}

impl Stamps {
    /// Stamps of no commit. Takes no memory.
    pub fn new(alloc: Global) -> Stamps
        ensures { result ≡ map.empty }
    {
        Stamps {
            marks: BTreeMap::new(alloc),
        }
    }

    /// Marks each of these objects as written by the commit of this version, which becomes its last one unless that is of
    /// a greater version already. The one error is that an allocation was refused; the stamps are unchanged then.
    pub fn mark(&mut self, written: &Row<Object>, version: u64) -> Result<(), NoMemory>
        ensures ok { OnOk result (IsMarked self.old self.new written.now version) }
        ensures err { OnErr result (self.new ≡ self.old) }
    {
        make_room(&mut self.marks, written.as_slice())?;
        set_marks(&mut self.marks, written.as_slice(), version);
        Ok(())
    }

    /// The least object read whose last commit came after the version, with that commit. Takes no memory.
    pub fn first_later(&self, reads: &Row<Object>, version: u64) -> Option<Later>
        ensures none { IsNone result ↔ HasNoLater self.now reads.now version }
        ensures first { IfSome result (IsFirstLater self.now reads.now version) }
    {
        let mut found: Option<Later> = None;
        for object in reads.as_slice() {
            let next = later_commit(&self.marks, *object, version);
            found = first_of(found, next);
        }
        found
    }
}

/// The mark of an object.
fn mark_of(marks: &BTreeMap<Object, Option<u64>>, object: Object) -> Option<u64>
    ensures { result ≡ mark_at marks.now object }
{
    marks.get(&object).copied().flatten()
}

/// Gives each object an entry, and leaves all marks.
fn make_room(marks: &mut BTreeMap<Object, Option<u64>>, objects: &[Object]) -> Result<(), NoMemory>
    requires { IsOrdered object_cmp marks.old }
    ensures same { HasSameMarks marks.old marks.new }
    ensures room { OnOk result (HasEntries marks.new objects.now) }
    ensures ordered { IsOrdered object_cmp marks.new }
{
    for object in objects {
        let mark = mark_of(marks, *object);
        marks.insert(*object, mark)?;
    }
    Ok(())
}

/// The later of a mark, if there is one, and a version.
fn later_of(mark: Option<u64>, version: u64) -> u64
    ensures { result ≡ later_of mark version }
{
    match mark {
        Some(last) => last.max(version),
        None => version,
    }
}

/// Marks each of the objects, which have entries, so that this takes no memory.
fn set_marks(marks: &mut BTreeMap<Object, Option<u64>>, objects: &[Object], version: u64)
    requires ordered { IsOrdered object_cmp marks.old }
    requires room { HasEntries marks.old objects.now }
    ensures marked { (object : Object) → mark_at marks.new object ≡ marked_at marks.old objects.now version object }
    ensures ordered { IsOrdered object_cmp marks.new }
{
    for object in objects {
        let mark = mark_of(marks, *object);
        // The object has its entry, so this can't fail.
        let _ = marks.insert(*object, Some(later_of(mark, version)));
    }
}

/// The object with its last commit, where that came after the version.
fn later_commit(
    marks: &BTreeMap<Object, Option<u64>>,
    object: Object,
    version: u64,
) -> Option<Later>
    ensures { result ≡ later_at marks.now object version }
{
    match mark_of(marks, object) {
        Some(last) if last > version => Some(Later {
            object,
            version: last,
        }),
        _ => None,
    }
}

/// The one of the lesser object.
fn first_of(found: Option<Later>, next: Option<Later>) -> Option<Later>
    ensures { IsFirst found next result }
{
    match (found, next) {
        (Some(a), Some(b)) => Some(if b.object < a.object { b } else { a }),
        (Some(a), None) => Some(a),
        (None, next) => next,
    }
}
