//! The last commits of objects, and reads that are checked against them.
use conflict_check::{Later, Stamps};
use netlist_schema::{CellId, LibId, NoMemory, Object, Row};
use std::alloc::Global;
use std::test::Fail;

const LIB: Object = Object::Directory(LibId(0));

const NEXT_LIB: Object = Object::Directory(LibId(1));

const CELL: CellId = CellId {
    lib: LibId(0),
    slot: 7,
};

const FACE: Object = Object::Interface(CELL);

const INSIDE: Object = Object::Contents(CELL);

/// Objects that commits write: 1 the notes and a cell's contents, 3 these, its interface and a directory, and 2, which came late, the
/// contents again.
const COMMITS: [(&[Object], u64); 3] = [
    (&[Object::Notes, INSIDE], 1),
    (&[INSIDE, FACE, LIB, INSIDE], 3),
    (&[INSIDE], 2),
];

const ALL: &[Object] = &[Object::Notes, NEXT_LIB, INSIDE, FACE, LIB];

const FEW: &[Object] = &[INSIDE, FACE, NEXT_LIB, Object::Notes];

/// Objects that are read at a version, the least of them that a later commit wrote, and that commit.
const READS: [(&[Object], u64, Option<(Object, u64)>); 8] = [
    (ALL, 0, Some((LIB, 3))),
    (ALL, 2, Some((LIB, 3))),
    (ALL, 3, None),
    (FEW, 0, Some((FACE, 3))),
    (&[INSIDE], 2, Some((INSIDE, 3))),
    (&[Object::Notes], 0, Some((Object::Notes, 1))),
    (&[Object::Notes], 1, None),
    (&[NEXT_LIB], 0, None),
];

/// Marks the objects that a commit writes.
fn mark(
    alloc: Global,
    stamps: &mut Stamps,
    objects: &[Object],
    version: u64,
) -> Result<(), NoMemory> {
    let row = Row::of(objects.to_vec(alloc)?);
    stamps.mark(&row, version)
}

/// Whether a later commit is the one that is wanted.
fn is_later(later: Option<Later>, wanted: Option<(Object, u64)>) -> bool {
    match (later, wanted) {
        (Some(later), Some((object, version))) => later.object == object
            && later.version == version,
        (None, None) => true,
        _ => false,
    }
}

/// Whether the least object read that a later commit wrote, and that commit, are these.
fn is_found(
    alloc: Global,
    stamps: &Stamps,
    reads: &[Object],
    version: u64,
    wanted: Option<(Object, u64)>,
) -> Result<bool, NoMemory> {
    let row = Row::of(reads.to_vec(alloc)?);
    Ok(is_later(stamps.first_later(&row, version), wanted))
}

/// The first row that is not found as it should be, after all commits.
fn first_wrong(alloc: Global, stamps: &mut Stamps) -> Result<Option<usize>, NoMemory> {
    for (objects, version) in &COMMITS {
        mark(alloc, stamps, objects, *version)?;
    }
    for (place, (reads, version, wanted)) in READS.iter().enumerate() {
        if !is_found(alloc, stamps, reads, *version, *wanted)? {
            return Ok(Some(place));
        }
    }
    Ok(None)
}

fn first_wrong_row(alloc: Global) -> Result<Option<usize>, NoMemory> {
    let mut stamps = Stamps::new(alloc);
    first_wrong(alloc, &mut stamps)
}

#[test]
fn the_least_object_with_a_later_commit_is_found(rt: HostRuntime) -> Result<(), Fail> {
    assert_eq!(rt; first_wrong_row(rt.alloc())?, None);
    Ok(())
}
