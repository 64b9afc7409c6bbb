//! Cells of a library that wait for their children to be written.
ghost use Rattle.std.specs.Prelude.{◌≡◌, ◌<◌, ◌≤◌, ◌++◌, ◌∷◌, [], ℕ, List, true, false, if◌then◌else◌, nat_eq, length, IfOk, OnOk, IfSome, IfNone};
ghost use Rattle.netlist_schema.specs.Design.{cells_in, insts_in};
ghost use Rattle.netlist_order.specs.ReadyQueue.{flag, has, waits, IsSized, IsReadyQueue, AllPast, IsFirstUnwritten, is_past};
ghost use Rattle.netlist_order.specs.declared.ready_queue.Waiting.{Waiting};

use netlist_schema::{CellId, Contents, Inst, LibId, Listed, NoMemory, PartsRef, Shared, Shown};
use std::alloc::Global;
use std::collections::BTreeSet;
use std::mem::replace;

/// A cell that is not written. Its instances before a place need no more waiting.
#[derive(Clone, Copy, Debug)]
pub struct Waiting {
    pub slot: u32,
    pub from: usize,
}

/// Which cells of a library are written, which can be written next, and which wait for which child.
#[derive(Drop)]
pub struct ReadyQueue {
    written: Vec<bool>,
    ready: BTreeSet<u32>,
    /// By the child for which they wait.
    waiting: Vec<Vec<Waiting>>,
}

impl ReadyQueue {
    /// A queue for so many cells: none is written, none is ready, and none waits.
    pub fn new(alloc: Global, count: u32) -> Result<ReadyQueue, NoMemory>
        ensures sized { IfOk result (IsSized count) }
        ensures flags { IfOk result (λ d. (slot : ℕ) → flag d slot ≡ false) }
        ensures ready { IfOk result (λ d. (slot : ℕ) → has d slot ≡ false) }
        ensures waiting { IfOk result (λ d. (child : ℕ) → waits d child ≡ []) }
    {
        let mut written = Vec::new(alloc);
        let mut waiting = Vec::new(alloc);
        for _ in 0..count {
            written.push(false)?;
            waiting.push(Vec::new(alloc))?;
        }
        Ok(ReadyQueue {
            written,
            ready: BTreeSet::new(alloc),
            waiting,
        })
    }

    /// Takes the first cell that is ready, where there is one.
    pub fn next(&mut self) -> Option<u32>
        ensures none { IfNone result ((slot : ℕ) → has self.old slot ≡ false) }
        ensures ready { IfSome result (λ slot. has self.old slot ≡ true) }
        ensures first { IfSome result (λ slot. (other : ℕ) → has self.old other ≡ true → slot ≤ other) }
        ensures rest { IfSome result (λ slot. (other : ℕ) → has self.new other ≡ (if nat_eq other slot then false else has self.old other)) }
        ensures written { self.new.written ≡ self.old.written }
        ensures waiting { self.new.waiting ≡ self.old.waiting }
    {
        self.ready.pop_first()
    }

    /// Marks a cell as written, and takes those that waited for it.
    pub fn take(&mut self, alloc: Global, slot: u32) -> Vec<Waiting>
        requires sized { (count : ℕ) × (slot < count) × IsSized count self.old }
        ensures taken { result.items ≡ waits self.old slot }
        ensures flags { (other : ℕ) → flag self.new other ≡ (if nat_eq other slot then true else flag self.old other) }
        ensures waiting { (child : ℕ) → waits self.new child ≡ (if nat_eq child slot then [] else waits self.old child) }
        ensures ready { self.new.ready ≡ self.old.ready }
        ensures sized { (count : ℕ) → IsSized count self.old → IsSized count self.new }
    {
        self.written[slot as usize] = true;
        replace(&mut self.waiting[slot as usize], Vec::new(alloc))
    }

    /// Makes a cell ready.
    fn make_ready(&mut self, slot: u32) -> Result<(), NoMemory>
        ensures ready { OnOk result ((other : ℕ) → has self.new other ≡ (if nat_eq other slot then true else has self.old other)) }
        ensures written { self.new.written ≡ self.old.written }
        ensures waiting { self.new.waiting ≡ self.old.waiting }
    {
        self.ready.insert(slot)?;
        Ok(())
    }

    /// Lets a cell wait for a child.
    fn park(&mut self, child: u32, cell: Waiting) -> Result<(), NoMemory>
        requires { child < length self.old.waiting.items }
        ensures waiting { OnOk result ((other : ℕ) → waits self.new other ≡ (if nat_eq other child then waits self.old child ++ cell ∷ [] else waits self.old other)) }
        ensures ready { self.new.ready ≡ self.old.ready }
        ensures written { self.new.written ≡ self.old.written }
        ensures sized { length self.new.waiting.items ≡ length self.old.waiting.items }
    {
        self.waiting[child as usize].push(cell)?;
        Ok(())
    }

    /// Whether the cell of an instance is written, or stands in another library.
    fn is_past(&self, inst: &Inst, lib: LibId) -> bool
        ensures { result ≡ is_past lib.0 (flag self.now) inst.now }
    {
        if inst.of.lib != lib {
            return true;
        }
        match self.written.as_slice().get(inst.of.slot as usize) {
            Some(written) => *written,
            None => false,
        }
    }

    /// The place of the first instance from a place on whose cell stands in the library and is not written.
    fn first_unwritten(
        &self,
        insts: &PartsRef<'_, Listed<Inst>>,
        lib: LibId,
        from: usize,
    ) -> Option<usize>
        ensures none { IfNone result (AllPast lib.0 (flag self.now) insts.now from (length insts.now)) }
        ensures some { IfSome result (IsFirstUnwritten lib.0 (flag self.now) insts.now from) }
    {
        for place in from..insts.len() {
            if !self.is_past(insts.at(place), lib) {
                return Some(place);
            }
        }
        None
    }

    /// Lets a cell wait for its first child that is not written, or makes it ready where there is none.
    fn place<S: Shown>(&mut self, design: &S, lib: LibId, cell: Waiting) -> Result<(), NoMemory>
        requires { IsSized (length (cells_in (S.design design.now) lib)) self.old }
        ensures placed { OnOk result ((done : List ℕ) (pending : List Waiting) → IsReadyQueue lib.0 (cells_in (S.design design.now) lib) done (cell ∷ pending) self.old
            → IsReadyQueue lib.0 (cells_in (S.design design.now) lib) done pending self.new) }
        ensures sized { OnOk result (IsSized (length (cells_in (S.design design.now) lib)) self.new) }
    {
        let id = CellId {
            lib,
            slot: cell.slot,
        };
        let Some(body) = design.cell(id) else {
            return Ok(());
        };
        let insts = insts_of(&body.contents);
        match self.first_unwritten(&insts, lib, cell.from) {
            Some(from) => self.park(
                insts.at(from).of.slot,
                Waiting {
                    slot: cell.slot,
                    from,
                },
            ),
            None => self.make_ready(cell.slot),
        }
    }

    /// Finds a place for each of these cells.
    pub fn settle<S: Shown>(
        &mut self,
        design: &S,
        lib: LibId,
        cells: &[Waiting],
    ) -> Result<(), NoMemory>
        requires { IsSized (length (cells_in (S.design design.now) lib)) self.old }
        ensures placed { OnOk result ((done : List ℕ) → IsReadyQueue lib.0 (cells_in (S.design design.now) lib) done cells.now self.old
            → IsReadyQueue lib.0 (cells_in (S.design design.now) lib) done [] self.new) }
        ensures sized { OnOk result (IsSized (length (cells_in (S.design design.now) lib)) self.new) }
    {
        for cell in cells {
            self.place(design, lib, *cell)?;
        }
        Ok(())
    }
}

/// The instances of contents: none of a leaf.
fn insts_of(contents: &Option<Shared<Contents>>) -> PartsRef<'_, Listed<Inst>>
    ensures { result ≡ insts_in contents.now }
{
    let Some(contents) = contents else {
        return PartsRef::none();
    };
    contents.insts.lent()
}
