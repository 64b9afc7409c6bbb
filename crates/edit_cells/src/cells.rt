//! `Cells`: a design that is read and edited cell by cell.
ghost use Rattle.std.specs.Prelude.{◌≡◌, ◌≤◌, IfOk, IfSome, OnErr, OnOk, ◌⊎◌, Some, length, take, not};
ghost use Rattle.std.specs.Option.{option_copied, option_map};
ghost use Rattle.std.specs.List.{list_any};
ghost use Rattle.std.specs.Borrow.{sem};
ghost use Rattle.std.specs.Io.BufRead.{Rests};
ghost use Rattle.netlist_schema.specs.Design.{cell_at, cells_in, lib_at};
ghost use Rattle.netlist_schema.specs.Names.{cell_names};
ghost use Rattle.netlist_schema.specs.Valid.{IsValid, IsValidCell};
ghost use Rattle.netlist_schema.specs.declared.ids.Object.TheVariants.{Directory, Notes};
ghost use Rattle.netlist_schema.specs.declared.limits.TheConstants.{MOST_CELLS, MOST_PORTS};
ghost use Rattle.edit_rules_spec.specs.Edit.{edited};
ghost use Rattle.edit_rules_spec.specs.Find.{cell_in, is_same, lib_named};
ghost use Rattle.edit_rules_spec.specs.Reading.{IsFor};
ghost use Rattle.edit_rules_spec.specs.Seen.{contents_at};
ghost use Rattle.edit_cells.specs.Change.{CanAllBeMade, HasMade, edits_of};
ghost use Rattle.edit_cells.specs.Parts.{HasLimits, IsFace, IsInside, seen_at, shown_by};
ghost use Rattle.edit_cells.specs.State.{ReadsOrFails, State};

use crate::change::Change;
use crate::face::Face;
use netlist_schema::{CellBody, CellId, Contents, Ident, LibHead, LibId, NoMemory, Note, Row};

/// A design, the objects that were read of it, and the objects that were written. It also knows, for clauses alone, the
/// design that editing began with, which no call changes.
///
/// A call that reads keeps the design and what was written. Where it is Ok, the list of objects read goes on by those that
/// the call reads, and an object that stands there already may be left out. The one error is that an allocation was refused;
/// then nothing is changed.
pub trait Cells {
    /// What it means.
    ghost state: { Self → State };

    /// The library with this name. Libraries never change, so this reads no object.
    fn lib_named(&self, name: &Ident) -> Option<LibId>
        ensures value { result ≡ lib_named (state self.now).design name.now }
        ensures valid { IsValid (state self.now).design };

    /// The head of a library: `None` exactly where there is no such library. It reads no object.
    fn lib_head(&self, lib: LibId) -> Option<&LibHead>
        ensures { option_copied result ≡ option_map (λ l. l.head) (lib_at (state self.now).design lib) };

    /// The cell of the top: `None` exactly where there is no top. The top never changes, so this reads no object.
    fn top_cell(&self) -> Option<CellId>
        ensures value { result ≡ option_map (λ top. top.cell) (state self.now).design.top }
        ensures valid { IsValid (state self.now).design };

    /// The cell with this name in a library. It reads what is seen of the cell where it is found, else the directory.
    fn find(&mut self, lib: LibId, name: &Ident) -> Result<Option<CellId>, NoMemory>
        ensures found { IfOk result (λ found. found ≡ cell_in (state self.old).design name.now lib) }
        ensures reads { ReadsOrFails result (state self.old) (state self.new) (IsFor (cell_in (state self.old).design name.now lib) (Some lib)) };

    /// The number of cells of a library, 0 where there is none. It reads the directory.
    fn count(&mut self, lib: LibId) -> Result<u32, NoMemory>
        ensures value { IfOk result (λ n. n ≡ length (cells_in (state self.old).design lib)) }
        ensures limit { IfOk result (λ n. n ≤ MOST_CELLS) }
        ensures reads { ReadsOrFails result (state self.old) (state self.new) (λ o. o ≡ Directory lib) };

    /// Whether no cell of the library has this name, where the case of ASCII letters is ignored. It reads the directory.
    fn name_free(&mut self, lib: LibId, name: &Ident) -> Result<bool, NoMemory>
        ensures value { IfOk result (λ free. free ≡ not (list_any (λ other. is_same other name.now) (cell_names (cells_in (state self.old).design lib)))) }
        ensures reads { ReadsOrFails result (state self.old) (state self.new) (λ o. o ≡ Directory lib) };

    /// What is seen of a cell from outside: `None` exactly where there is no such cell.
    fn face(&mut self, id: CellId) -> Result<Option<Face<'_>>, NoMemory>
        ensures found { IfOk result (λ found. option_map shown_by found ≡ seen_at (state self.old).design id) }
        ensures limit { IfOk result (λ found. IfSome found (λ face. length face.ports.now ≤ MOST_PORTS)) }
        ensures* reads { sem 𝓛 (Rests Self.row self.entry (λ new. ReadsOrFails result (state self.old) (state new) (IsFace id))) };

    /// What is inside a cell: `None` exactly where there is no such cell, or it is a leaf.
    fn contents(&mut self, id: CellId) -> Result<Option<&Contents>, NoMemory>
        ensures found { IfOk result (λ found. option_copied found ≡ contents_at (state self.old).design id) }
        ensures limits { IfOk result (λ found. IfSome found (λ contents. HasLimits contents.now)) }
        ensures* reads { sem 𝓛 (Rests Self.row self.entry (λ new. ReadsOrFails result (state self.old) (state new) (IsInside id))) };

    /// A whole cell: `None` exactly where there is no such cell. It reads both of its objects.
    fn cell(&mut self, id: CellId) -> Result<Option<&CellBody>, NoMemory>
        ensures found { IfOk result (λ found. option_copied found ≡ cell_at (state self.old).design id) }
        ensures valid { IfOk result (λ found. IfSome found (λ body. IsValidCell (state self.old).design id body.now)) }
        ensures* reads { sem 𝓛 (Rests Self.row self.entry (λ new. ReadsOrFails result (state self.old) (state new) (λ o. IsFace id o ⊎ IsInside id o))) };

    /// The notes, in order.
    fn notes(&mut self) -> Result<&Row<Note>, NoMemory>
        ensures found { IfOk result (λ notes. notes.now ≡ (state self.old).design.notes) }
        ensures* reads { sem 𝓛 (Rests Self.row self.entry (λ new. ReadsOrFails result (state self.old) (state new) (λ o. o ≡ Notes))) };

    /// Writes a change, all of it or nothing. It adds to the objects written those that each change of a cell is said to
    /// write, and the notes where they are given; the list of objects read stays. It drops the change where memory is refused.
    fn write(&mut self, change: Change) -> Result<(), NoMemory>
        requires can { CanAllBeMade (state self.old).design change.cells }
        requires valid { IsValid (edited (state self.old).design (edits_of (state self.old).design change)) }
        ensures ok { OnOk result (HasMade (state self.old) (state self.new) (edits_of (state self.old).design change)) }
        ensures err { OnErr result (state self.new ≡ state self.old) };

    /// The length of the list of objects read.
    fn mark(&self) -> u64
        ensures { result ≡ length (state self.now).reads };

    /// Cuts the list of objects read back to this length.
    fn back(&mut self, mark: u64)
        requires { mark ≤ length (state self.old).reads }
        ensures { state self.new ≡ record (state self.old) { reads = take mark (state self.old).reads } };
}
