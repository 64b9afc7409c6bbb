//! Libraries, with their cells one after another.
ghost use Rattle.std.specs.Prelude.{◌≡◌, ℕ, [], ◌∷◌, ◌++◌, List, length, true};
ghost use Rattle.edif_spelling_spec.specs.Tree.{Placed, bare};
ghost use Rattle.edif_spec.specs.Canonical.{library_keyword};
ghost use Rattle.edif_spec.specs.Design as design;
ghost use Rattle.edif_spec.specs.Faults.{those_of};
ghost use Rattle.edif_spec.specs.Means.{is_library};
ghost use Rattle.edif_spec.specs.Rows.{has_keyword};
ghost use Rattle.edif_spec.specs.Stands.{LibraryFault, libraries};
ghost use Rattle.edif_spec.specs.declared.keyword.Keyword.TheVariants.{Cell as CellWord};
ghost use Rattle.edif_tree.specs.Handles.{here, all};
ghost use Rattle.edif_build.specs.Libraries.{CellsAre, CellsFail, FailsAt, FailsIn, LibsAre, LibsFail, ReadHead};
ghost use Rattle.edif_parts.specs.Reading.{Answers};

use crate::cells::read_cell;
use crate::levels::read_level;
use edif_contents::Libraries;
use edif_grammar::is_form_of;
use edif_parts::{EdifError, clash, over_limit, read_name, read_parts, room_wanted};
use edif_spec::{ClashKind, Keyword};
use edif_tree::{Node, Nodes};
use netlist_schema::{LibHead, MOST_CELLS, MOST_LIBS, NoMemory};
use std::alloc::Global;

/// The head of a library, and what follows it.
#[derive(Drop)]
pub struct Head<'a> {
    /// The library without its cells.
    pub head: LibHead,
    /// The number of bytes before its identifier.
    pub place: u64,
    /// The nodes of what follows its technology, in order.
    pub inner: Nodes<'a>,
}

/// Whether a library stands at a node. Takes no memory.
fn is_library(node: Node<'_>) -> bool
    ensures { result ≡ is_library (bare (here node.entry)) }
{
    if is_form_of(node, Keyword::Library) {
        return true;
    }
    is_form_of(node, Keyword::External)
}

/// The keyword of a library, or of an external one.
fn library_keyword(external: bool) -> Keyword
    ensures { result ≡ library_keyword external }
{
    if external {
        Keyword::External
    } else {
        Keyword::Library
    }
}

/// The head of the library at a node.
fn read_head(alloc: Global, node: Node<'_>) -> Result<Head<'_>, EdifError>
    requires { is_library (bare (here node)) ≡ true }
    ensures { Answers (ReadHead (here node.entry)) (λ f. (before : List design.Lib) → LibraryFault before (here node.entry) f) result }
{
    let external = is_form_of(node, Keyword::External);
    let keyword = library_keyword(external);
    let parts = read_parts(alloc, node, keyword)?;
    read_level(alloc, parts.fixed.at(1), Keyword::EdifLevel)?;
    let name = read_name(alloc, parts.fixed.at(0))?;
    Ok(Head {
        head: LibHead {
            name: name.name,
            external,
        },
        place: name.place,
        inner: parts.inner,
    })
}

/// Adds the cell at a node to the last library, which is that at `own`.
fn add_cell(alloc: Global, node: Node<'_>, libs: &mut Libraries, own: u32) -> Result<(), EdifError>
    requires keyword { has_keyword CellWord (bare (here node)) ≡ true }
    requires known { (before : List design.Lib) × (head : design.LibHead) × (names : List (List ℕ × ℕ)) × (ts : List Placed) × CellsAre before head names ts libs.old }
    ensures { (before : List design.Lib) (head : design.LibHead) (names : List (List ℕ × ℕ)) (ts : List Placed) → CellsAre before head names ts libs.old → own ≡ length before
        → Answers (λ _. CellsAre before head names (ts ++ here node.entry ∷ []) libs.new) (FailsAt (CellsFail before head) ts (here node.entry)) result }
{
    let count = libs.cell_count();
    if count >= MOST_CELLS {
        return Err(over_limit(MOST_CELLS as u64, node.place()));
    }
    let cell = read_cell(alloc, node, libs, own)?;
    match libs.add(cell.cell, cell.place)? {
        Some(earlier) => Err(clash(ClashKind::Duplicate, cell.place, earlier)),
        None => Ok(()),
    }
}

/// Adds the cells among these followers of the last library, which is that at `own`.
fn add_cells(
    alloc: Global,
    inner: Nodes<'_>,
    libs: &mut Libraries,
    own: u32,
) -> Result<(), EdifError>
    requires { (before : List design.Lib) × (head : design.LibHead) × (names : List (List ℕ × ℕ)) × CellsAre before head names [] libs.old × (own ≡ length before) }
    ensures { (before : List design.Lib) (head : design.LibHead) (names : List (List ℕ × ℕ)) → CellsAre before head names [] libs.old → own ≡ length before
        → Answers (λ _. CellsAre before head names (those_of CellWord (all inner.entry)) libs.new) (CellsFail before head (those_of CellWord (all inner.entry))) result }
{
    for node in inner.iter() {
        if !is_form_of(node, Keyword::Cell) {
            continue;
        }
        add_cell(alloc, node, libs, own)?;
    }
    Ok(())
}

/// Makes room for the cells among these followers of the last library, where they are not too many. The libraries stay.
fn room_for_cells(inner: Nodes<'_>, libs: &mut Libraries) -> Result<(), NoMemory>
    ensures { libs.new ≡ libs.old }
{
    let count = room_wanted(inner, Keyword::Cell);
    if count > MOST_CELLS {
        return Ok(());
    }
    libs.make_room(count)
}

/// As `add_cells`, with room for all of them from the first on.
fn fill_library(
    alloc: Global,
    inner: Nodes<'_>,
    libs: &mut Libraries,
    own: u32,
) -> Result<(), EdifError>
    requires { (before : List design.Lib) × (head : design.LibHead) × (names : List (List ℕ × ℕ)) × CellsAre before head names [] libs.old × (own ≡ length before) }
    ensures { (before : List design.Lib) (head : design.LibHead) (names : List (List ℕ × ℕ)) → CellsAre before head names [] libs.old → own ≡ length before
        → Answers (λ _. CellsAre before head names (those_of CellWord (all inner.entry)) libs.new) (CellsFail before head (those_of CellWord (all inner.entry))) result }
{
    room_for_cells(inner, libs)?;
    add_cells(alloc, inner, libs, own)
}

/// Adds the library at a node.
fn add_library(alloc: Global, node: Node<'_>, libs: &mut Libraries) -> Result<(), EdifError>
    requires keyword { is_library (bare (here node)) ≡ true }
    requires known { (ts : List Placed) × LibsAre ts libs.old }
    ensures { (ts : List Placed) → LibsAre ts libs.old → Answers (λ _. LibsAre (ts ++ here node.entry ∷ []) libs.new) (FailsAt LibsFail ts (here node.entry)) result }
{
    let own = libs.len();
    if own >= MOST_LIBS {
        return Err(over_limit(MOST_LIBS as u64, node.place()));
    }
    let head = read_head(alloc, node)?;
    match libs.open(head.head, head.place)? {
        Some(earlier) => Err(clash(ClashKind::Duplicate, head.place, earlier)),
        None => fill_library(alloc, head.inner, libs, own as u32),
    }
}

/// Adds the libraries among these followers of a file.
pub(crate) fn add_libraries(
    alloc: Global,
    inner: Nodes<'_>,
    libs: &mut Libraries,
) -> Result<(), EdifError>
    requires { (ds : List Placed) × LibsAre ds libs.old }
    ensures { (ds : List Placed) → LibsAre ds libs.old → Answers (λ _. LibsAre (ds ++ libraries (all inner.entry)) libs.new) (FailsIn LibsFail (ds ++ libraries (all inner.entry))) result }
{
    for node in inner.iter() {
        if !is_library(node) {
            continue;
        }
        add_library(alloc, node, libs)?;
    }
    Ok(())
}
