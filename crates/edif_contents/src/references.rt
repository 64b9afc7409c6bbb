//! References, and references to cells.
ghost use Rattle.std.specs.Prelude.{◌≡◌, ◌∷◌, [], ◌⊎◌, ◌≤◌, ℕ, List, None, Some, IsTrue, length, map, slice_get, true};
ghost use Rattle.std.specs.List.{AllByRecursion};
ghost use Rattle.edif_spelling_spec.specs.Tree.{Word', bare, word};
ghost use Rattle.edif_spec.specs.Design as design;
ghost use Rattle.edif_spec.specs.Faults.{Among, RowFault, arguments};
ghost use Rattle.edif_spec.specs.Keyword.{AnIdentifier};
ghost use Rattle.edif_spec.specs.Means.{MeansCellRef, MeansLibraryRef, MeansViewRef, meant};
ghost use Rattle.edif_spec.specs.Means as edif;
ghost use Rattle.edif_spec.specs.Rows.{IsFormOf, has_keyword, is_choice};
ghost use Rattle.edif_spec.specs.Stands.{CellRefFault, Dangles, LibraryRefFault, ViewRefFault};
ghost use Rattle.edif_spec.specs.declared.keyword.Keyword.TheVariants.{CellRef, InstanceRef, LibraryRef, ViewRef};
ghost use Rattle.edif_spec.specs.declared.fault.Kind.TheVariants.{BadForm};
ghost use Rattle.edif_spec.specs.declared.fault.MeaningFault.TheVariants.{At};
ghost use Rattle.edif_tree.specs.Handles.{here, all};
ghost use Rattle.edif_parts.specs.Names.{Tells};
ghost use Rattle.edif_parts.specs.Reading.{Answers};

use crate::known::Libraries;
use edif_names::Meant;
use edif_parts::{EdifError, bad_form, fault_at, read_parts, word_at};
use edif_spec::{Keyword, Kind};
use edif_tree::{Node, Nodes};
use netlist_schema::{CellId, Ident, LibId};
use std::alloc::Global;

/// A reference, as its tree lends it.
#[derive(Clone, Copy)]
pub struct Reference<'a> {
    /// The name.
    pub name: &'a Ident,
    /// The number of bytes before it.
    pub place: u64,
}

/// The reference at a node where an identifier stands. Takes no memory.
#[inline(always)]
pub fn reference_at(node: Node<'_>) -> Reference<'_>
    requires { IsTrue (is_choice AnIdentifier (bare (here node))) }
    ensures { here node.entry ≡ Word' result.place result.name.now }
{
    Reference {
        name: word_at(node),
        place: node.place(),
    }
}

/// What is meant by a reference at a place, where its scope answers so: the one definition, or a fault. Takes no memory.
#[inline(always)]
pub(crate) fn resolve(answer: Meant, place: u64) -> Result<u32, EdifError>
    ensures { (scope : List (List ℕ)) (w : List ℕ) → Tells (meant scope w) answer → Answers (λ i. meant scope w ≡ edif.Found i) (Dangles scope (Word' place w)) result }
{
    match answer {
        Meant::Found(id) => Ok(id),
        Meant::Absent => Err(fault_at(Kind::Unresolved, place)),
        Meant::Several => Err(fault_at(Kind::Ambiguous, place)),
    }
}

/// The reference that a form of one identifier, and nothing else, makes.
#[inline(always)]
pub(crate) fn read_reference(
    alloc: Global,
    node: Node<'_>,
    keyword: Keyword,
) -> Result<Reference<'_>, EdifError>
    requires keyword { has_keyword keyword (bare (here node)) ≡ true }
    requires is_a_ref { (keyword ≡ LibraryRef) ⊎ (keyword ≡ InstanceRef) }
    ensures { Answers (λ r. IsFormOf keyword (bare (here node.entry)) (word r.name.now ∷ []) [] × (slice_get (arguments (here node.entry)) 0 ≡ Some (Word' r.place r.name.now))) (RowFault keyword (here node.entry)) result }
{
    let parts = read_parts(alloc, node, keyword)?;
    Ok(reference_at(parts.fixed.at(0)))
}

/// The library that a reference at a node means.
fn read_library_ref(alloc: Global, node: Node<'_>, libs: &Libraries) -> Result<u32, EdifError>
    requires { has_keyword LibraryRef (bare (here node)) ≡ true }
    ensures { Answers (MeansLibraryRef libs.now.libs None (bare (here node.entry) ∷ [])) (LibraryRefFault libs.now.libs (here node.entry)) result }
{
    let name = read_reference(alloc, node, Keyword::LibraryRef)?;
    resolve(libs.lib(name.name), name.place)
}

/// The library that what follows the name of a cell means: that of a reference, or else `own`.
fn read_library(
    alloc: Global,
    inner: Nodes<'_>,
    place: u64,
    libs: &Libraries,
    own: Option<u32>,
) -> Result<u32, EdifError>
    requires { AllByRecursion (λ u. has_keyword LibraryRef (bare u) ≡ true) (all inner) × (length (all inner) ≤ 1) }
    ensures { Answers (MeansLibraryRef libs.now.libs own (map bare (all inner.entry))) (λ f. Among (LibraryRefFault libs.now.libs) (all inner.entry) f ⊎ ((own ≡ None) × (all inner.entry ≡ []) × (f ≡ At BadForm place))) result }
{
    match inner.split_first() {
        Some((node, _)) => read_library_ref(alloc, node, libs),
        None => match own {
            Some(lib) => Ok(lib),
            None => Err(bad_form(place)),
        },
    }
}

/// The cell that a reference at a node means. Without a library it is in `own`, the library in which the reference stands.
pub fn read_cell_ref(
    alloc: Global,
    node: Node<'_>,
    libs: &Libraries,
    own: Option<u32>,
) -> Result<CellId, EdifError>
    requires { has_keyword CellRef (bare (here node)) ≡ true }
    ensures { Answers (MeansCellRef libs.now.libs own (bare (here node.entry))) (CellRefFault libs.now.libs own (here node.entry)) result }
{
    let parts = read_parts(alloc, node, Keyword::CellRef)?;
    let lib = read_library(alloc, parts.inner, parts.place, libs, own)?;
    let name = reference_at(parts.fixed.at(0));
    let slot = resolve(libs.cell(lib, name.name), name.place)?;
    Ok(CellId {
        lib: LibId(lib),
        slot,
    })
}

/// The identifier of the view of a cell, no bytes where there is no such cell. Takes no memory.
fn view_name(libs: &Libraries, id: CellId) -> &[u8]
    ensures { result.now ≡ design.view_id libs.now.libs id }
{
    match libs.body(id) {
        Some(cell) => cell.view.id.as_slice(),
        None => &[],
    }
}

/// What a name means as that of the view of a cell. Takes no memory.
fn view(libs: &Libraries, id: CellId, name: &Ident) -> Meant
    ensures { Tells (meant (design.view_id libs.now.libs id ∷ []) name.now) result }
{
    let known = view_name(libs, id);
    if name.as_slice() == known {
        return Meant::Found(0);
    }
    if name.as_slice().eq_ignore_ascii_case(known) {
        Meant::Found(0)
    } else {
        Meant::Absent
    }
}

/// The cell whose view a reference at a node means.
pub(crate) fn read_view_ref(
    alloc: Global,
    node: Node<'_>,
    libs: &Libraries,
    own: Option<u32>,
) -> Result<CellId, EdifError>
    requires { has_keyword ViewRef (bare (here node)) ≡ true }
    ensures { Answers (MeansViewRef libs.now.libs own (bare (here node.entry))) (ViewRefFault libs.now.libs own (here node.entry)) result }
{
    let parts = read_parts(alloc, node, Keyword::ViewRef)?;
    let cell = read_cell_ref(alloc, parts.fixed.at(1), libs, own)?;
    let name = reference_at(parts.fixed.at(0));
    resolve(view(libs, cell, name.name), name.place)?;
    Ok(cell)
}
