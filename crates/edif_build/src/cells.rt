//! Views and cells.
ghost use Rattle.std.specs.Prelude.{◌≡◌, ◌≤◌, IfNone, IfSome, IsTrue, Some, false, length, true};
ghost use Rattle.netlist_schema.specs.Names.{AreDistinct};
ghost use Rattle.edif_spelling_spec.specs.Tree.{bare};
ghost use Rattle.edif_spec.specs.Canonical.{kind_word};
ghost use Rattle.edif_spec.specs.Design as design;
ghost use Rattle.edif_spec.specs.Faults.{Among, those_of};
ghost use Rattle.edif_spec.specs.Keyword.{same};
ghost use Rattle.edif_spec.specs.Means.{IsNetlist, MeansKind};
ghost use Rattle.edif_spec.specs.Rows.{has_keyword};
ghost use Rattle.edif_spec.specs.Stands.{CellFault, CellTypeFault, ContentsFault, TypeFault, ViewFault, is_cell_type};
ghost use Rattle.edif_spec.specs.declared.keyword.Keyword.TheVariants.{Cell as CellWord, CellType, Contents as ContentsWord, Interface as InterfaceWord, View as ViewWord, ViewType};
ghost use Rattle.edif_tree.specs.Handles.{here, all};
ghost use Rattle.edif_build.specs.Cells.{OneNode, ReadCell, ReadOnce, ReadView, ReadViewBody, ViewBodyFault, ViewsFault, body_of};
ghost use Rattle.edif_contents.specs.Insides.{ReadContents};
ghost use Rattle.edif_parts.specs.Names.{ids};
ghost use Rattle.edif_parts.specs.Reading.{Answers};

use crate::headings::{Heading, read_heading};
use edif_contents::{KnownCell, Libraries, read_contents, reference_at};
use edif_grammar::is_form_of;
use edif_parts::{
    EdifError, Interface, NameAt, Names, bad_form, clash, fault_at, is_word, read_interface,
    read_parts,
};
use edif_spec::{ClashKind, Keyword, Kind};
use edif_tree::{Node, Nodes};
use netlist_schema::{CellBody, CellKind, Contents, Ident, Port, Shared};
use std::alloc::Global;

/// The interface of a view, and its contents.
#[derive(Drop)]
pub struct ViewBody {
    /// Its interface.
    pub interface: Interface,
    /// Its contents; a leaf has none.
    pub inside: Option<Shared<Contents>>,
}

/// What a view says.
#[derive(Drop)]
pub struct View {
    /// Its name, and its own properties.
    pub heading: Heading,
    /// Its interface, and its contents.
    pub body: ViewBody,
}

/// A cell, and where its identifier stands.
#[derive(Drop)]
pub struct CellAt {
    /// The cell, with the names of its ports.
    pub cell: KnownCell,
    /// The number of bytes before its identifier.
    pub place: u64,
}

/// The type of cell that a word names.
fn kind_named(word: &Ident) -> Option<CellKind>
    ensures some { IfSome result (λ kind. IsTrue (same word.now (kind_word kind))) }
    ensures none { IfNone result (is_cell_type word.now ≡ false) }
{
    if is_word(word, b"GENERIC") {
        Some(CellKind::Generic)
    } else if is_word(word, b"TIE") {
        Some(CellKind::Tie)
    } else if is_word(word, b"RIPPER") {
        Some(CellKind::Ripper)
    } else {
        None
    }
}

/// The type that the form at a node means.
fn read_kind(alloc: Global, node: Node<'_>) -> Result<CellKind, EdifError>
    requires { has_keyword CellType (bare (here node)) ≡ true }
    ensures { Answers (MeansKind (bare (here node.entry))) (CellTypeFault (here node.entry)) result }
{
    let parts = read_parts(alloc, node, Keyword::CellType)?;
    let word = reference_at(parts.fixed.at(0));
    match kind_named(word.name) {
        Some(kind) => Ok(kind),
        None => Err(bad_form(word.place)),
    }
}

/// Reads the type of a view, which is to be a netlist.
fn read_view_type(alloc: Global, node: Node<'_>) -> Result<(), EdifError>
    requires { has_keyword ViewType (bare (here node)) ≡ true }
    ensures { Answers (λ _. IsNetlist (bare (here node.entry))) (TypeFault (here node.entry)) result }
{
    let parts = read_parts(alloc, node, Keyword::ViewType)?;
    let word = reference_at(parts.fixed.at(0));
    if is_word(word.name, b"NETLIST") {
        return Ok(());
    }
    Err(fault_at(Kind::NotNetlist, word.place))
}

/// The contents among these followers of a view, where there are some, in a cell with these ports.
fn read_contents_among(
    alloc: Global,
    inner: Nodes<'_>,
    libs: &Libraries,
    own: Option<u32>,
    ports: &[Port],
    names: &Names,
) -> Result<Option<Shared<Contents>>, EdifError>
    requires few { length (those_of ContentsWord (all inner)) ≤ 1 }
    requires names { ids names.now ≡ design.port_ids ports.now }
    ensures { Answers (ReadOnce (ReadContents libs.now.libs own ports.now) (those_of ContentsWord (all inner.entry))) (Among (ContentsFault libs.now.libs own ports.now) (those_of ContentsWord (all inner.entry))) result }
{
    for node in inner.iter() {
        if is_form_of(node, Keyword::Contents) {
            let inside = read_contents(alloc, node, libs, own, ports, names)?;
            return Ok(Some(inside));
        }
    }
    Ok(None)
}

/// The interface that the form at a node means, and the contents among these followers of its view.
fn read_view_body(
    alloc: Global,
    node: Node<'_>,
    inner: Nodes<'_>,
    libs: &Libraries,
    own: Option<u32>,
) -> Result<ViewBody, EdifError>
    requires keyword { has_keyword InterfaceWord (bare (here node)) ≡ true }
    requires few { length (those_of ContentsWord (all inner)) ≤ 1 }
    ensures { Answers (ReadViewBody libs.now.libs own (here node.entry) (all inner.entry)) (ViewBodyFault libs.now.libs own (here node.entry) (all inner.entry)) result }
{
    let interface = read_interface(alloc, node)?;
    let ports = interface.ports.as_slice();
    let inside = read_contents_among(alloc, inner, libs, own, ports, &interface.names)?;
    Ok(ViewBody { interface, inside })
}

/// The view that a form at a node means, of a cell of the library `own`.
fn read_view(
    alloc: Global,
    node: Node<'_>,
    libs: &Libraries,
    own: Option<u32>,
) -> Result<View, EdifError>
    requires { has_keyword ViewWord (bare (here node)) ≡ true }
    ensures { Answers (ReadView libs.now.libs own (here node.entry)) (ViewFault libs.now.libs own (here node.entry)) result }
{
    let parts = read_parts(alloc, node, Keyword::View)?;
    read_view_type(alloc, parts.fixed.at(1))?;
    let heading = read_heading(alloc, parts.fixed.at(0), parts.inner)?;
    let body = read_view_body(alloc, parts.fixed.at(2), parts.inner, libs, own)?;
    Ok(View { heading, body })
}

/// The node of the one view among the followers of a cell at a place. Takes no memory.
fn one_view(inner: Nodes<'_>, place: u64) -> Result<Node<'_>, EdifError>
    ensures { Answers (λ found. OneNode (those_of ViewWord (all inner.entry)) (Some found)) (ViewsFault (those_of ViewWord (all inner.entry)) place) result }
{
    let mut view: Option<Node<'_>> = None;
    for node in inner.iter() {
        if !is_form_of(node, Keyword::View) {
            continue;
        }
        if let Some(first) = view {
            let earlier = first.place();
            return Err(clash(ClashKind::SecondView, node.place(), earlier));
        }
        view = Some(node);
    }
    match view {
        Some(view) => Ok(view),
        None => Err(bad_form(place)),
    }
}

/// A cell by its parts. Takes no memory.
fn cell_of(heading: Heading, kind: CellKind, view: View) -> CellAt
    requires ports { ids view.body.interface.names ≡ design.port_ids view.body.interface.ports }
    requires insts { AreDistinct (design.inst_ids (design.insts_of (body_of view heading.name.name kind heading.properties))) }
    ensures cell { result.cell ≡ body_of view heading.name.name kind heading.properties }
    ensures place { result.place ≡ heading.name.place }
{
    let Heading { name, properties } = heading;
    let NameAt { name, place } = name;
    let View { heading, body } = view;
    let Heading {
        name: view,
        properties: view_properties,
    } = heading;
    let ViewBody { interface, inside } = body;
    let Interface {
        ports,
        properties: interface_properties,
        names,
    } = interface;
    let body = CellBody {
        name,
        kind,
        properties,
        view: view.name,
        view_properties,
        interface_properties,
        ports,
        contents: inside,
    };
    let cell = KnownCell::of(body, names);
    CellAt { cell, place }
}

/// The cell of the library `own` that a form at a node means.
pub(crate) fn read_cell(
    alloc: Global,
    node: Node<'_>,
    libs: &Libraries,
    own: u32,
) -> Result<CellAt, EdifError>
    requires { has_keyword CellWord (bare (here node)) ≡ true }
    ensures { Answers (ReadCell libs.now.libs (Some own) (here node.entry)) (CellFault libs.now.libs (Some own) (here node.entry)) result }
{
    let parts = read_parts(alloc, node, Keyword::Cell)?;
    let found = one_view(parts.inner, parts.place)?;
    let kind = read_kind(alloc, parts.fixed.at(1))?;
    let heading = read_heading(alloc, parts.fixed.at(0), parts.inner)?;
    let view = read_view(alloc, found, libs, Some(own))?;
    Ok(cell_of(heading, kind, view))
}
