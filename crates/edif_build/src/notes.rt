//! Notes: properties of occurrences, in a design's form.
ghost use Rattle.std.specs.Prelude.{◌≡◌, ◌<◌, ◌≤◌, ◌++◌, [], ◌∷◌, IfErr, IfNone, IfOk, IfSome, List, None, OnOk, filter, length, true};
ghost use Rattle.edif_spelling_spec.specs.Tree.{Placed, bare};
ghost use Rattle.edif_spec.specs.Design as design;
ghost use Rattle.edif_spec.specs.Faults.{arguments};
ghost use Rattle.edif_spec.specs.Means.{is_note, meant};
ghost use Rattle.edif_spec.specs.Stands.{NoteFault, PathFault, StepFault, StepsTo};
ghost use Rattle.edif_tree.specs.Handles.{here, all};
ghost use Rattle.edif_parts.specs.Names.{DefinesName, Tells};
ghost use Rattle.edif_build.specs.Notes.{AreNoted, FailsBehind, HasNoteParts, IsAgain, NotesFail, ReadNote, ReadNotes, ReadPath, ShapeFault, StepAdded, flat, is_mark};
ghost use Rattle.edif_parts.specs.Reading.{Answers, Names as FailsBy};

use edif_contents::Libraries;
use edif_grammar::is_form_of;
use edif_names::Meant;
use edif_parts::{EdifError, Names, bad_form, clash, fault_at, is_word, over_limit, read_property};
use edif_spec::{ClashKind, Keyword, Kind};
use edif_tree::{Node, Nodes, Shape};
use indexmap::IndexMap;
use netlist_schema::{CellId, Copied, Ident, Inst, MOST_NOTES, NoMemory, Note, Row};
use std::alloc::Global;
use std::collections::BTreeMap;
use std::marker::Model;

/// A note, and where the key of its property stands.
#[derive(Drop)]
pub struct NoteAt {
    /// The note.
    pub note: Note,
    /// The number of bytes before the identifier of its key.
    pub place: u64,
}

/// The parts of a note behind its mark.
#[derive(Clone, Copy)]
pub struct NoteParts<'a> {
    /// The node of its path.
    pub path: Node<'a>,
    /// The node of its property.
    pub property: Node<'a>,
}

/// Bytes that tell notes apart, no two equal, each with a place. Contracts see them in order.
pub struct NoteKeys {
    places: IndexMap<Vec<u8>, u64>,
}

impl Drop for NoteKeys {
    fn drop(self) {
        let NoteKeys { places: _ } = self;
    }
}

impl Model for NoteKeys {
    ghost use Rattle.std.specs.Prelude.{List, ℕ, map};

    ghost Value = { List (List ℕ × ℕ) };

    ghost view = { λ s. map (λ e. (e.0.items, e.1)) s.places.entries };
}

impl NoteKeys {
    /// No keys. Takes no memory.
    fn new(alloc: Global) -> NoteKeys
        ensures { result ≡ [] }
    {
        NoteKeys {
            places: IndexMap::new(alloc),
        }
    }

    /// Adds a key. Where it is there, the error says so, with the place of the earlier one.
    fn add(&mut self, key: Vec<u8>, place: u64) -> Result<(), EdifError>
        ensures ok { OnOk result (DefinesName self.old key.items place self.new None) }
        ensures err { IfErr result (λ e. FailsBy (IsAgain self.old key.items place) e) }
    {
        if let Some(earlier) = self.places.get(key.as_slice()).copied() {
            return Err(clash(ClashKind::Duplicate, place, earlier));
        }
        self.places.insert(key, place)?;
        Ok(())
    }
}

/// The path and the key of a note as bytes: each step with a byte 0 behind it, and the key.
fn key_of(alloc: Global, path: &[Ident], key: &Ident) -> Result<Vec<u8>, NoMemory>
    ensures { IfOk result (λ bytes. bytes.items ≡ flat path.now key.now) }
{
    let mut bytes = Vec::new(alloc);
    for step in path {
        bytes.extend_from_slice(step.as_slice())?;
        bytes.push(0)?;
    }
    bytes.extend_from_slice(key.as_slice())?;
    Ok(bytes)
}

/// The nodes of a form's arguments, behind its keyword, where there are at least so many. Takes no memory.
fn arguments_at(node: Node<'_>, least: usize) -> Option<Nodes<'_>>
    requires { 0 < least }
    ensures some { IfSome result (λ found. (all found ≡ arguments (here node.entry)) × (least ≤ length (all found))) }
    ensures none { IfNone result (length (arguments (here node.entry)) < least) }
{
    let Shape::Form(nodes) = node.shape() else {
        return None;
    };
    let (_, arguments) = nodes.split_first()?;
    if arguments.len() < least {
        return None;
    }
    Some(arguments)
}

/// The parts of the note at a node. Takes no memory.
fn note_parts(node: Node<'_>) -> Result<NoteParts<'_>, EdifError>
    ensures { Answers (HasNoteParts (here node.entry)) (ShapeFault (here node.entry)) result }
{
    let Some(inner) = arguments_at(node, 3) else {
        return Err(bad_form(node.place()));
    };
    let path = inner.at(1);
    if !is_form_of(path, Keyword::Path) {
        return Err(bad_form(path.place()));
    }
    let property = inner.at(2);
    if !is_form_of(property, Keyword::Property) {
        return Err(bad_form(property.place()));
    }
    if inner.len() > 3 {
        return Err(bad_form(inner.at(3).place()));
    }
    Ok(NoteParts { path, property })
}

/// The libraries, and the names of the instances of each cell that notes have reached, which are made once. Contracts see the
/// libraries.
struct Reached<'a> {
    libs: &'a Libraries,
    names: BTreeMap<CellId, Names>,
}

impl Drop for Reached<'_> {
    fn drop(self) {
        let Reached { libs: _, names: _ } = self;
    }
}

impl<'a> Model for Reached<'a> {
    ghost use Rattle.std.specs.BTreeMap.{get};
    ghost use Rattle.netlist_schema.specs.Order.{cell_cmp};
    ghost use Rattle.edif_spec.specs.Design as design;
    ghost use Rattle.edif_contents.specs.Known.{KnownLibs};
    ghost use Rattle.edif_build.specs.Reached.{AreNamesAt};

    ghost Value = { KnownLibs };

    ghost view = { λ r. r.libs.now };

    ghost invariant = { λ r. AreNamesAt r.libs.now.libs (get cell_cmp r.names) };
}

impl<'a> Reached<'a> {
    /// The libraries, where notes have reached no cell yet. Takes no memory.
    fn new(alloc: Global, libs: &'a Libraries) -> Reached<'a>
        ensures { result ≡ libs.now }
    {
        Reached {
            libs,
            names: BTreeMap::new(alloc),
        }
    }

    /// The libraries. Takes no memory.
    fn libs(&self) -> &'a Libraries
        ensures { result.now ≡ self.now }
    {
        self.libs
    }

    /// What a name means among the instances of a cell; nothing where there is no such cell. The first question about a cell makes the
    /// names of its instances.
    fn meant(&mut self, alloc: Global, id: CellId, name: &Ident) -> Result<Meant, NoMemory>
        ensures same { self.new ≡ self.old }
        ensures ok { IfOk result (λ m. Tells (meant (design.inst_ids (design.insts_at self.old.libs id)) name.now) m) }
    {
        if let Some(names) = self.names.get(&id) {
            return Ok(names.meant(name));
        }
        let names = self.libs.inst_names(alloc, id)?;
        let meant = names.meant(name);
        self.names.insert(id, names)?;
        Ok(meant)
    }
}

/// The instance that the step at a node means, in a cell. The libraries stay.
fn read_step<'a>(
    alloc: Global,
    node: Node<'_>,
    reached: &mut Reached<'a>,
    id: CellId,
) -> Result<&'a Inst, EdifError>
    ensures same { reached.new ≡ reached.old }
    ensures read { Answers (λ x. StepsTo reached.old.libs id (here node.entry) x.now) (StepFault reached.old.libs id (λ _. ⊥) (here node.entry)) result }
{
    let place = node.place();
    let Shape::Word(name) = node.shape() else {
        return Err(bad_form(place));
    };
    let libs = reached.libs();
    let meant = reached.meant(alloc, id, name)?;
    let Meant::Found(index) = meant else {
        return Err(fault_at(Kind::BadPath, place));
    };
    match libs.insts(id).get(index as usize) {
        Some(inst) => Ok(inst.get()),
        None => Err(fault_at(Kind::BadPath, place)),
    }
}

/// Adds the identifier of the instance that the step at a node means, in a cell; the answer is the cell that the instance is of. The
/// libraries stay.
fn add_step(
    alloc: Global,
    node: Node<'_>,
    reached: &mut Reached<'_>,
    id: CellId,
    path: &mut Vec<Ident>,
) -> Result<CellId, EdifError>
    ensures same { reached.new ≡ reached.old }
    ensures added { Answers (StepAdded reached.old.libs id (here node.entry) path.old.items path.new.items) (StepFault reached.old.libs id (λ _. ⊥) (here node.entry)) result }
{
    let inst = read_step(alloc, node, reached, id)?;
    let name = Copied::copy(&inst.name.id, alloc)?;
    path.push(name)?;
    Ok(inst.of)
}

/// The identifiers that the steps of the path at a node mean, from the top cell on. The libraries stay.
fn read_path(
    alloc: Global,
    node: Node<'_>,
    reached: &mut Reached<'_>,
    top: CellId,
) -> Result<Row<Ident>, EdifError>
    ensures same { reached.new ≡ reached.old }
    ensures read { Answers (ReadPath reached.old.libs top (here node.entry)) (PathFault reached.old.libs top (here node.entry)) result }
{
    let Some(steps) = arguments_at(node, 1) else {
        return Err(fault_at(Kind::BadPath, node.place()));
    };
    let mut path = Vec::new(alloc);
    let mut id = top;
    for step in steps.iter() {
        id = add_step(alloc, step, reached, id, &mut path)?;
    }
    Ok(Row::of(path))
}

/// The note at a node, from the top cell on. The libraries stay.
fn read_note(
    alloc: Global,
    node: Node<'_>,
    reached: &mut Reached<'_>,
    top: CellId,
) -> Result<NoteAt, EdifError>
    requires { is_note (bare (here node)) ≡ true }
    ensures same { reached.new ≡ reached.old }
    ensures read { Answers (ReadNote reached.old.libs top (here node.entry)) (NoteFault reached.old.libs top (here node.entry)) result }
{
    let parts = note_parts(node)?;
    let path = read_path(alloc, parts.path, reached, top)?;
    let property = read_property(alloc, parts.property)?;
    Ok(NoteAt {
        note: Note {
            path,
            property: property.property,
        },
        place: property.place,
    })
}

/// Whether a note stands at a node. Takes no memory.
fn is_note(node: Node<'_>) -> bool
    ensures { result ≡ is_note (bare (here node.entry)) }
{
    if !is_form_of(node, Keyword::UserData) {
        return false;
    }
    match arguments_at(node, 1) {
        Some(inner) => is_mark(inner.at(0)),
        None => false,
    }
}

/// Whether the mark of notes stands at a node. Takes no memory.
fn is_mark(node: Node<'_>) -> bool
    ensures { result ≡ is_mark (bare (here node.entry)) }
{
    match node.shape() {
        Shape::Word(name) => is_word(name, b"netdb_note"),
        _ => false,
    }
}

/// Adds the key of a note. Where it is there, the error says so, with the place of the earlier one.
fn add_key(alloc: Global, note: &NoteAt, keys: &mut NoteKeys) -> Result<(), EdifError>
    ensures { Answers (λ _. DefinesName keys.old (flat note.now.note.path note.now.note.property.key.id) note.now.place keys.new None) (IsAgain keys.old (flat note.now.note.path note.now.note.property.key.id) note.now.place) result }
{
    let key = key_of(alloc, note.note.path.as_slice(), &note.note.property.key.id)?;
    keys.add(key, note.place)
}

/// Adds the note at a node to the notes, whose keys are `keys`. The libraries stay.
fn add_note(
    alloc: Global,
    node: Node<'_>,
    reached: &mut Reached<'_>,
    top: CellId,
    keys: &mut NoteKeys,
    notes: &mut Vec<Note>,
) -> Result<(), EdifError>
    requires { is_note (bare (here node)) ≡ true }
    ensures same { reached.new ≡ reached.old }
    ensures added { (ts : List Placed) → AreNoted reached.old.libs top ts notes.old.items keys.old
        → Answers (λ _. AreNoted reached.old.libs top (ts ++ here node.entry ∷ []) notes.new.items keys.new) (FailsBehind reached.old.libs top ts (here node.entry)) result }
{
    if notes.len() >= MOST_NOTES {
        return Err(over_limit(MOST_NOTES as u64, node.place()));
    }
    let note = read_note(alloc, node, reached, top)?;
    add_key(alloc, &note, keys)?;
    notes.push(note.note)?;
    Ok(())
}

/// The notes among these followers of a design's form, as `read_notes` gives them; their keys are put into a table without keys. The
/// libraries stay.
fn add_notes(
    alloc: Global,
    inner: Nodes<'_>,
    reached: &mut Reached<'_>,
    top: CellId,
    keys: &mut NoteKeys,
) -> Result<Row<Note>, EdifError>
    requires { keys.old ≡ [] }
    ensures same { reached.new ≡ reached.old }
    ensures read { Answers (ReadNotes reached.old.libs top (filter (λ u. is_note (bare u)) (all inner.entry))) (NotesFail reached.old.libs top (filter (λ u. is_note (bare u)) (all inner.entry))) result }
{
    let mut notes = Vec::new(alloc);
    for node in inner.iter() {
        if !is_note(node) {
            continue;
        }
        add_note(alloc, node, reached, top, keys, &mut notes)?;
    }
    Ok(Row::of(notes))
}

/// The notes among these followers of a design's form, in order, from the top cell on.
pub(crate) fn read_notes(
    alloc: Global,
    inner: Nodes<'_>,
    libs: &Libraries,
    top: CellId,
) -> Result<Row<Note>, EdifError>
    ensures { Answers (ReadNotes libs.now.libs top (filter (λ u. is_note (bare u)) (all inner.entry))) (NotesFail libs.now.libs top (filter (λ u. is_note (bare u)) (all inner.entry))) result }
{
    let mut reached = Reached::new(alloc, libs);
    let mut keys = NoteKeys::new(alloc);
    add_notes(alloc, inner, &mut reached, top, &mut keys)
}
