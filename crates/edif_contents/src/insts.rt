//! Instances.
ghost use Rattle.std.specs.Prelude.{◌≡◌, ◌≤◌, [], length, true};
ghost use Rattle.edif_spelling_spec.specs.Tree.{bare};
ghost use Rattle.edif_spec.specs.Faults.{those_of};
ghost use Rattle.edif_spec.specs.Rows.{has_keyword};
ghost use Rattle.edif_spec.specs.Stands.{InstFault};
ghost use Rattle.edif_spec.specs.declared.keyword.Keyword.TheVariants.{Designator, Instance};
ghost use Rattle.edif_tree.specs.Handles.{here, all};
ghost use Rattle.edif_contents.specs.Inners.{InstAdded, InstTaken, InstTakenFault, InstsFault, DetailsFault, ReadInst, ReadInsts, ReadDetails};
ghost use Rattle.edif_parts.specs.Names.{IsAgain};
ghost use Rattle.edif_parts.specs.Reading.{Answers};

use crate::known::Libraries;
use crate::limits::room;
use crate::references::read_view_ref;
use edif_grammar::is_form_of;
use edif_parts::{
    EdifError, Names, read_name, read_parts, read_properties, read_text_among, room_for,
};
use edif_spec::Keyword;
use edif_tree::{Node, Nodes};
use netlist_schema::{Inst, Listed, MOST_INSTS, Property, Row, Text};
use std::alloc::Global;

/// An instance, and where its name stands.
#[derive(Drop)]
pub struct InstAt {
    /// The instance.
    pub inst: Inst,
    /// The number of bytes before the identifier of its name.
    pub place: u64,
}

/// What an instance says beside its name and its cell.
#[derive(Drop)]
struct InstDetails {
    designator: Option<Text>,
    properties: Row<Property>,
}

/// What these followers of an instance say.
fn read_details(alloc: Global, inner: Nodes<'_>) -> Result<InstDetails, EdifError>
    requires { length (those_of Designator (all inner)) ≤ 1 }
    ensures { Answers (ReadDetails (all inner.entry)) (DetailsFault (all inner.entry)) result }
{
    let designator = read_text_among(alloc, inner, Keyword::Designator)?;
    let properties = read_properties(alloc, inner)?;
    Ok(InstDetails {
        designator,
        properties,
    })
}

/// The instance that a form at a node means, in the library `own`.
fn read_inst(
    alloc: Global,
    node: Node<'_>,
    libs: &Libraries,
    own: Option<u32>,
) -> Result<InstAt, EdifError>
    requires { has_keyword Instance (bare (here node)) ≡ true }
    ensures { Answers (ReadInst libs.now.libs own (here node.entry)) (InstFault libs.now.libs own (here node.entry)) result }
{
    let parts = read_parts(alloc, node, Keyword::Instance)?;
    let name = read_name(alloc, parts.fixed.at(0))?;
    let of = read_view_ref(alloc, parts.fixed.at(1), libs, own)?;
    let details = read_details(alloc, parts.inner)?;
    Ok(InstAt {
        inst: Inst {
            name: name.name,
            of,
            designator: details.designator,
            properties: details.properties,
        },
        place: name.place,
    })
}

/// Instances, in order, and their names.
#[derive(Drop)]
pub struct Insts {
    /// The instances.
    pub list: Vec<Listed<Inst>>,
    /// Their names.
    pub names: Names,
}

/// Adds an instance, whose name is not there yet; else the error says that it is.
fn add_inst(
    alloc: Global,
    read: InstAt,
    names: &mut Names,
    list: &mut Vec<Listed<Inst>>,
) -> Result<(), EdifError>
    ensures { Answers (λ _. InstAdded read names.old list.old.items names.new list.new.items) (IsAgain names.old read.inst.name.id read.place) result }
{
    names.add(&read.inst.name.id, read.place)?;
    list.push(Listed::of(alloc, read.inst)?)?;
    Ok(())
}

/// Adds the instance that a form at a node means, and its name, which is not there yet, where there is room.
fn take_inst(
    alloc: Global,
    node: Node<'_>,
    libs: &Libraries,
    own: Option<u32>,
    names: &mut Names,
    list: &mut Vec<Listed<Inst>>,
) -> Result<(), EdifError>
    requires { has_keyword Instance (bare (here node)) ≡ true }
    ensures { Answers (λ _. InstTaken libs.now.libs own (here node.entry) names.old list.old.items names.new list.new.items) (InstTakenFault libs.now.libs own (here node.entry) names.old list.old.items) result }
{
    room(list.len(), MOST_INSTS, node.place())?;
    let read = read_inst(alloc, node, libs, own)?;
    add_inst(alloc, read, names, list)
}

/// The instances among these followers of a form, as `read_insts` reads them, with their names, where none is yet.
fn take_insts(
    alloc: Global,
    inner: Nodes<'_>,
    libs: &Libraries,
    own: Option<u32>,
    names: &mut Names,
) -> Result<Vec<Listed<Inst>>, EdifError>
    requires { names.old ≡ [] }
    ensures { Answers (λ list. ReadInsts libs.now.libs own (all inner.entry) (record { list = list; names = names.new })) (InstsFault libs.now.libs own (those_of Instance (all inner.entry))) result }
{
    let mut list = room_for(alloc, inner, Keyword::Instance)?;
    for node in inner.iter() {
        if is_form_of(node, Keyword::Instance) {
            take_inst(alloc, node, libs, own, names, &mut list)?;
        }
    }
    Ok(list)
}

/// The instances among these followers of a form, in order, with names that differ.
pub(crate) fn read_insts(
    alloc: Global,
    inner: Nodes<'_>,
    libs: &Libraries,
    own: Option<u32>,
) -> Result<Insts, EdifError>
    ensures { Answers (ReadInsts libs.now.libs own (all inner.entry)) (InstsFault libs.now.libs own (those_of Instance (all inner.entry))) result }
{
    let mut names = Names::for_forms(alloc, inner, Keyword::Instance)?;
    let list = take_insts(alloc, inner, libs, own, &mut names)?;
    Ok(Insts { list, names })
}
