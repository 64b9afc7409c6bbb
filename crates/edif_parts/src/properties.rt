//! The properties of an owner.
ghost use Rattle.std.specs.Prelude.{◌≡◌, ◌⊎◌, Some, [], map, true};
ghost use Rattle.std.specs.List.{All};
ghost use Rattle.edif_spelling_spec.specs.Tree.{bare};
ghost use Rattle.netlist_schema.specs.Names.{HasDistinctKeys};
ghost use Rattle.netlist_schema.specs.Typed.{IsTypedProperty};
ghost use Rattle.edif_spec.specs.Design as design;
ghost use Rattle.edif_spec.specs.Faults.{defined, those_of};
ghost use Rattle.edif_spec.specs.Means.{MeansProperties, MeansProperty};
ghost use Rattle.edif_spec.specs.Rows.{has_keyword};
ghost use Rattle.edif_spec.specs.Stands.{PropertiesFault, PropertyFault};
ghost use Rattle.edif_spec.specs.declared.keyword.Keyword.TheVariants.{Property as PropertyWord};
ghost use Rattle.edif_tree.specs.Handles.{here, all};
ghost use Rattle.edif_parts.specs.Adding.{Adds, DefinesAgain, MeansOne};
ghost use Rattle.edif_parts.specs.Reading.{Answers};

use crate::error::EdifError;
use crate::names::{NameAt, read_name};
use crate::own_names::Keys;
use crate::parts::{first_form, read_parts, room_for};
use crate::texts::read_text_among;
use crate::values::read_value;
use edif_grammar::is_form_of;
use edif_spec::Keyword;
use edif_tree::{Node, Nodes};
use netlist_schema::{Property, Row};
use std::alloc::Global;

/// A property, and where its key stands.
#[derive(Drop)]
pub struct PropertyAt {
    /// The property.
    pub property: Property,
    /// The number of bytes before the identifier of its key.
    pub place: u64,
}

/// The property that a form at a node means.
pub fn read_property(alloc: Global, node: Node<'_>) -> Result<PropertyAt, EdifError>
    requires { has_keyword PropertyWord (bare (here node)) ≡ true }
    ensures { Answers (λ p. MeansProperty (bare (here node.entry)) p.property × IsTypedProperty p.property × (defined (here node.entry) ≡ Some (p.property.key.id, p.place))) (PropertyFault (here node.entry)) result }
{
    let parts = read_parts(alloc, node, Keyword::Property)?;
    let key = read_name(alloc, parts.fixed.at(0))?;
    let value = read_value(alloc, parts.fixed.at(1))?;
    let owner = read_text_among(alloc, parts.inner, Keyword::Owner)?;
    let NameAt { name: key, place } = key;
    let property = Property { key, value, owner };
    Ok(PropertyAt { property, place })
}

/// Adds the property at a node and the name of its key, which is not there yet.
fn add_property(
    alloc: Global,
    node: Node<'_>,
    names: &mut Keys,
    properties: &mut Vec<Property>,
) -> Result<(), EdifError>
    requires { has_keyword PropertyWord (bare (here node)) ≡ true }
    ensures { Answers (λ _. Adds MeansProperty IsTypedProperty (λ (p : design.Property). p.key.id) (here node.entry) properties.old.items properties.new.items names.old names.new) (λ f. PropertyFault (here node.entry) f ⊎ DefinesAgain names.old (here node.entry) f) result }
{
    let PropertyAt { property, place } = read_property(alloc, node)?;
    names.add(&property.key.id, place)?;
    properties.push(property)?;
    Ok(())
}

/// The properties among these followers of a form, as `read_properties` gives them, with no names of keys before.
fn add_properties(
    alloc: Global,
    inner: Nodes<'_>,
    names: &mut Keys,
) -> Result<Row<Property>, EdifError>
    requires { names.old ≡ [] }
    ensures { Answers (λ ps. MeansProperties (map bare (all inner.entry)) ps × All IsTypedProperty ps × HasDistinctKeys ps) (PropertiesFault (those_of PropertyWord (all inner.entry))) result }
{
    let mut properties = room_for(alloc, inner, Keyword::Property)?;
    for node in inner.iter() {
        if is_form_of(node, Keyword::Property) {
            add_property(alloc, node, names, &mut properties)?;
        }
    }
    Ok(Row::of(properties))
}

/// The property at a node, in a list of its own.
fn one_property(alloc: Global, node: Node<'_>) -> Result<Row<Property>, EdifError>
    requires { has_keyword PropertyWord (bare (here node)) ≡ true }
    ensures { Answers (MeansOne MeansProperty IsTypedProperty (here node.entry)) (PropertyFault (here node.entry)) result }
{
    let read = read_property(alloc, node)?;
    let mut properties = Vec::with_capacity(alloc, 1)?;
    properties.push(read.property)?;
    Ok(Row::of(properties))
}

/// The properties among these followers of a form, in order, with keys that differ.
pub fn read_properties(alloc: Global, inner: Nodes<'_>) -> Result<Row<Property>, EdifError>
    ensures { Answers (λ ps. MeansProperties (map bare (all inner.entry)) ps × All IsTypedProperty ps × HasDistinctKeys ps) (PropertiesFault (those_of PropertyWord (all inner.entry))) result }
{
    let Some((first, behind)) = first_form(inner, Keyword::Property) else {
        return Ok(Row::of(Vec::new(alloc)));
    };
    match first_form(behind, Keyword::Property) {
        Some(_) => add_properties(alloc, inner, &mut Keys::new(alloc)),
        None => one_property(alloc, first),
    }
}
