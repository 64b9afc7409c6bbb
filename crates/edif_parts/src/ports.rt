//! The ports of an interface.
ghost use Rattle.std.specs.Prelude.{◌≡◌, ◌≤◌, IfNone, IfSome, IsTrue, Some, length, map, pos, false, true, ℕ};
ghost use Rattle.edif_spelling_spec.specs.Tree.{bare};
ghost use Rattle.netlist_schema.specs.Names.{HasDistinctKeys};
ghost use Rattle.netlist_schema.specs.Typed.{IsTypedPort};
ghost use Rattle.netlist_schema.specs.Width.{IsWidth};
ghost use Rattle.edif_spec.specs.Canonical.{direction_word};
ghost use Rattle.edif_spec.specs.Faults.{Among, defined, those_of};
ghost use Rattle.edif_spec.specs.Keyword.{same};
ghost use Rattle.edif_spec.specs.Means.{MeansDirection, MeansPort};
ghost use Rattle.edif_spec.specs.Rows.{Perhaps, has_keyword, is_one_of, those};
ghost use Rattle.edif_spec.specs.Stands.{DirectionFault, PortFault, BusNameFault, is_direction};
ghost use Rattle.edif_spec.specs.declared.keyword.Keyword.TheVariants.{Array as ArrayWord, Direction as DirectionWord, Port as PortWord};
ghost use Rattle.edif_tree.specs.Handles.{here, all};
ghost use Rattle.edif_parts.specs.Ports.{ReadBusName, bus_name};
ghost use Rattle.edif_parts.specs.Reading.{Answers};

use crate::error::{EdifError, bad_form, fault_at};
use crate::names::{NameAt, read_name};
use crate::parts::{integer_at, is_word, read_parts, word_at};
use crate::properties::read_properties;
use crate::texts::read_text_among;
use edif_grammar::is_form_of;
use edif_spec::{Keyword, Kind};
use edif_tree::{Node, Nodes};
use netlist_schema::{Direction, Ident, Name, Port, Width};
use std::alloc::Global;

/// A port, and where its name stands.
#[derive(Drop)]
pub struct PortAt {
    /// The port.
    pub port: Port,
    /// The number of bytes before the identifier of its name.
    pub place: u64,
}

/// The name of a port or of a net.
#[derive(Drop)]
pub struct BusName {
    /// The name.
    pub name: Name,
    /// The width, where the name is that of an array.
    pub array: Option<Width>,
    /// The number of bytes before the name's identifier.
    pub place: u64,
}

/// The port that a form at a node means.
pub(crate) fn read_port(alloc: Global, node: Node<'_>) -> Result<PortAt, EdifError>
    requires { has_keyword PortWord (bare (here node)) ≡ true }
    ensures { Answers (λ p. MeansPort (bare (here node.entry)) p.port × (IsTypedPort p.port × HasDistinctKeys p.port.properties) × (defined (here node.entry) ≡ Some (p.port.name.id, p.place))) (PortFault (here node.entry)) result }
{
    let parts = read_parts(alloc, node, Keyword::Port)?;
    let named = read_bus_name(alloc, parts.fixed.at(0))?;
    let direction = read_direction_among(alloc, parts.inner)?;
    let designator = read_text_among(alloc, parts.inner, Keyword::Designator)?;
    let properties = read_properties(alloc, parts.inner)?;
    let BusName { name, array, place } = named;
    let port = Port {
        name,
        array,
        direction,
        designator,
        properties,
    };
    Ok(PortAt { port, place })
}

/// The name of a port or of a net at a node.
pub fn read_bus_name(alloc: Global, node: Node<'_>) -> Result<BusName, EdifError>
    requires { IsTrue (is_one_of bus_name (bare (here node))) }
    ensures { Answers (ReadBusName (here node.entry)) (BusNameFault (here node.entry)) result }
{
    if is_form_of(node, Keyword::Array) {
        return read_array(alloc, node);
    }
    let NameAt { name, place } = read_name(alloc, node)?;
    Ok(BusName {
        name,
        array: None,
        place,
    })
}

/// The name of an array at a node.
fn read_array(alloc: Global, node: Node<'_>) -> Result<BusName, EdifError>
    requires { has_keyword ArrayWord (bare (here node)) ≡ true }
    ensures { Answers (ReadBusName (here node.entry)) (BusNameFault (here node.entry)) result }
{
    let parts = read_parts(alloc, node, Keyword::Array)?;
    let size = parts.fixed.at(1);
    let NameAt { name, place } = read_name(alloc, parts.fixed.at(0))?;
    let Some(width) = width_of(integer_at(size)) else {
        return Err(fault_at(Kind::BadIndex, size.place()));
    };
    Ok(BusName {
        name,
        array: Some(width),
        place,
    })
}

/// The width of so many bits, where it is one. Takes no memory.
fn width_of(bits: i64) -> Option<Width>
    ensures some { IfSome result (λ width. (bits ≡ pos width) × IsWidth width) }
    ensures none { IfNone result ((n : ℕ) → bits ≡ pos n → IsWidth n → ⊥) }
{
    let Ok(bits) = u32::try_from(bits) else {
        return None;
    };
    Width::of(bits)
}

/// The direction among these followers, where there is one.
fn read_direction_among(alloc: Global, inner: Nodes<'_>) -> Result<Option<Direction>, EdifError>
    requires { length (those_of DirectionWord (all inner)) ≤ 1 }
    ensures { Answers (Perhaps MeansDirection (those DirectionWord (map bare (all inner.entry)))) (Among DirectionFault (those_of DirectionWord (all inner.entry))) result }
{
    for node in inner.iter() {
        if is_form_of(node, Keyword::Direction) {
            let direction = read_direction(alloc, node)?;
            return Ok(Some(direction));
        }
    }
    Ok(None)
}

/// The direction that a form at a node means.
fn read_direction(alloc: Global, node: Node<'_>) -> Result<Direction, EdifError>
    requires { has_keyword DirectionWord (bare (here node)) ≡ true }
    ensures { Answers (MeansDirection (bare (here node.entry))) (DirectionFault (here node.entry)) result }
{
    let parts = read_parts(alloc, node, Keyword::Direction)?;
    let word = parts.fixed.at(0);
    let Some(direction) = direction_of(word_at(word)) else {
        return Err(bad_form(word.place()));
    };
    Ok(direction)
}

/// The direction of a word, where it has one. Takes no memory.
fn direction_of(word: &Ident) -> Option<Direction>
    ensures some { IfSome result (λ d. same word.now (direction_word d) ≡ true) }
    ensures none { IfNone result (is_direction word.now ≡ false) }
{
    if is_word(word, b"INPUT") {
        return Some(Direction::Input);
    }
    if is_word(word, b"OUTPUT") {
        return Some(Direction::Output);
    }
    if is_word(word, b"INOUT") {
        return Some(Direction::Inout);
    }
    None
}
