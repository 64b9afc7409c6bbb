//! The name of a form, with the properties among what follows.
ghost use Rattle.std.specs.Prelude.{IsTrue};
ghost use Rattle.edif_spelling_spec.specs.Tree.{bare};
ghost use Rattle.edif_spec.specs.Keyword.{name_definition};
ghost use Rattle.edif_spec.specs.Rows.{is_one_of};
ghost use Rattle.edif_tree.specs.Handles.{here, all};
ghost use Rattle.edif_build.specs.Headings.{HeadingFault, ReadHeading};
ghost use Rattle.edif_parts.specs.Reading.{Answers};

use edif_parts::{EdifError, NameAt, read_name, read_properties};
use edif_tree::{Node, Nodes};
use netlist_schema::{Property, Row};
use std::alloc::Global;

/// A name, and the properties of what it names.
#[derive(Drop)]
pub struct Heading {
    /// The name, and where its identifier stands.
    pub name: NameAt,
    /// The properties, in order.
    pub properties: Row<Property>,
}

/// The name at a node, and the properties among these followers of its form.
pub(crate) fn read_heading(
    alloc: Global,
    node: Node<'_>,
    inner: Nodes<'_>,
) -> Result<Heading, EdifError>
    requires { IsTrue (is_one_of name_definition (bare (here node))) }
    ensures { Answers (ReadHeading (here node.entry) (all inner.entry)) (HeadingFault (here node.entry) (all inner.entry)) result }
{
    let name = read_name(alloc, node)?;
    let properties = read_properties(alloc, inner)?;
    Ok(Heading { name, properties })
}
