//! The design's form: the top cell and the notes.
ghost use Rattle.std.specs.Prelude.{◌≡◌, true};
ghost use Rattle.edif_spelling_spec.specs.Tree.{bare};
ghost use Rattle.edif_spec.specs.Rows.{has_keyword};
ghost use Rattle.edif_spec.specs.Stands.{DesignFault};
ghost use Rattle.edif_spec.specs.declared.keyword.Keyword.TheVariants.{Design as DesignWord};
ghost use Rattle.edif_tree.specs.Handles.{here};
ghost use Rattle.edif_build.specs.Notes.{ReadTop};
ghost use Rattle.edif_parts.specs.Reading.{Answers};

use crate::headings::{Heading, read_heading};
use crate::notes::read_notes;
use edif_contents::{Libraries, read_cell_ref};
use edif_parts::{EdifError, read_parts};
use edif_spec::Keyword;
use edif_tree::Node;
use netlist_schema::{CellId, Note, Row, TopHead};
use std::alloc::Global;

/// The top, and the notes.
#[derive(Drop)]
pub struct Top {
    /// The top.
    pub head: TopHead,
    /// The notes, in order.
    pub notes: Row<Note>,
}

/// The top with a cell. Takes no memory.
fn top_head(heading: Heading, cell: CellId) -> TopHead
    ensures { result ≡ record { name = heading.name.name; cell = cell; properties = heading.properties } }
{
    let Heading { name, properties } = heading;
    TopHead {
        name: name.name,
        cell,
        properties,
    }
}

/// The top and the notes that the form of a design at a node means.
pub(crate) fn read_top(alloc: Global, node: Node<'_>, libs: &Libraries) -> Result<Top, EdifError>
    requires { has_keyword DesignWord (bare (here node)) ≡ true }
    ensures { Answers (ReadTop libs.now.libs (here node.entry)) (DesignFault libs.now.libs (here node.entry)) result }
{
    let parts = read_parts(alloc, node, Keyword::Design)?;
    let cell = read_cell_ref(alloc, parts.fixed.at(1), libs, None)?;
    let notes = read_notes(alloc, parts.inner, libs, cell)?;
    let heading = read_heading(alloc, parts.fixed.at(0), parts.inner)?;
    let head = top_head(heading, cell);
    Ok(Top { head, notes })
}
