//! Forms of one string.
ghost use Rattle.std.specs.Prelude.{◌≡◌, ◌⊎◌, ◌≤◌, IfOk, IfSome, OnOk, length, map, true};
ghost use Rattle.edif_spelling_spec.specs.Tree.{bare};
ghost use Rattle.netlist_schema.specs.Typed.{IsBytes};
ghost use Rattle.edif_spec.specs.Faults.{Among, RowFault, those_of};
ghost use Rattle.edif_spec.specs.Means.{MeansText};
ghost use Rattle.edif_spec.specs.Rows.{Perhaps, has_keyword, those};
ghost use Rattle.edif_spec.specs.declared.keyword.Keyword.TheVariants.{Designator, Owner};
ghost use Rattle.edif_tree.specs.Handles.{here, all};
ghost use Rattle.edif_parts.specs.Reading.{Answers};
ghost use Rattle.edif_parts.specs.Texts.{IsTextForm};

use crate::error::EdifError;
use crate::parts::{read_parts, string_at};
use edif_grammar::is_form_of;
use edif_spec::Keyword;
use edif_tree::{Node, Nodes};
use netlist_schema::{NoMemory, Text};
use std::alloc::Global;

/// The text of the designator or the owner among these followers, where there is one.
pub fn read_text_among(
    alloc: Global,
    inner: Nodes<'_>,
    keyword: Keyword,
) -> Result<Option<Text>, EdifError>
    requires keyword { (keyword ≡ Designator) ⊎ (keyword ≡ Owner) }
    requires few { length (those_of keyword (all inner)) ≤ 1 }
    ensures { Answers (λ o. Perhaps (MeansText keyword) (those keyword (map bare (all inner.entry))) o × IfSome o IsBytes) (Among (RowFault keyword) (those_of keyword (all inner.entry))) result }
{
    for node in inner.iter() {
        if is_form_of(node, keyword) {
            let text = read_text(alloc, node, keyword)?;
            return Ok(Some(text));
        }
    }
    Ok(None)
}

/// The text of these bytes.
pub(crate) fn text_of(alloc: Global, bytes: &[u8]) -> Result<Text, NoMemory>
    ensures same { IfOk result (λ text. text ≡ bytes.now) }
    ensures typed { OnOk result (IsBytes bytes.now) }
{
    Ok(Text::of(Vec::from_slice(alloc, bytes)?))
}

/// The string of the form at a node, which is a designator, an owner, or a value that is a string.
#[inline(always)]
pub(crate) fn read_text(alloc: Global, node: Node<'_>, keyword: Keyword) -> Result<Text, EdifError>
    requires text { IsTextForm keyword }
    requires keyword { has_keyword keyword (bare (here node)) ≡ true }
    ensures { Answers (λ s. MeansText keyword (bare (here node.entry)) s × IsBytes s) (RowFault keyword (here node.entry)) result }
{
    let parts = read_parts(alloc, node, keyword)?;
    let text = text_of(alloc, string_at(parts.fixed.at(0)))?;
    Ok(text)
}
