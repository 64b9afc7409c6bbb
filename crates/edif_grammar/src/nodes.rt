//! What stands at a node, as rows tell it.
ghost use Rattle.std.specs.Prelude.{◌≡◌, IfNone, IfSome, Some, None};
ghost use Rattle.edif_spelling_spec.specs.Tree.{bare};
ghost use Rattle.edif_tree.specs.Handles.{here, all};
ghost use Rattle.edif_spec.specs.Faults.{arguments};
ghost use Rattle.edif_spec.specs.Rows.{has_keyword};
ghost use Rattle.edif_grammar.specs.Rules.{argument_of, first_word};

use crate::rules::Argument;
use edif_spec::Keyword;
use edif_tree::{Node, Nodes, Shape};
use netlist_schema::Ident;

/// The name that the form at a node begins with, and what stands behind it, or `None` for a token and for a form that begins
/// otherwise.
pub(crate) fn opened(node: Node<'_>) -> Option<(&Ident, Nodes<'_>)>
    ensures some { IfSome result (λ p. (first_word (bare (here node.entry)) ≡ Some p.0.now) × (all p.1 ≡ arguments (here node.entry))) }
    ensures none { IfNone result (first_word (bare (here node.entry)) ≡ None) }
{
    let Shape::Form(nodes) = node.shape() else {
        return None;
    };
    let Some((first, arguments)) = nodes.split_first() else {
        return None;
    };
    let Shape::Word(name) = first.shape() else {
        return None;
    };
    Some((name, arguments))
}

/// What stands at a node, as rows tell arguments apart.
#[inline(always)]
pub(crate) fn argument_at(node: Node<'_>) -> Argument
    ensures { result ≡ argument_of (bare (here node.entry)) }
{
    match node.shape() {
        Shape::Word(_) => Argument::Identifier,
        Shape::Integer(_) => Argument::Integer,
        Shape::String(_) => Argument::Text,
        Shape::Form(_) => match node.keyword() {
            Some(keyword) => Argument::Form(keyword),
            None => Argument::Strange,
        },
    }
}

/// Whether a form with this keyword stands at a node. Takes no memory.
#[inline(always)]
pub fn is_form_of(node: Node<'_>, keyword: Keyword) -> bool
    ensures { result ≡ has_keyword keyword (bare (here node.entry)) }
{
    argument_at(node).is_form(keyword)
}
