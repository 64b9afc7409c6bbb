//! The parts of a form whose keyword is known, and tokens in their places.
ghost use Rattle.std.specs.Prelude.{◌≡◌, ◌∷◌, [], FitsSigned, IfNone, IfOk, IfSome, IsTrue, length, true};
ghost use Rattle.std.specs.Int.{w64};
ghost use Rattle.edif_spelling_spec.specs.Tree.{Word', Integer', String', bare};
ghost use Rattle.edif_spec.specs.Faults.{RowFault, those_of};
ghost use Rattle.edif_spec.specs.Keyword.{AnIdentifier, AnInteger, AString, same};
ghost use Rattle.edif_spec.specs.Rows.{has_keyword, is_choice};
ghost use Rattle.edif_tree.specs.Handles.{here, all};
ghost use Rattle.edif_tree.specs.Nodes.{place_of};
ghost use Rattle.edif_grammar.specs.Forms.{ArePartsOf};
ghost use Rattle.edif_parts.specs.Reading.{Answers};

use crate::error::{EdifError, bad_form};
use edif_grammar::{Breach, Form, is_form_of, parts_as};
use edif_spec::{Keyword, MeaningFault};
use edif_tree::{Node, Nodes, Shape};
use netlist_schema::{Ident, NoMemory};
use std::alloc::Global;

/// The parts of a form with this keyword. Takes memory for a fault alone.
#[inline(always)]
pub fn read_parts<'a>(
    alloc: Global,
    node: Node<'a>,
    keyword: Keyword,
) -> Result<Form<'a>, EdifError>
    requires { has_keyword keyword (bare (here node)) ≡ true }
    ensures { Answers (ArePartsOf keyword (here node.entry)) (RowFault keyword (here node.entry)) result }
{
    match parts_as(node, keyword) {
        Ok(parts) => Ok(parts),
        Err(Breach::NotInProfile { keyword, place }) => {
            let keyword = keyword.copy(alloc)?;
            Err(EdifError::Fault(MeaningFault::NotInProfile { keyword, place }))
        }
        Err(Breach::BadForm { place }) => Err(bad_form(place)),
    }
}

/// For how many forms of this keyword there is to be room. Takes no memory.
pub fn room_wanted(nodes: Nodes<'_>, keyword: Keyword) -> usize
    ensures { result ≡ length (those_of keyword (all nodes.entry)) }
{
    let mut count = 0;
    for i in 0..nodes.len() {
        if is_form_of(nodes.at(i), keyword) {
            count += 1;
        }
    }
    count
}

/// The first form of this keyword among these nodes, and the nodes behind it. Takes no memory.
#[inline(always)]
pub(crate) fn first_form(nodes: Nodes<'_>, keyword: Keyword) -> Option<(Node<'_>, Nodes<'_>)>
    ensures some { IfSome result (λ p. (those_of keyword (all nodes.entry) ≡ here p.0 ∷ those_of keyword (all p.1)) × (has_keyword keyword (bare (here p.0)) ≡ true)) }
    ensures none { IfNone result (those_of keyword (all nodes.entry) ≡ []) }
{
    for i in 0..nodes.len() {
        let node = nodes.at(i);
        if is_form_of(node, keyword) {
            let (_, behind) = nodes.split_at(i + 1);
            return Some((node, behind));
        }
    }
    None
}

/// An empty list with room for a value of each form of this keyword.
pub fn room_for<T>(alloc: Global, nodes: Nodes<'_>, keyword: Keyword) -> Result<Vec<T>, NoMemory>
    ensures { IfOk result (λ list. list.items ≡ []) }
{
    Ok(Vec::with_capacity(alloc, room_wanted(nodes, keyword))?)
}

/// The word at a node where a word stands. Takes no memory.
#[inline(always)]
pub fn word_at(node: Node<'_>) -> &Ident
    requires { IsTrue (is_choice AnIdentifier (bare (here node))) }
    ensures { here node.entry ≡ Word' (place_of (here node.entry)) result.now }
{
    match node.shape() {
        Shape::Word(name) => name,
        _ => unreachable!(),
    }
}

/// Whether a word is spelled so when the case of ASCII letters is ignored. Takes no memory.
pub fn is_word(word: &Ident, spelled: &[u8]) -> bool
    ensures { result ≡ same word.now spelled.now }
{
    word.as_slice().eq_ignore_ascii_case(spelled)
}

/// The number at a node where a number stands. Takes no memory.
#[inline(always)]
pub fn integer_at(node: Node<'_>) -> i64
    requires { IsTrue (is_choice AnInteger (bare (here node))) }
    ensures value { here node.entry ≡ Integer' (place_of (here node.entry)) result }
    ensures typed { FitsSigned w64 result }
{
    match node.shape() {
        Shape::Integer(value) => value,
        _ => unreachable!(),
    }
}

/// The string at a node where a string stands. Takes no memory.
#[inline(always)]
pub(crate) fn string_at(node: Node<'_>) -> &[u8]
    requires { IsTrue (is_choice AString (bare (here node))) }
    ensures { here node.entry ≡ String' (place_of (here node.entry)) result.now }
{
    match node.shape() {
        Shape::String(text) => text,
        _ => unreachable!(),
    }
}
