//! Words taken from the front of a line.
ghost use Rattle.std.specs.Prelude.{◌≡◌, ◌∷◌, [], MatchResult};
ghost use Rattle.script_spec.specs.Lines.{cell_pieces, end_pieces, inst_piece, leaf_word, name, number, path_piece, said, target_pieces};
ghost use Rattle.script_spec.specs.Pieces.{Piece, SpellPieces};
ghost use Rattle.script_words.specs.Reading.{lent, Reads};
ghost use Rattle.script_ops.specs.Front.{TakesFront};
ghost use Rattle.script_words.specs.declared.unread.Unread.TheVariants.{Bad};

use crate::pieces::{inst, leaf, path};
use edit_spec::{CellName, EndName, Target};
use netlist_schema::{Ident, Row};
use script_words::{Unread, name, number};
use std::alloc::Global;

/// The first word, and the others. `Bad` where there is none.
pub fn first<'a>(words: &'a [&'a [u8]]) -> Result<(&'a [u8], &'a [&'a [u8]]), Unread>
    ensures { MatchResult result (λ p. lent words.now ≡ p.0.now ∷ lent p.1.now) (λ e. lent words.now ≡ []) }
{
    match words.split_first() {
        Some((word, others)) => Ok((*word, others)),
        None => Err(Unread::Bad),
    }
}

/// Takes an identifier.
pub(crate) fn take_name<'a>(
    alloc: Global,
    words: &'a [&'a [u8]],
) -> Result<(Ident, &'a [&'a [u8]]), Unread>
    ensures { TakesFront (λ id. name id ∷ []) words.now result }
{
    let (word, others) = first(words)?;
    Ok((name(alloc, word)?, others))
}

/// Takes the name of an end's instance.
fn take_inst<'a>(
    alloc: Global,
    words: &'a [&'a [u8]],
) -> Result<(Option<Ident>, &'a [&'a [u8]]), Unread>
    ensures { TakesFront (λ id. inst_piece id ∷ []) words.now result }
{
    let (word, others) = first(words)?;
    Ok((inst(alloc, word)?, others))
}

/// Takes a path.
pub(crate) fn take_path<'a>(
    alloc: Global,
    words: &'a [&'a [u8]],
) -> Result<(Row<Ident>, &'a [&'a [u8]]), Unread>
    ensures { TakesFront (λ ids. path_piece ids ∷ []) words.now result }
{
    let (word, others) = first(words)?;
    Ok((path(alloc, word)?, others))
}

/// Takes `leaf` or `empty`.
pub(crate) fn take_leaf<'a>(words: &'a [&'a [u8]]) -> Result<(bool, &'a [&'a [u8]]), Unread>
    ensures { TakesFront (λ is_leaf. said (leaf_word is_leaf) ∷ []) words.now result }
{
    let (word, others) = first(words)?;
    Ok((leaf(word)?, others))
}

/// Takes a number.
pub fn take_number<'a>(words: &'a [&'a [u8]], most: u64) -> Result<(u64, &'a [&'a [u8]]), Unread>
    ensures { TakesFront (λ n. number most n ∷ []) words.now result }
{
    let (word, others) = first(words)?;
    Ok((number(word, 0, most)?, others))
}

/// Takes a cell's names.
pub(crate) fn take_cell<'a>(
    alloc: Global,
    words: &'a [&'a [u8]],
) -> Result<(CellName, &'a [&'a [u8]]), Unread>
    ensures { TakesFront cell_pieces words.now result }
{
    let (lib, others) = take_name(alloc, words)?;
    let (cell, others) = take_name(alloc, others)?;
    Ok((CellName { lib, cell }, others))
}

/// No word is left. `Bad` where there is one.
pub fn finished(words: &[&[u8]]) -> Result<(), Unread>
    ensures { MatchResult result (λ u. lent words.now ≡ []) (λ e. ¬ SpellPieces (lent words.now) []) }
{
    if words.is_empty() {
        return Ok(());
    }
    Err(Unread::Bad)
}

/// The one word that is left. `Bad` where there is another number of words.
pub fn only<'a>(words: &'a [&'a [u8]]) -> Result<&'a [u8], Unread>
    ensures { MatchResult result (λ word. lent words.now ≡ word.now ∷ []) (λ e. (piece : Piece) → ¬ SpellPieces (lent words.now) (piece ∷ [])) }
{
    let (word, others) = first(words)?;
    finished(others)?;
    Ok(word)
}

/// Reads an end: the names of the instance and the port, and the bit.
pub(crate) fn end<'a>(alloc: Global, words: &'a [&'a [u8]]) -> Result<EndName, Unread>
    ensures { Reads (λ e. SpellPieces (lent words.now) (end_pieces e)) result }
{
    let (inst, others) = take_inst(alloc, words)?;
    let (port, others) = take_name(alloc, others)?;
    let bit = bit(others)?;
    Ok(EndName { inst, port, bit })
}

/// Reads a bit.
fn bit(words: &[&[u8]]) -> Result<u32, Unread>
    ensures { Reads (λ n. SpellPieces (lent words.now) (number 4294967295 n ∷ [])) result }
{
    let n = number(only(words)?, 0, u64::from(u32::MAX))?;
    match u32::try_from(n) {
        Ok(bit) => Ok(bit),
        Err(_) => Err(Unread::Bad),
    }
}

/// Takes what a property is set of.
pub(crate) fn take_target<'a>(
    alloc: Global,
    words: &'a [&'a [u8]],
) -> Result<(Target, &'a [&'a [u8]]), Unread>
    ensures { TakesFront target_pieces words.now result }
{
    let (word, others) = first(words)?;
    if word == b"cell".as_slice() {
        return Ok((Target::Whole, others));
    }
    if word == b"inst".as_slice() {
        let (id, others) = take_name(alloc, others)?;
        return Ok((Target::Inst(id), others));
    }
    if word == b"net".as_slice() {
        let (id, others) = take_name(alloc, others)?;
        return Ok((Target::Net(id), others));
    }
    Err(Unread::Bad)
}
