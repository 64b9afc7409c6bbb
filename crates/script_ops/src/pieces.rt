//! What a word of several parts stands for, or one of a few words.
ghost use Rattle.std.specs.Prelude.{◌≡◌, ◌==◌, ◌≤◌, IfOk, MatchOption, MatchResult, map};
ghost use Rattle.std.specs.List.{slice_split};
ghost use Rattle.netlist_schema.specs.declared.limits.TheConstants.{MOST_WIDTH};
ghost use Rattle.script_spec.specs.Lines.{direction_word, inst_piece, leaf_word, path_piece, port_piece, width_atoms};
ghost use Rattle.script_spec.specs.Pieces.{SpellAtoms, SpellPieces, SpellsPiece};
ghost use Rattle.script_ops.specs.Pieces.{AreNames, port_atoms};
ghost use Rattle.script_words.specs.Reading.{lent, Reads};
ghost use Rattle.script_words.specs.declared.unread.Unread.TheVariants.{Bad};

use crate::front::first;
use edit_spec::PortDecl;
use netlist_schema::{Direction, Ident, MOST_WIDTH, Row, Width};
use script_words::{Unread, name, number};
use std::alloc::{AllocError, Global};

/// `leaf` or `empty`.
pub(crate) fn leaf(word: &[u8]) -> Result<bool, Unread>
    ensures { Reads (λ is_leaf. word.now ≡ leaf_word is_leaf) result }
{
    if word == b"leaf".as_slice() {
        return Ok(true);
    }
    if word == b"empty".as_slice() {
        return Ok(false);
    }
    Err(Unread::Bad)
}

/// The name of an end's instance, or `-` for the cell's own port.
pub(crate) fn inst(alloc: Global, word: &[u8]) -> Result<Option<Ident>, Unread>
    ensures { Reads (λ id. SpellsPiece word.now (inst_piece id)) result }
{
    if word == b"-".as_slice() {
        return Ok(None);
    }
    Ok(Some(name(alloc, word)?))
}

/// The direction of a port.
fn direction(word: &[u8]) -> Result<Option<Direction>, Unread>
    ensures { Reads (λ d. word.now ≡ direction_word d) result }
{
    if word == b"none".as_slice() {
        return Ok(None);
    }
    if word == b"in".as_slice() {
        return Ok(Some(Direction::Input));
    }
    if word == b"out".as_slice() {
        return Ok(Some(Direction::Output));
    }
    if word == b"inout".as_slice() {
        return Ok(Some(Direction::Inout));
    }
    Err(Unread::Bad)
}

/// The parts of a word between slashes.
fn slash_parts(alloc: Global, word: &[u8]) -> Result<Vec<&[u8]>, AllocError>
    ensures { IfOk result (λ parts. map (λ x. x.now) parts.items ≡ slice_split (λ b. b == 47) word.now) }
{
    word.split(|b| *b == b'/').collect(alloc)
}

/// The parts of a word between colons.
fn colon_parts(alloc: Global, word: &[u8]) -> Result<Vec<&[u8]>, AllocError>
    ensures { IfOk result (λ parts. map (λ x. x.now) parts.items ≡ slice_split (λ b. b == 58) word.now) }
{
    word.split(|b| *b == b':').collect(alloc)
}

/// Identifiers, one a part.
fn names(alloc: Global, parts: &[&[u8]]) -> Result<Vec<Ident>, Unread>
    ensures { MatchResult result (λ ids. (ids.items ≡ lent parts.now) × AreNames (lent parts.now)) (λ e. e ≡ Bad → ¬ AreNames (lent parts.now)) }
{
    let mut ids = Vec::new(alloc);
    for part in parts {
        ids.push(name(alloc, part)?)?;
    }
    Ok(ids)
}

/// A path.
pub(crate) fn path(alloc: Global, word: &[u8]) -> Result<Row<Ident>, Unread>
    ensures { Reads (λ ids. SpellsPiece word.now (path_piece ids)) result }
{
    let parts = slash_parts(alloc, word)?;
    Ok(Row::of(names(alloc, parts.as_slice())?))
}

/// The width of a port, where there is a part for it.
fn width(parts: &[&[u8]]) -> Result<Option<Width>, Unread>
    ensures { Reads (λ w. SpellAtoms (lent parts.now) (width_atoms w)) result }
{
    let Some((word, others)) = parts.split_first() else {
        return Ok(None);
    };
    if !others.is_empty() {
        return Err(Unread::Bad);
    }
    let n = number(word, 1, u64::from(MOST_WIDTH))?;
    match width_of(n) {
        Some(width) => Ok(Some(width)),
        None => Err(Unread::Bad),
    }
}

/// The width of so many bits.
fn width_of(n: u64) -> Option<Width>
    ensures { MatchOption result (¬ ((1 ≤ n) × (n ≤ MOST_WIDTH))) (λ width. width ≡ n) }
{
    match u32::try_from(n) {
        Ok(n) => Width::of(n),
        Err(_) => None,
    }
}

/// A port, from its parts.
fn port_of(alloc: Global, parts: &[&[u8]]) -> Result<PortDecl, Unread>
    ensures { Reads (λ decl. SpellAtoms (lent parts.now) (port_atoms decl)) result }
{
    let (word, others) = first(parts)?;
    let name = name(alloc, word)?;
    let (word, others) = first(others)?;
    let direction = direction(word)?;
    let array = width(others)?;
    Ok(PortDecl {
        name,
        direction,
        array,
    })
}

/// A port.
fn port(alloc: Global, word: &[u8]) -> Result<PortDecl, Unread>
    ensures { Reads (λ decl. SpellsPiece word.now (port_piece decl)) result }
{
    let parts = colon_parts(alloc, word)?;
    port_of(alloc, parts.as_slice())
}

/// Ports, one a word.
pub(crate) fn ports(alloc: Global, words: &[&[u8]]) -> Result<Row<PortDecl>, Unread>
    ensures { Reads (λ decls. SpellPieces (lent words.now) (map port_piece decls)) result }
{
    let mut decls = Vec::new(alloc);
    for word in words {
        decls.push(port(alloc, word)?)?;
    }
    Ok(Row::of(decls))
}
