//! The names in the text of a path.
ghost use Rattle.std.specs.Prelude.{◌≡◌, IfOk, MatchOption, map};
ghost use Rattle.std.specs.List.{slice_split};
ghost use Rattle.ask_names.specs.Places.{is_slash, names_behind, names_in};

use netlist_schema::NoMemory;
use std::alloc::{AllocError, Global};

/// The parts of a text between slashes.
fn parts(alloc: Global, text: &[u8]) -> Result<Vec<&[u8]>, AllocError>
    ensures { IfOk result (λ parts. map (λ x. x.now) parts.items ≡ slice_split is_slash text.now) }
{
    text.split(|b| *b == b'/').collect(alloc)
}

/// Whether a byte is a slash.
fn is_slash(b: u8) -> bool
    ensures { result ≡ is_slash b }
{
    b == b'/'
}

/// What stands behind the slash with which a text begins, where it begins with one.
fn behind_slash(text: &[u8]) -> Option<&[u8]>
    ensures { MatchOption result (names_in text.now ≡ slice_split is_slash text.now) (λ rest. names_in text.now ≡ names_behind rest.now) }
{
    match text.split_first() {
        Some((first, rest)) => { if is_slash(*first) { Some(rest) } else { None } }
        None => None,
    }
}

/// The names behind a first slash.
fn names_behind(alloc: Global, text: &[u8]) -> Result<Vec<&[u8]>, NoMemory>
    ensures { IfOk result (λ names. map (λ x. x.now) names.items ≡ names_behind text.now) }
{
    match text.split_first() {
        Some(_) => Ok(parts(alloc, text)?),
        None => Ok(Vec::new(alloc)),
    }
}

/// The names in the text of a path.
pub(crate) fn names_in(alloc: Global, text: &[u8]) -> Result<Vec<&[u8]>, NoMemory>
    ensures { IfOk result (λ names. map (λ x. x.now) names.items ≡ names_in text.now) }
{
    match behind_slash(text) {
        Some(rest) => names_behind(alloc, rest),
        None => Ok(parts(alloc, text)?),
    }
}
