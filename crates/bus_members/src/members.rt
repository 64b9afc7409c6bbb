//! The names of the nets of an array.
ghost use Rattle.std.specs.Prelude.{◌≡◌, ◌++◌, ◌∷◌, [], IfOk, Decides, MatchOption, List, decimal, ℕ};
ghost use Rattle.netlist_bus_spec.specs.Members.{displayed, member_id, member_name};

use itoa::Buffer;
use netlist_schema::{Ident, Name, NoMemory, Text};
use std::alloc::Global;

/// A text, and behind it a number between two bytes.
fn numbered(
    alloc: Global,
    text: &[u8],
    opening: u8,
    k: u32,
    closing: u8,
) -> Result<Vec<u8>, NoMemory>
    ensures { IfOk result (λ bytes. bytes.items ≡ text.now ++ (opening ∷ (decimal k ++ closing ∷ []))) }
{
    let mut buffer = Buffer::new();
    let mut bytes = Vec::from_slice(alloc, text)?;
    bytes.push(opening)?;
    bytes.extend_from_slice(buffer.format(k).as_bytes())?;
    bytes.push(closing)?;
    Ok(bytes)
}

/// The identifier of member `k` of an array: `d_k_`.
fn member_ident(alloc: Global, id: &Ident, k: u32) -> Result<Ident, NoMemory>
    ensures { IfOk result (λ made. made ≡ member_id id.now k) }
{
    let bytes = numbered(alloc, id.as_slice(), b'_', k, b'_')?;
    match Ident::of(alloc, bytes.as_slice())? {
        Some(made) => Ok(made),
        None => unreachable!(),
    }
}

/// The text that a name displays: what is shown, or else the identifier. Takes no memory.
fn displayed(name: &Name) -> &[u8]
    ensures { result.now ≡ displayed name.now }
{
    match &name.shown {
        Some(text) => text.as_slice(),
        None => name.id.as_slice(),
    }
}

/// The name of the net of number `k` of an array with this name: the identifier `d_k_`, and the shown text `D[k]` where the array's
/// name displays `D`.
pub fn member_name(alloc: Global, name: &Name, k: u32) -> Result<Name, NoMemory>
    ensures { IfOk result (λ made. made ≡ member_name name.now k) }
{
    let id = member_ident(alloc, &name.id, k)?;
    let text = numbered(alloc, displayed(name), b'[', k, b']')?;
    Ok(Name {
        id,
        shown: Some(Text::of(text)),
    })
}

/// What stands behind the front of a text, where it begins so. Takes no memory.
fn after<'a>(text: &'a [u8], front: &[u8]) -> Option<&'a [u8]>
    ensures { MatchOption result ((rest : List ℕ) → text.now ≡ front.now ++ rest → ⊥) (λ rest. text.now ≡ front.now ++ rest.now) }
{
    text.strip_prefix(front)
}

/// Whether a text is another, and behind it a number between two bytes. Takes no memory.
pub(crate) fn is_numbered(text: &[u8], stem: &[u8], opening: u8, k: u32, closing: u8) -> bool
    ensures { Decides result (text.now ≡ stem.now ++ (opening ∷ (decimal k ++ closing ∷ []))) }
{
    let mut buffer = Buffer::new();
    let digits = buffer.format(k).as_bytes();
    let Some(rest) = after(text, stem) else {
        return false;
    };
    let Some(rest) = after(rest, &[opening]) else {
        return false;
    };
    let Some(rest) = after(rest, digits) else {
        return false;
    };
    match rest {
        [last] => *last == closing,
        _ => false,
    }
}
