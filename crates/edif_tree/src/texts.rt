//! The strings of a tree.
ghost use Rattle.std.specs.Prelude.{◌≡◌, ◌+◌, ◌<◌, ◌≤◌, ◌∷◌, ◌++◌, [], IfOk, OnErr, OnOk, Some, get_or, length, slice_get};

use netlist_schema::NoMemory;
use std::alloc::Global;
use std::marker::Model;

/// Strings, which stand one behind the other in one list of bytes, and the places before which they end. Contracts see them in order.
#[derive(Drop)]
pub struct Texts {
    bytes: Vec<u8>,
    ends: Vec<u32>,
}

impl Model for Texts {
    ghost use Rattle.std.specs.Prelude.{List, ℕ, length};
    ghost use Rattle.edif_tree.specs.Texts.{AreEnds, texts_from};

    ghost Value = { List (List ℕ) };

    ghost view = { λ t. texts_from t.bytes.items 0 t.ends.items };

    ghost invariant = { λ t. AreEnds 0 t.ends.items (length t.bytes.items) };
}

/// The place behind so many bytes more.
fn end_behind(count: usize, more: usize) -> Result<u32, NoMemory>
    ensures { IfOk result (λ end. end ≡ count + more) }
{
    let Some(end) = count.checked_add(more) else {
        return Err(NoMemory);
    };
    match u32::try_from(end) {
        Ok(end) => Ok(end),
        Err(_) => Err(NoMemory),
    }
}

/// Adds the bytes of a string behind the others, and where it ends. Where memory is refused, all stays.
fn add_text(bytes: &mut Vec<u8>, ends: &mut Vec<u32>, text: &[u8], end: u32) -> Result<(), NoMemory>
    ensures bytes { OnOk result (bytes.new.items ≡ bytes.old.items ++ text.now) }
    ensures ends { OnOk result (ends.new.items ≡ ends.old.items ++ end ∷ []) }
    ensures err_bytes { OnErr result (bytes.new.items ≡ bytes.old.items) }
    ensures err_ends { OnErr result (ends.new.items ≡ ends.old.items) }
{
    ends.reserve(1)?;
    bytes.extend_from_slice(text)?;
    ends.push_reserved(end);
    Ok(())
}

/// Where the string at a place begins.
fn start_of(ends: &[u32], at: usize) -> u32
    requires { at ≤ length ends.now }
    ensures { result ≡ get_or (0 ∷ ends.now) at 0 }
{
    if at == 0 {
        return 0;
    }
    ends[at - 1]
}

impl Texts {
    /// No strings. Takes no memory.
    pub fn new(alloc: Global) -> Texts
        ensures { result ≡ [] }
    {
        Texts {
            bytes: Vec::new(alloc),
            ends: Vec::new(alloc),
        }
    }

    /// The number of strings.
    pub fn len(&self) -> usize
        ensures { result ≡ length self.now }
    {
        self.ends.len()
    }

    /// Adds a string. Where memory is refused, the strings stay.
    pub fn push(&mut self, text: &[u8]) -> Result<(), NoMemory>
        ensures ok { OnOk result (self.new ≡ self.old ++ text.now ∷ []) }
        ensures err { OnErr result (self.new ≡ self.old) }
    {
        let end = end_behind(self.bytes.len(), text.len())?;
        add_text(&mut self.bytes, &mut self.ends, text, end)
    }

    /// The string at a place.
    #[inline(always)]
    pub fn get(&self, at: usize) -> &[u8]
        requires { at < length self.now }
        ensures { slice_get self.now at ≡ Some result.now }
    {
        let start = start_of(&self.ends, at) as usize;
        &self.bytes[start..self.ends[at] as usize]
    }
}
