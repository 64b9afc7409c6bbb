//! What a word stands for by itself: an identifier, a number, an integer, a string.
ghost use Rattle.std.specs.Prelude.{◌≡◌, ◌<◌, ℤ, All, IfOk, MatchOption};
ghost use Rattle.edif_spelling_spec.specs.Bytes.{is_unquoted};
ghost use Rattle.edif_spelling_spec.specs.Grammar.{SpellsInteger};
ghost use Rattle.script_spec.specs.Pieces.{Exponent, Integer, Named, Number, Quoted, SpellsAtom};
ghost use Rattle.script_words.specs.Reading.{IsBodyOf, IsNumberOf, Reads};

use crate::unread::Unread;
use edif_lexer::decode;
use netlist_schema::{Ident, Text};
use std::alloc::Global;
use std::str;

/// The identifier that a word is. `Bad` where it is none.
pub fn name(alloc: Global, word: &[u8]) -> Result<Ident, Unread>
    ensures { Reads (λ id. SpellsAtom word.now (Named id)) result }
{
    match Ident::of(alloc, word)? {
        Some(id) => Ok(id),
        None => Err(Unread::Bad),
    }
}

/// The number in decimal digits that a word is, of `least` to `most`. `Bad` where it is none.
pub fn number(word: &[u8], least: u64, most: u64) -> Result<u64, Unread>
    ensures { Reads (λ n. SpellsAtom word.now (Number least most n)) result }
{
    match digits(word) {
        Some(n) if least <= n && n <= most => Ok(n),
        _ => Err(Unread::Bad),
    }
}

/// The number in decimal digits that a word is, if it is one within u64.
fn digits(word: &[u8]) -> Option<u64>
    ensures { IsNumberOf word.now result }
{
    if word.first() == Some(&b'+') {
        return None;
    }
    match str::from_utf8(word) {
        Ok(text) => text.parse::<u64>().ok(),
        Err(_) => None,
    }
}

/// The integer that a word is, if it is one within i64.
fn find_integer(word: &[u8]) -> Option<i64>
    ensures { MatchOption result ((z : ℤ) → ¬ SpellsInteger word.now z) (SpellsInteger word.now) }
{
    match str::from_utf8(word) {
        Ok(text) => text.parse::<i64>().ok(),
        Err(_) => None,
    }
}

/// The integer that a word is. `Bad` where it is none within i64.
pub fn integer(word: &[u8]) -> Result<i64, Unread>
    ensures { Reads (λ z. SpellsAtom word.now (Integer z)) result }
{
    match find_integer(word) {
        Some(z) => Ok(z),
        None => Err(Unread::Bad),
    }
}

/// The integer that a word is. `Bad` where it is none within i32.
pub fn exponent(word: &[u8]) -> Result<i32, Unread>
    ensures { Reads (λ z. SpellsAtom word.now (Exponent z)) result }
{
    let z = integer(word)?;
    match i32::try_from(z) {
        Ok(z) => Ok(z),
        Err(_) => Err(Unread::Bad),
    }
}

/// Whether the bytes have no quote.
fn is_unquoted(bytes: &[u8]) -> bool
    ensures { result ≡ is_unquoted bytes.now }
{
    bytes.iter().all(|b| *b != b'"')
}

/// What stands between the quotes of a word, if it begins and ends with one and has no other.
fn between_quotes(word: &[u8]) -> Option<&[u8]>
    ensures { IsBodyOf word.now result }
{
    let (first, rest) = word.split_first()?;
    let (last, body) = rest.split_last()?;
    if *first != b'"' {
        return None;
    }
    if *last != b'"' {
        return None;
    }
    if is_unquoted(body) {
        return Some(body);
    }
    None
}

/// The text that a string stands for, spelled as in a design file. `Bad` where the word is no string.
pub fn quoted(alloc: Global, word: &[u8]) -> Result<Text, Unread>
    ensures spelled { Reads (λ text. SpellsAtom word.now (Quoted text)) result }
    ensures bytes { IfOk result (λ text. All (λ b. b < 256) text) }
{
    let Some(body) = between_quotes(word) else {
        return Err(Unread::Bad);
    };
    match decode(alloc, body, true)? {
        Ok(text) => Ok(text),
        Err(_) => Err(Unread::Bad),
    }
}
