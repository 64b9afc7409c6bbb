//! What a word stands for.
ghost use Rattle.std.specs.Prelude.{◌≡◌, if◌then◌else◌, option_map, true, IfErr, IfOk, IfSome, Err, None, Ok, Some};
ghost use Rattle.std.specs.List.{list_all};
ghost use Rattle.netlist_schema.specs.Ident.{IsIdentifier, is_identifier_byte};
ghost use Rattle.edif_spelling_spec.specs.Bytes.{is_word_byte};
ghost use Rattle.edif_spelling_spec.specs.Lent.{IsNamed, kind_of};
ghost use Rattle.edif_spelling_spec.specs.Names.{is_name};
ghost use Rattle.edif_spelling_spec.specs.Words.{word_kind, identifier, integer, begins_number};

use edif_spelling_spec::{LentKind, LexKind};
use std::str;

/// A byte that passes, and one that does not.
const I: bool = true;

const O: bool = false;

/// Which bytes a word may hold, sixteen in a row: letters, digits, `_`, `&`, `+` and `-`.
#[rattlefmt::skip]
static WORD_BYTES: [bool; 256] = [
    O, O, O, O, O, O, O, O, O, O, O, O, O, O, O, O,
    O, O, O, O, O, O, O, O, O, O, O, O, O, O, O, O,
    O, O, O, O, O, O, I, O, O, O, O, I, O, I, O, O,
    I, I, I, I, I, I, I, I, I, I, O, O, O, O, O, O,
    O, I, I, I, I, I, I, I, I, I, I, I, I, I, I, I,
    I, I, I, I, I, I, I, I, I, I, I, O, O, O, O, I,
    O, I, I, I, I, I, I, I, I, I, I, I, I, I, I, I,
    I, I, I, I, I, I, I, I, I, I, I, O, O, O, O, O,
    O, O, O, O, O, O, O, O, O, O, O, O, O, O, O, O,
    O, O, O, O, O, O, O, O, O, O, O, O, O, O, O, O,
    O, O, O, O, O, O, O, O, O, O, O, O, O, O, O, O,
    O, O, O, O, O, O, O, O, O, O, O, O, O, O, O, O,
    O, O, O, O, O, O, O, O, O, O, O, O, O, O, O, O,
    O, O, O, O, O, O, O, O, O, O, O, O, O, O, O, O,
    O, O, O, O, O, O, O, O, O, O, O, O, O, O, O, O,
    O, O, O, O, O, O, O, O, O, O, O, O, O, O, O, O,
];

/// Which bytes an identifier may hold, sixteen in a row: letters, digits and `_`.
#[rattlefmt::skip]
static NAME_BYTES: [bool; 256] = [
    O, O, O, O, O, O, O, O, O, O, O, O, O, O, O, O,
    O, O, O, O, O, O, O, O, O, O, O, O, O, O, O, O,
    O, O, O, O, O, O, O, O, O, O, O, O, O, O, O, O,
    I, I, I, I, I, I, I, I, I, I, O, O, O, O, O, O,
    O, I, I, I, I, I, I, I, I, I, I, I, I, I, I, I,
    I, I, I, I, I, I, I, I, I, I, I, O, O, O, O, I,
    O, I, I, I, I, I, I, I, I, I, I, I, I, I, I, I,
    I, I, I, I, I, I, I, I, I, I, I, O, O, O, O, O,
    O, O, O, O, O, O, O, O, O, O, O, O, O, O, O, O,
    O, O, O, O, O, O, O, O, O, O, O, O, O, O, O, O,
    O, O, O, O, O, O, O, O, O, O, O, O, O, O, O, O,
    O, O, O, O, O, O, O, O, O, O, O, O, O, O, O, O,
    O, O, O, O, O, O, O, O, O, O, O, O, O, O, O, O,
    O, O, O, O, O, O, O, O, O, O, O, O, O, O, O, O,
    O, O, O, O, O, O, O, O, O, O, O, O, O, O, O, O,
    O, O, O, O, O, O, O, O, O, O, O, O, O, O, O, O,
];

/// Whether a word may hold the byte.
pub(crate) fn is_word_byte(b: u8) -> bool
    ensures { result ≡ is_word_byte b }
{
    WORD_BYTES[usize::from(b)]
}

/// Whether an identifier may hold the byte.
pub(crate) fn is_name_byte(b: u8) -> bool
    ensures { result ≡ is_identifier_byte b }
{
    NAME_BYTES[usize::from(b)]
}

/// Whether a word is to be an integer, as its first byte tells.
#[inline(always)]
fn begins_number(word: &[u8]) -> bool
    ensures { result ≡ begins_number word.now }
{
    match word {
        [] => false,
        [first, ..] => first.is_ascii_digit() || *first == b'+' || *first == b'-',
    }
}

/// The integer that a word spells, or `None` where it spells none within i64.
fn integer(word: &[u8]) -> Option<i64>
    requires { list_all is_word_byte word.now ≡ true }
    ensures { result ≡ integer word.now }
{
    match str::from_utf8(word) {
        Ok(text) => text.parse::<i64>().ok(),
        Err(_) => None,
    }
}

/// These bytes where they are an identifier, or `None` where they are none.
#[inline(always)]
fn name(bytes: &[u8]) -> Option<&[u8]>
    ensures value { option_map (λ name. name.now) result ≡ (if is_name bytes.now then Some bytes.now else None) }
    ensures named { IfSome result (λ name. IsIdentifier name.now) }
{
    if !bytes.is_empty() && bytes.iter().all(|b| is_name_byte(*b)) {
        return Some(bytes);
    }
    None
}

/// The name of an identifier, behind its `&` where it has one, or `None` where the word is no identifier.
#[inline(always)]
fn identifier(word: &[u8]) -> Option<&[u8]>
    ensures value { option_map (λ name. name.now) result ≡ identifier word.now }
    ensures named { IfSome result (λ name. IsIdentifier name.now) }
{
    match word {
        [] => None,
        [b'&', rest @ ..] => name(rest),
        [first, ..] if first.is_ascii_digit() => None,
        _ => name(word),
    }
}

/// The token that a word is, its name lent from the word, or its fault.
#[tactic(auto, unfolding(edif_spelling_spec::specs::Words::word_kind))]
#[inline(always)]
pub(crate) fn word_kind(word: &[u8]) -> Result<LentKind<'_>, LexKind>
    requires { list_all is_word_byte word.now ≡ true }
    ensures ok { IfOk result (λ kind. (word_kind word.now ≡ Ok (kind_of kind)) × IsNamed kind) }
    ensures err { IfErr result (λ fault. word_kind word.now ≡ Err fault) }
{
    if begins_number(word) {
        return match integer(word) {
            Some(number) => Ok(LentKind::Integer(number)),
            None => Err(LexKind::BadNumber),
        };
    }
    match identifier(word) {
        Some(name) => Ok(LentKind::Word(name)),
        None => Err(LexKind::BadByte),
    }
}
