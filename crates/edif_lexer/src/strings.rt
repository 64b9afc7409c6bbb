//! What the bytes between two quotes stand for.
ghost use Rattle.std.specs.Prelude.{◌≡◌, ◌+◌, ◌<◌, ◌∷◌, ◌++◌, [], true, length, IfOk, MatchResult, IfSome, Some, None, if◌then◌else◌};
ghost use Rattle.std.specs.Option.{option_map_or};
ghost use Rattle.std.specs.List.{slice_split, position};
ghost use Rattle.std.specs.Str.Parse.{digits_value};
ghost use Rattle.edif_spelling_spec.specs.Bytes.{is_space, is_percent};
ghost use Rattle.edif_spelling_spec.specs.Strings.{segments, is_code, are_codes, codes_of, is_escape, codes, value, escape_fault};

use netlist_schema::Text;
use std::alloc::{AllocError, Global};
use std::str;

fn first_space(bytes: &[u8]) -> Option<usize>
    ensures { result ≡ position is_space bytes.now }
{
    bytes.iter().position(|b| b.is_ascii_whitespace())
}

fn first_percent(bytes: &[u8]) -> Option<usize>
    ensures { result ≡ position is_percent bytes.now }
{
    bytes.iter().position(|b| *b == b'%')
}

/// What stands before the first white space, and what stands behind it.
fn cut_at_space(bytes: &[u8]) -> (&[u8], Option<&[u8]>)
    ensures parts { slice_split is_space bytes.now ≡ result.0.now ∷ option_map_or (λ rest. slice_split is_space rest.now) result.1 [] }
    ensures shorter { IfSome result.1 (λ rest. length result.0.now + length rest.now < length bytes.now) }
{
    match first_space(bytes) {
        Some(n) => (&bytes[..n], Some(&bytes[n + 1..])),
        None => (bytes, None),
    }
}

/// What stands before the first `%`, and what stands behind it.
fn cut_at_percent(bytes: &[u8]) -> (&[u8], Option<&[u8]>)
    ensures parts { segments bytes.now ≡ result.0.now ∷ option_map_or (λ rest. segments rest.now) result.1 [] }
    ensures shorter { IfSome result.1 (λ rest. length result.0.now + length rest.now < length bytes.now) }
{
    match first_percent(bytes) {
        Some(n) => (&bytes[..n], Some(&bytes[n + 1..])),
        None => (bytes, None),
    }
}

/// The code that these bytes spell, or `None` where they spell none up to 255.
fn code(text: &[u8]) -> Option<u8>
    requires { 0 < length text.now }
    ensures { result ≡ (if is_code text.now then Some (digits_value 10 text.now) else None) }
{
    if text[0] == b'+' {
        return None;
    }
    match str::from_utf8(text) {
        Ok(digits) => digits.parse::<u8>().ok(),
        Err(_) => None,
    }
}

/// Writes what a part of an escape stands for at the end of the text, or answers `false` where it is no code.
fn push_code(part: &[u8], text: &mut Vec<u8>) -> Result<bool, AllocError>
    ensures exact { IfOk result (λ found. found ≡ are_codes (part.now ∷ [])) }
    ensures codes { IfOk result (λ found. found ≡ true → text.new.items ≡ text.old.items ++ codes_of (part.now ∷ [])) }
{
    if part.is_empty() {
        return Ok(true);
    }
    match code(part) {
        Some(code) => {
            text.push(code)?;
            Ok(true)
        }
        None => Ok(false),
    }
}

/// Writes the codes of an escape at the end of the text, or answers `false` where it is none.
fn push_codes(escape: &[u8], text: &mut Vec<u8>) -> Result<bool, AllocError>
    ensures exact { IfOk result (λ found. found ≡ is_escape escape.now) }
    ensures codes { IfOk result (λ found. found ≡ true → text.new.items ≡ text.old.items ++ codes escape.now) }
{
    let mut left = escape;
    loop {
        let (part, rest) = cut_at_space(left);
        if !push_code(part, text)? {
            return Ok(false);
        }
        match rest {
            Some(rest) => left = rest,
            None => return Ok(true),
        }
    }
}

/// The text that the bytes stand for, or how many stand before the first bad escape.
pub fn decode(alloc: Global, body: &[u8], closed: bool) -> Result<Result<Text, usize>, AllocError>
    ensures { IfOk result (λ found. MatchResult found
        (λ text. (escape_fault closed 0 (segments body.now) ≡ None) × (text ≡ value (segments body.now)))
        (λ at. escape_fault closed 0 (segments body.now) ≡ Some at)) }
{
    let mut text = Vec::new(alloc);
    let mut left = body;
    let mut at = 0;
    loop {
        let (plain, escape) = cut_at_percent(left);
        text.extend_from_slice(plain)?;
        at += plain.len();
        let Some(escape) = escape else {
            return Ok(Ok(Text::of(text)));
        };
        let (codes, rest) = cut_at_percent(escape);
        if !push_codes(codes, &mut text)? {
            return Ok(Err(at));
        }
        match rest {
            Some(rest) => {
                at += codes.len() + 2;
                left = rest;
            }
            None if closed => return Ok(Err(at)),
            None => return Ok(Ok(Text::of(text))),
        }
    }
}
