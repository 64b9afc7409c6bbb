//! Bytes at the front that are of one kind.
ghost use Rattle.std.specs.Prelude.{◌≡◌, ◌≤◌, length, not, take, true, IfSome};
ghost use Rattle.std.specs.List.{list_all};
ghost use Rattle.netlist_schema.specs.Ident.{is_identifier_byte};
ghost use Rattle.edif_spelling_spec.specs.Bytes.{is_quote, is_space, is_unquoted, is_word_byte};
ghost use Rattle.byte_lanes.specs.Lanes.{IsFront};
ghost use Rattle.edif_lexer.specs.Lanes.{IsQuoted, is_plain};

use crate::words::{is_name_byte, is_word_byte};
use byte_lanes::{LANES, first_set};
use std::simd::prelude::*;

/// Whether the byte is a parenthesis.
#[inline(always)]
pub(crate) fn is_paren(byte: u8) -> bool {
    byte == b'(' || byte == b')'
}

/// How many bytes of a word stand in front.
#[inline(always)]
pub(crate) fn word_bytes(bytes: &[u8]) -> usize
    ensures within { result ≤ length bytes.now }
    ensures all { list_all is_word_byte (take result bytes.now) ≡ true }
{
    for (i, byte) in bytes.iter().enumerate() {
        if !is_word_byte(*byte) {
            return i;
        }
    }
    bytes.len()
}

/// How many of the first bytes are of an identifier.
#[inline(always)]
fn name_run(bytes: &[u8]) -> usize
    requires { 16 ≤ length bytes.now }
    ensures { IsFront is_identifier_byte bytes.now result }
{
    let v = u8x16::from_slice(bytes);
    let from_a = (v | u8x16::splat(0x20)) - u8x16::splat(b'a');
    let from_zero = v - u8x16::splat(b'0');
    let is_mark = from_a.simd_ge(u8x16::splat(26)) & from_zero.simd_ge(u8x16::splat(10));
    let stops = is_mark & v.simd_ne(u8x16::splat(b'_'));
    first_set(stops.to_bitmask())
}

/// How many of the first bytes are blanks, of which the form feed counts for none here.
#[inline(always)]
fn blank_run(bytes: &[u8]) -> usize
    requires { 16 ≤ length bytes.now }
    ensures { IsFront is_space bytes.now result }
{
    let v = u8x16::from_slice(bytes);
    let is_seen = v.simd_ne(u8x16::splat(b' ')) & v.simd_ne(u8x16::splat(b'\n'));
    let is_mark = v.simd_ne(u8x16::splat(b'\t')) & v.simd_ne(u8x16::splat(b'\r'));
    let stops = is_seen & is_mark;
    first_set(stops.to_bitmask())
}

/// How many of the first bytes stand before a quote.
#[inline(always)]
fn unquoted_run(bytes: &[u8]) -> usize
    requires { 16 ≤ length bytes.now }
    ensures { IsFront (λ b. not (is_quote b)) bytes.now result }
{
    let v = u8x16::from_slice(bytes);
    let stops = v.simd_eq(u8x16::splat(b'"'));
    first_set(stops.to_bitmask())
}

/// How many bytes of an identifier stand in front, one by one.
fn few_names(bytes: &[u8]) -> usize
    ensures within { result ≤ length bytes.now }
    ensures all { list_all is_identifier_byte (take result bytes.now) ≡ true }
{
    for (i, byte) in bytes.iter().enumerate() {
        if !is_name_byte(*byte) {
            return i;
        }
    }
    bytes.len()
}

/// How many bytes of an identifier stand in front.
#[inline(always)]
pub(crate) fn name_bytes(bytes: &[u8]) -> usize
    ensures within { result ≤ length bytes.now }
    ensures all { list_all is_identifier_byte (take result bytes.now) ≡ true }
{
    for block in 0..bytes.len() / LANES {
        let at = block * LANES;
        let run = name_run(&bytes[at..]);
        if run < LANES {
            return at + run;
        }
    }
    let at = bytes.len() / LANES * LANES;
    at + few_names(&bytes[at..])
}

/// How many bytes stand before the first quote, one by one.
fn few_unquoted(bytes: &[u8]) -> usize
    ensures within { result ≤ length bytes.now }
    ensures all { is_unquoted (take result bytes.now) ≡ true }
{
    for (i, byte) in bytes.iter().enumerate() {
        if *byte == b'"' {
            return i;
        }
    }
    bytes.len()
}

/// How many of the next bytes stand before a quote, as far as is looked.
#[inline(always)]
pub(crate) fn unquoted(bytes: &[u8]) -> usize
    ensures within { result ≤ length bytes.now }
    ensures all { is_unquoted (take result bytes.now) ≡ true }
{
    if bytes.len() < LANES {
        return few_unquoted(bytes);
    }
    unquoted_run(bytes)
}

/// How many of the first bytes stand before a quote or a `%`.
#[inline(always)]
fn plain_run(bytes: &[u8]) -> usize
    requires { 16 ≤ length bytes.now }
    ensures { IsFront is_plain bytes.now result }
{
    let v = u8x16::from_slice(bytes);
    let stops = v.simd_eq(u8x16::splat(b'"')) | v.simd_eq(u8x16::splat(b'%'));
    first_set(stops.to_bitmask())
}

/// How many bytes stand before the first quote or `%`, one by one.
fn few_plain(bytes: &[u8]) -> usize
    ensures within { result ≤ length bytes.now }
    ensures all { list_all is_plain (take result bytes.now) ≡ true }
{
    for (i, byte) in bytes.iter().enumerate() {
        if *byte == b'"' || *byte == b'%' {
            return i;
        }
    }
    bytes.len()
}

/// How many bytes stand before the first quote or `%`.
#[inline(always)]
fn plain_bytes(bytes: &[u8]) -> usize
    ensures within { result ≤ length bytes.now }
    ensures all { list_all is_plain (take result bytes.now) ≡ true }
{
    for block in 0..bytes.len() / LANES {
        let at = block * LANES;
        let run = plain_run(&bytes[at..]);
        if run < LANES {
            return at + run;
        }
    }
    let at = bytes.len() / LANES * LANES;
    at + few_plain(&bytes[at..])
}

/// What stands between the quotes of the string that begins these bytes, where it ends in them and has no escape.
#[inline(always)]
pub(crate) fn quoted(bytes: &[u8]) -> Option<&[u8]>
    ensures { IfSome result (λ text. IsQuoted bytes.now text.now) }
{
    let [b'"', rest @ ..] = bytes else {
        return None;
    };
    let count = plain_bytes(rest);
    if count < rest.len() && rest[count] == b'"' {
        return Some(&rest[..count]);
    }
    None
}

/// How many blanks stand in front, one by one.
fn few_blanks(bytes: &[u8]) -> usize
    ensures within { result ≤ length bytes.now }
    ensures all { list_all is_space (take result bytes.now) ≡ true }
{
    for (i, byte) in bytes.iter().enumerate() {
        if !byte.is_ascii_whitespace() {
            return i;
        }
    }
    bytes.len()
}

/// Whether a blank stands in front.
#[inline(always)]
fn begins_blank(bytes: &[u8]) -> bool {
    match bytes.first() {
        Some(first) => first.is_ascii_whitespace(),
        None => false,
    }
}

/// How many of the next bytes are blanks, as far as is looked.
#[inline(always)]
pub(crate) fn blanks(bytes: &[u8]) -> usize
    ensures within { result ≤ length bytes.now }
    ensures all { list_all is_space (take result bytes.now) ≡ true }
{
    if !begins_blank(bytes) {
        return 0;
    }
    if bytes.len() < LANES {
        return few_blanks(bytes);
    }
    blank_run(bytes)
}
