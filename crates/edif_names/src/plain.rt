//! Bytes that stand for themselves in a string.
ghost use Rattle.std.specs.Prelude.{◌≡◌, ◌≤◌, IsTrue, length, true};
ghost use Rattle.std.specs.List.{list_all};
ghost use Rattle.byte_lanes.specs.Lanes.{IsFront};
ghost use Rattle.edif_spec.specs.Canonical.{is_plain};

use byte_lanes::{LANES, first_set};
use std::simd::prelude::*;

/// Whether a byte stands for itself in a string.
pub(crate) fn is_plain(byte: u8) -> bool
    ensures { result ≡ is_plain byte }
{
    32 <= byte && byte <= 126 && byte != b'"' && byte != b'%'
}

/// How many of the first bytes stand for themselves.
#[inline(always)]
fn plain_run(bytes: &[u8]) -> usize
    requires { 16 ≤ length bytes.now }
    ensures { IsFront is_plain bytes.now result }
{
    let v = u8x16::from_slice(bytes);
    let from_blank = v - u8x16::splat(b' ');
    let is_mark = v.simd_eq(u8x16::splat(b'"')) | v.simd_eq(u8x16::splat(b'%'));
    let stops = from_blank.simd_ge(u8x16::splat(95)) | is_mark;
    first_set(stops.to_bitmask())
}

/// Whether all of a few bytes stand for themselves.
fn few_are_plain(bytes: &[u8]) -> bool
    ensures { result ≡ list_all is_plain bytes.now }
{
    bytes.iter().all(|byte| is_plain(*byte))
}

/// Whether all bytes stand for themselves in a string.
pub(crate) fn are_plain(bytes: &[u8]) -> bool
    ensures { IsTrue result → list_all is_plain bytes.now ≡ true }
{
    for block in 0..bytes.len() / LANES {
        if plain_run(&bytes[block * LANES..]) < LANES {
            return false;
        }
    }
    few_are_plain(&bytes[bytes.len() / LANES * LANES..])
}
