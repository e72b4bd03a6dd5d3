//! Parts in an ordered map.

ghost use Rattle.std.specs.Prelude.{◌≡◌, ◌+◌, ◌^◌, ◌<◌, ℕ};
ghost use Rattle.store_upload.specs.Uploads.{first_gap as first_gap_of, last_end as last_end_of, overlap_at};
ghost use Rattle.store_upload.specs.inner.Places.{AreApart, holds};

use crate::length::Length;
use std::collections::BTreeMap;

/// The lowest of the `len` offsets from `offset` on that parts hold.
pub(crate) fn overlap<P: Length>(parts: &BTreeMap<u64, P>, offset: u64, len: u64) -> Option<u64>
    requires positive { 0 < len }
    requires fits { offset + len < 2 ^ 64 }
    requires apart { (n : ℕ) × (n < 2 ^ 64) × AreApart P.len 0 n parts.now.entries }
    ensures { result ≡ overlap_at P.len offset len parts.now.entries }
{
    if is_held(parts, offset) {
        return Some(offset);
    }
    match parts.range(offset..offset + len).next() {
        Some((start, _)) => Some(*start),
        None => None,
    }
}

// Whether a part that starts at or before the offset holds it.
fn is_held<P: Length>(parts: &BTreeMap<u64, P>, offset: u64) -> bool
    requires { (n : ℕ) × (n < 2 ^ 64) × AreApart P.len 0 n parts.now.entries }
    ensures { result ≡ holds P.len offset parts.now.entries }
{
    match parts.range(..=offset).next_back() {
        Some((start, part)) => offset < *start + part.length(),
        None => false,
    }
}

/// The end of the last part; 0 if there is none.
pub(crate) fn last_end<P: Length>(parts: &BTreeMap<u64, P>) -> u64
    requires { (n : ℕ) × (n < 2 ^ 64) × AreApart P.len 0 n parts.now.entries }
    ensures { result ≡ last_end_of P.len parts.now.entries }
{
    match parts.last_key_value() {
        Some((start, part)) => *start + part.length(),
        None => 0,
    }
}

/// The lowest offset that parts do not hold.
pub(crate) fn first_gap<P: Length>(parts: &BTreeMap<u64, P>) -> u64
    requires { (n : ℕ) × (n < 2 ^ 64) × AreApart P.len 0 n parts.now.entries }
    ensures { result ≡ first_gap_of P.len 0 parts.now.entries }
{
    let mut at = 0;
    for (start, part) in parts {
        if *start != at {
            return at;
        }
        at += part.length();
    }
    at
}
