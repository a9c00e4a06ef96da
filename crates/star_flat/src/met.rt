// Short texts that were put lately, kept by value.

ghost use Rattle.std.specs.Prelude.{◌≡◌, ◌≤◌, ℕ, List, All, IfSome, IsTrue, Some, length, slice_get, take};
ghost use Rattle.star_flat.specs.Private.Met.{IsMet};

use crate::slot::slot_of;
use std::simd::prelude::*;

/// How many bytes a short text has at most.
const SHORT: usize = 16;

/// How many short texts are remembered.
pub(crate) const REMEMBERED: usize = 64;

/// A short text, and the position of an equal one among those that are kept. If `len` is more than
/// 16 there is none.
#[derive(Clone, Copy)]
pub(crate) struct Met {
    index: usize,
    len: usize,
    bytes: [u8; 16],
}

/// Remembers nothing.
pub(crate) fn nothing_met() -> [Met; REMEMBERED]
    ensures { (kept : List (List ℕ)) → All (IsMet kept) result }
{
    [Met {
        index: 0,
        len: SHORT + 1,
        bytes: [0; 16],
    }; REMEMBERED]
}

// How many of 16 bytes come before one that differs from a text's at the same position.
#[inline(always)]
fn same_front(bytes: &[u8; 16], text: &[u8]) -> usize
    requires { 16 ≤ length text.now }
    ensures { (count : ℕ) → count ≤ result → take count bytes.now ≡ take count text.now }
{
    let other = u8x16::from_array(*bytes)
        .simd_ne(u8x16::from_slice(text))
        .to_bitmask();
    if other == 0 {
        SHORT
    } else {
        other.trailing_zeros() as usize
    }
}

// Whether bytes begin with the first `count` of a text.
#[inline(always)]
fn begin_with(bytes: &[u8; 16], text: &[u8], count: usize) -> bool
    requires short { count ≤ 16 }
    requires within { count ≤ length text.now }
    ensures { IsTrue result → take count bytes.now ≡ take count text.now }
{
    if text.len() >= SHORT {
        return same_front(bytes, text) >= count;
    }
    for at in 0..count {
        if bytes[at] != text[at] {
            return false;
        }
    }
    true
}

/// Returns the position of a text that equals the first `count` bytes of this one, if it is remembered.
#[inline(always)]
pub(crate) fn find_met(met: &[Met; REMEMBERED], text: &[u8], count: usize) -> Option<usize>
    requires { count ≤ length text.now }
    ensures { (kept : List (List ℕ)) → All (IsMet kept) met.now
        → IfSome result (λ index. slice_get kept index ≡ Some (take count text.now)) }
{
    if count > SHORT {
        return None;
    }
    let slot = &met[slot_of(&text[..count]) % REMEMBERED];
    if slot.len == count && begin_with(&slot.bytes, text, count) {
        Some(slot.index)
    } else {
        None
    }
}

/// Remembers the position of a text, if that is short.
pub(crate) fn remember(met: &mut [Met; REMEMBERED], text: &[u8], index: usize)
    ensures { (kept : List (List ℕ)) → All (IsMet kept) met.old
        → slice_get kept index ≡ Some text.now → All (IsMet kept) met.new }
{
    if text.len() > SHORT {
        return;
    }
    let mut bytes = [0; 16];
    bytes[..text.len()].copy_from_slice(text);
    met[slot_of(text) % REMEMBERED] = Met {
        index,
        len: text.len(),
        bytes,
    };
}
