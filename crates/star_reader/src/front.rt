// The first field of the rest of a line.

ghost use Rattle.std.specs.{Prelude.{◌≡◌, ◌+◌, ◌<◌, ◌≤◌, ◌^◌, ◌&&◌, if◌then◌else◌, ℕ, None, Some, MatchOption, false, true, length, map, not, take}, List.{list_all, prefix_len}, Simd.Lanes.mask_l, Str.Parse.digits_value};
ghost use Rattle.star_common.specs.{Numerals.is_numeral, Printable.is_printable};
ghost use Rattle.star_reader.specs.Private.Fronts.{IsEndOf, IsFront, is_stop};
ghost use Rattle.star_schema.specs.Tables as spec;

use crate::cell::parse_number;
use std::simd::prelude::*;

// How many bytes are searched for a bar at once.
const NEAR: usize = 16;

/// The digits at the front of a text: how many, and the number that they write.
#[derive(Clone, Copy)]
pub(crate) struct Digits {
    pub(crate) value: u64,
    pub(crate) count: usize,
}

/// The number at the front of a text, and how many bytes write it.
#[derive(Clone, Copy)]
pub(crate) struct Number {
    pub(crate) value: i64,
    pub(crate) count: usize,
}

// The digit that a byte writes, and a number past 9 if it writes none: one comparison shows which.
#[inline(always)]
fn digit_of(byte: u8) -> u64
    ensures { result ≤ 9 → result + 48 ≡ byte }
{
    u64::from(byte).wrapping_sub(48)
}

// The first field of a text, if it is 1 to 8 digits, has a bar after it, and the text has nine
// bytes; else no digits. There may be a number where it finds none.
#[inline(always)]
fn short_front(text: &[u8]) -> Digits
    ensures { 0 < result.count → IsFront text.now result.count
        × (is_numeral 18 (take result.count text.now) ≡ true)
        × (result.value ≡ digits_value 10 (take result.count text.now)) × (result.value < 10 ^ 18) }
{
    if text.len() < 9 {
        return Digits { value: 0, count: 0 };
    }
    let mut value = 0u64;
    for count in 0..9 {
        let byte = text[count];
        let digit = digit_of(byte);
        if digit > 9 {
            if byte != b'|' {
                return Digits { value: 0, count: 0 };
            }
            return Digits { value, count };
        }
        value = value * 10 + digit;
    }
    Digits { value: 0, count: 0 }
}

// The number that the first `count` bytes of a text write, if they write one. Apart from
// `number_front`, which stays short so.
#[cold]
fn long_number(text: &[u8], count: usize) -> Option<i64>
    requires { count ≤ length text.now }
    ensures { let cell = take count text.now in
        result ≡ (if spec.is_number cell then Some (spec.number_of cell) else None) }
{
    parse_number(&text[..count])
}

/// The first field of a text, if it is a number.
#[inline(always)]
pub(crate) fn number_front(text: &[u8]) -> Option<Number>
    ensures { MatchOption result
        ((count : ℕ) → IsFront text.now count → spec.is_number (take count text.now) ≡ false)
        (λ number. IsFront text.now number.count
        × (spec.is_number (take number.count text.now) ≡ true)
        × (number.value ≡ spec.number_of (take number.count text.now))) }
{
    let short = short_front(text);
    if short.count > 0 {
        return Some(Number {
            value: short.value as i64,
            count: short.count,
        });
    }
    let count = front_len(text);
    match long_number(text, count) {
        Some(value) => Some(Number { value, count }),
        None => None,
    }
}

// What `text_front` does, byte by byte.
#[inline(never)]
fn slow_front(text: &[u8]) -> Option<usize>
    ensures { MatchOption result ((count : ℕ) → IsFront text.now count
        → (spec.is_short (take count text.now) && list_all is_printable (take count text.now))
        ≡ false) (λ count. IsFront text.now count × (spec.is_short (take count text.now) ≡ true)
        × (list_all is_printable (take count text.now) ≡ true)) }
{
    let most = text.len().min(256);
    for count in 0..most {
        let byte = text[count];
        if byte == b'|' {
            return Some(count);
        }
        if byte < b' ' || byte > b'~' {
            return None;
        }
    }
    if most > 255 {
        return None;
    }
    Some(most)
}

// Which of these bytes end a cell, or may not be in one.
#[inline(always)]
fn stops(lanes: u8x16) -> u64
    ensures { result ≡ mask_l (map is_stop lanes) }
{
    let bars = lanes.simd_eq(u8x16::splat(b'|'));
    let others = (lanes - u8x16::splat(b' ')).simd_ge(u8x16::splat(0x5F));
    (bars | others).to_bitmask()
}

// How many of the first 16 bytes of a text come before one that ends a cell, or may not be in one.
#[inline(always)]
fn near_front(text: &[u8]) -> usize
    requires { 16 ≤ length text.now }
    ensures { result ≡ prefix_len (λ b. not (is_stop b)) (take 16 text.now) }
{
    let stops = stops(u8x16::from_slice(text));
    if stops == 0 {
        NEAR
    } else {
        stops.trailing_zeros() as usize
    }
}

// How many bytes of the end of a line, at most 16 of them, come before one that ends a cell, or may
// not be in one. The line has 16.
#[inline(always)]
fn near_end(line: &[u8], text: &[u8]) -> usize
    requires end { IsEndOf line.now text.now }
    requires room { 16 ≤ length line.now }
    requires few { length text.now ≤ 16 }
    ensures { result ≡ prefix_len (λ b. not (is_stop b)) text.now }
{
    let last = stops(u8x16::from_slice(&line[line.len() - NEAR..]));
    let left = last >> (NEAR - text.len());
    if left == 0 {
        text.len()
    } else {
        left.trailing_zeros() as usize
    }
}

/// How many bytes the first field of a text, the end of a line, has, if these are at most 255 and
/// printable.
#[inline(always)]
pub(crate) fn text_front(line: &[u8], text: &[u8]) -> Option<usize>
    requires { IsEndOf line.now text.now }
    ensures { MatchOption result ((count : ℕ) → IsFront text.now count
        → (spec.is_short (take count text.now) && list_all is_printable (take count text.now))
        ≡ false) (λ count. IsFront text.now count × (spec.is_short (take count text.now) ≡ true)
        × (list_all is_printable (take count text.now) ≡ true)) }
{
    if text.len() >= NEAR {
        let count = near_front(text);
        if count < NEAR && text[count] == b'|' {
            return Some(count);
        }
    } else if line.len() >= NEAR {
        let count = near_end(line, text);
        if count >= text.len() || text[count] == b'|' {
            return Some(count);
        }
    }
    slow_front(text)
}

/// How many bytes the first field of a text has.
pub(crate) fn front_len(text: &[u8]) -> usize
    ensures { IsFront text.now result }
{
    for count in 0..text.len() {
        if text[count] == b'|' {
            return count;
        }
    }
    text.len()
}
