// Rows found by the digits of their keys.

ghost use Rattle.std.specs.Prelude.{◌≡◌, ◌<◌, ◌*◌, length, slice_index_or, MatchBool};
ghost use Rattle.star_program.specs.Rows.{cut};
ghost use Rattle.star_group.specs.Private.{Numbers.keys_in, Tries.{IsKeyFound, child, key_at, part_digit, word_from}};
ghost use Rattle.star_group.specs.Private.Tries as spec;

use super::KeyedRows;
use super::key::KeyPart;
use star_program::row_of;

// Distinguishes a value's bits from those of another kind.
fn kind_of(part: KeyPart) -> usize
    ensures { result ≡ spec.key_kind part }
{
    match part {
        KeyPart::All => 0,
        KeyPart::Number(_) => 1,
        KeyPart::Code(_) => 2,
    }
}

fn bits_of(part: KeyPart) -> u64
    ensures { result ≡ spec.key_bits part }
{
    match part {
        KeyPart::All => 0,
        KeyPart::Number(number) => number.cast_unsigned(),
        KeyPart::Code(code) => u64::from(code),
    }
}

// Two bits of a value, from the lowest, and then its kind.
fn part_digit_at(part: KeyPart, round: usize) -> usize
    ensures digit { result ≡ part_digit part round }
    ensures few { result < 4 }
{
    if round < 32 {
        ((bits_of(part) >> (2 * round)) % 4) as usize
    } else {
        kind_of(part)
    }
}

// The digit of a key in this round and at this position.
fn key_digit(key: &[KeyPart], round: usize, index: usize) -> usize
    requires within { index < length key.now }
    ensures digit { result ≡ part_digit (slice_index_or key.now index KeyPart.All) round }
    ensures few { result < 4 }
{
    part_digit_at(key[index], round)
}

// A word with the part at a position after it.
fn word_with(word: u64, key: &[KeyPart], index: usize) -> u64
    requires { index < length key.now }
    ensures { result ≡ spec.word_with word (slice_index_or key.now index KeyPart.All) }
{
    word.wrapping_mul(31).wrapping_add(bits_of(key[index]))
}

// All parts in one word: keys whose parts are small have words of their own.
fn word_of(key: &[KeyPart]) -> u64
    ensures { result ≡ word_from 0 key.now }
{
    let mut word = 0;
    for index in 0..key.len() {
        word = word_with(word, key, index);
    }
    word
}

// Which two bits of a word are the digit at a depth: the lowest distinguish the keys of few rows;
// then the higher ones come first, so that what keys pass that come in order lies close by.
fn turn_at(depth: usize) -> usize
    ensures turn { result ≡ spec.turn_at depth }
    ensures few { depth < 32 → result < 32 }
{
    if depth < 5 {
        depth
    } else if depth < 16 {
        20 - depth
    } else {
        depth
    }
}

// The digit of a key at a depth: first those of its word, then those of its parts in turn, which
// distinguish all keys.
fn digit_at(word: u64, key: &[KeyPart], depth: usize) -> usize
    requires word { word ≡ word_from 0 key.now }
    requires some { 0 < length key.now }
    ensures digit { result ≡ spec.digit_at (length key.now) key.now depth }
    ensures few { result < 4 }
{
    if depth < 32 {
        ((word >> (2 * turn_at(depth))) % 4) as usize
    } else {
        let turn = depth - 32;
        key_digit(key, turn / key.len(), turn % key.len())
    }
}

// The node that a key's digits lead to.
#[derive(Clone, Copy)]
pub(super) enum Slot {
    Held(usize),
    Missing { node: usize, digit: usize },
}

// The node below a node by a digit.
fn child_at(links: &[[u32; 4]], node: usize, digit: usize) -> usize
    requires node { node < length links.now }
    requires digit { digit < 4 }
    ensures { result ≡ child links.now node digit }
{
    links[node][digit] as usize
}

// Whether the row of a number has this key.
fn has_key(keys: &[KeyPart], width: usize, count: usize, number: usize, key: &[KeyPart]) -> bool
    requires { length keys.now ≡ count * width }
    ensures { MatchBool result (key_at (cut width count keys.now) number ≡ key.now)
        (key_at (cut width count keys.now) number ≡ key.now → ⊥) }
{
    *row_of(keys, width, count, number) == *key
}

impl KeyedRows {
    // The position of this key's row, or of a new one.
    pub(super) fn find(&self, key: &[KeyPart]) -> Slot
        requires { length key.now ≡ self.now.listed.width }
        ensures { IsKeyFound self.now.listed.width (keys_in self.now) self.now.links.items key.now
            result }
    {
        let (width, len) = (self.listed.width, self.listed.len);
        let word = word_of(key);
        let mut node = 0;
        for depth in 0..self.links.len() {
            let digit = digit_at(word, key, depth);
            let next = child_at(self.links.as_slice(), node, digit);
            if next == 0 {
                return Slot::Missing { node, digit };
            }
            if has_key(self.listed.keys.as_slice(), width, len, next - 1, key) {
                return Slot::Held(next - 1);
            }
            node = next;
        }
        unreachable!()
    }
}
