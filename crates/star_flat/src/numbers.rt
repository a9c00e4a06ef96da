// A list of numbers, in words as wide as they need.

ghost use Rattle.std.specs.Prelude.{◌≡◌, ◌<◌, ◌+◌, ◌++◌, ◌∷◌, [], OnErr, OnOk, Some, length, slice_get, take};
ghost use Rattle.star_flat.specs.{Repeated.indexes_in, Words.numbers_in};

use crate::words::SignedWords;
use std::alloc::{AllocError, Global};
use std::marker::Model;

/// A list of numbers of 64 bits, which a contract sees as the list of them. They are kept in words
/// of the least of 8, 16, 32 and 64 bits in which each that was put fits, with its sign.
pub struct FlatNumbers {
    alloc: Global,
    words: SignedWords,
}

impl Drop for FlatNumbers {
    fn drop(self) {
        let Self { alloc, words } = self;
    }
}

impl Model for FlatNumbers {
    ghost use Rattle.std.specs.Prelude.{ℤ, List};
    ghost use Rattle.star_flat.specs.Words.{numbers_in};

    ghost Value = { List ℤ };

    ghost view = { λ numbers. numbers_in numbers.words };
}

impl FlatNumbers {
    /// No numbers. Takes no memory.
    pub fn new(alloc: Global) -> FlatNumbers
        ensures { result ≡ [] }
    {
        FlatNumbers {
            alloc,
            words: SignedWords::Bits8(Vec::new(alloc)),
        }
    }

    /// How many numbers there are.
    pub fn len(&self) -> usize
        ensures { result ≡ length self.now }
    {
        self.words.len()
    }

    /// The number at a position, from 0.
    pub fn get(&self, index: usize) -> i64
        requires { index < length self.now }
        ensures { slice_get self.now index ≡ Some result }
    {
        self.words.at(index)
    }

    /// The numbers at a position, from 0, and at the next one.
    #[inline(always)]
    pub(crate) fn two_at(&self, index: usize) -> (i64, i64)
        requires { index + 1 < length self.now }
        ensures first { slice_get self.now index ≡ Some result.0 }
        ensures second { slice_get self.now (index + 1) ≡ Some result.1 }
    {
        self.words.two_at(index)
    }

    /// The words that the numbers are kept in.
    pub fn words(&self) -> &SignedWords
        ensures { numbers_in result.now ≡ self.now }
    {
        &self.words
    }

    /// Puts a number at the end, or changes nothing if memory is refused.
    #[inline(always)]
    pub fn push(&mut self, number: i64) -> Result<(), AllocError>
        ensures ok { OnOk result (self.new ≡ self.old ++ number ∷ []) }
        ensures err { OnErr result (self.new ≡ self.old) }
    {
        if self.words.push(number)? {
            Ok(())
        } else {
            self.push_wide(number)
        }
    }

    /// The words that the numbers are kept in, taken.
    pub fn into_words(self) -> SignedWords
        ensures { numbers_in result ≡ self }
    {
        let Self {
            alloc: _alloc,
            words,
        } = self;
        words
    }

    /// Lets the numbers go, as `release` does.
    pub fn release(self) {
        self.into_words().release();
    }

    /// Keeps only the first `count` numbers.
    pub(crate) fn truncate(&mut self, count: usize)
        ensures { self.new ≡ take count self.old }
    {
        self.words.truncate(count);
    }

    /// Puts a number at the end in words as wide as it needs, or changes nothing if memory is
    /// refused. Apart from `push`, which stays short so.
    #[cold]
    fn push_wide(&mut self, number: i64) -> Result<(), AllocError>
        ensures ok { OnOk result (self.new ≡ self.old ++ number ∷ []) }
        ensures err { OnErr result (self.new ≡ self.old) }
    {
        while !self.words.push(number)? {
            self.words = self.words.widened(self.alloc)?;
        }
        Ok(())
    }
}

/// The position of a text that equals the one of a row.
pub(crate) fn index_at(rows: &FlatNumbers, row: usize) -> usize
    requires { row < length rows.now }
    ensures { slice_get (indexes_in rows.now) row ≡ Some result }
{
    rows.get(row).unsigned_abs() as usize
}

/// The positions of a row and of the next one.
#[inline(always)]
pub(crate) fn two_indexes(rows: &FlatNumbers, row: usize) -> (usize, usize)
    requires { row + 1 < length rows.now }
    ensures first { slice_get (indexes_in rows.now) row ≡ Some result.0 }
    ensures second { slice_get (indexes_in rows.now) (row + 1) ≡ Some result.1 }
{
    let (first, second) = rows.two_at(row);
    (
        first.unsigned_abs() as usize,
        second.unsigned_abs() as usize,
    )
}

/// Puts a position at the end, or changes nothing if memory is refused.
#[inline(always)]
pub(crate) fn push_index(rows: &mut FlatNumbers, index: usize) -> Result<(), AllocError>
    ensures ok { OnOk result (indexes_in rows.new ≡ indexes_in rows.old ++ index ∷ []) }
    ensures err { OnErr result (rows.new ≡ rows.old) }
{
    match i64::try_from(index) {
        Ok(number) => rows.push(number),
        Err(_) => Err(AllocError),
    }
}
