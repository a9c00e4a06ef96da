// Numbers with a sign in words of 8, 16, 32 and 64 bits.

ghost use Rattle.std.specs.{Prelude.{◌≡◌, ◌<◌, ◌+◌, ◌++◌, ◌∷◌, [], ℤ, true, FitsSigned, IfOk, MatchBool, MatchOption, OnErr, OnOk, Some, length, map, slice_get, take, vec_capacity, vec_len}, Int.{w8, w16, w32, w64}, Ordering.int_cmp};
ghost use Rattle.star_flat.specs.{Words.less, Words.numbers_in, Private.Widths.widenings};

use crate::pages::release;
use std::alloc::{AllocError, Global};

/// A number with a sign in a word of some width. Below 64 bits it is kept as its distance above
/// the least of that width, and a column's numbers become their differences from the least of them
/// in place.
pub trait SignedWord: Copy + Ord + Drop {
    // The numbers that it can be.
    ghost holds: { ℤ → Type 0 };

    ghost number: { Self → ℤ };

    /// The word of a number, if it can be one.
    fn of(value: i64) -> Option<Self>
        ensures { MatchOption result (¬ holds value) (λ word. number word ≡ value) };

    /// The number that it is.
    fn value(self) -> i64
        ensures value { result ≡ number self }
        ensures held { holds result };

    /// Words compare as their numbers.
    fn order_law()
        ensures { (a b : Self) → Self.cmp a b ≡ int_cmp (number a) (number b) };
}

impl SignedWord for u8 {
    ghost holds = { FitsSigned w8 };

    ghost number = { less 0x80 };

    fn of(value: i64) -> Option<u8> {
        match i8::try_from(value) {
            Ok(number) => Some((i64::from(number) + 0x80) as u8),
            Err(_) => None,
        }
    }

    fn value(self) -> i64 {
        i64::from(self) - 0x80
    }

    fn order_law() {}
}

impl SignedWord for u16 {
    ghost holds = { FitsSigned w16 };

    ghost number = { less 0x8000 };

    fn of(value: i64) -> Option<u16> {
        match i16::try_from(value) {
            Ok(number) => Some((i64::from(number) + 0x8000) as u16),
            Err(_) => None,
        }
    }

    fn value(self) -> i64 {
        i64::from(self) - 0x8000
    }

    fn order_law() {}
}

impl SignedWord for u32 {
    ghost holds = { FitsSigned w32 };

    ghost number = { less 0x80000000 };

    fn of(value: i64) -> Option<u32> {
        match i32::try_from(value) {
            Ok(number) => Some((i64::from(number) + 0x8000_0000) as u32),
            Err(_) => None,
        }
    }

    fn value(self) -> i64 {
        i64::from(self) - 0x8000_0000
    }

    fn order_law() {}
}

impl SignedWord for i64 {
    ghost holds = { FitsSigned w64 };

    ghost number = { λ word. word };

    fn of(value: i64) -> Option<i64> {
        Some(value)
    }

    fn value(self) -> i64 {
        self
    }

    fn order_law() {}
}

/// Numbers with a sign in words of one width.
#[derive(Drop)]
pub enum SignedWords {
    Bits8(Vec<u8>),
    Bits16(Vec<u16>),
    Bits32(Vec<u32>),
    Bits64(Vec<i64>),
}

/// Puts a word at the end of a full list, or changes nothing where memory is refused. Apart from
/// `push_to`, which stays short so.
#[cold]
fn push_full<W: SignedWord>(words: &mut Vec<W>, word: W) -> Result<(), AllocError>
    ensures ok { OnOk result (words.new.items ≡ words.old.items ++ word ∷ []) }
    ensures err { OnErr result (words.new.items ≡ words.old.items) }
{
    words.push(word)?;
    Ok(())
}

/// Puts a number at the end, or changes nothing if it is too wide or memory is refused. Returns
/// whether it did.
#[inline(always)]
fn push_to<W: SignedWord>(words: &mut Vec<W>, number: i64) -> Result<bool, AllocError>
    ensures wide { OnOk result (W.holds number → result ≡ Ok true) }
    ensures ok { IfOk result (λ pushed. MatchBool pushed
        (map W.number words.new.items ≡ map W.number words.old.items ++ number ∷ [])
        (words.new.items ≡ words.old.items)) }
    ensures err { OnErr result (words.new.items ≡ words.old.items) }
{
    match W::of(number) {
        Some(word) => {
            if words.len() < words.capacity() {
                words.push_reserved(word);
            } else {
                push_full(words, word)?;
            }
            Ok(true)
        }
        None => Ok(false),
    }
}

/// The number at a position, from 0.
#[inline(always)]
fn one_in<W: SignedWord>(words: &[W], index: usize) -> i64
    requires { index < length words.now }
    ensures { slice_get (map W.number words.now) index ≡ Some result }
{
    words[index].value()
}

/// The numbers at a position, from 0, and at the next one.
#[inline(always)]
fn two_in<W: SignedWord>(words: &[W], index: usize) -> (i64, i64)
    requires { index + 1 < length words.now }
    ensures first { slice_get (map W.number words.now) index ≡ Some result.0 }
    ensures second { slice_get (map W.number words.now) (index + 1) ≡ Some result.1 }
{
    (one_in(words, index), one_in(words, index + 1))
}

/// The same numbers in words that can be every number that they could.
fn rewritten<S: SignedWord, W: SignedWord>(alloc: Global, words: &[S]) -> Result<Vec<W>, AllocError>
    requires { (number : ℤ) → S.holds number → W.holds number }
    ensures { IfOk result (λ rewritten. map W.number rewritten.items ≡ map S.number words.now) }
{
    let mut rewritten = Vec::with_capacity(alloc, words.len())?;
    for word in words {
        match W::of(word.value()) {
            Some(wide) => rewritten.push_reserved(wide),
            None => unreachable!(),
        }
    }
    Ok(rewritten)
}

impl SignedWords {
    /// How many numbers there are.
    pub(crate) fn len(&self) -> usize
        ensures { result ≡ length (numbers_in self.now) }
    {
        match self {
            SignedWords::Bits8(words) => words.len(),
            SignedWords::Bits16(words) => words.len(),
            SignedWords::Bits32(words) => words.len(),
            SignedWords::Bits64(words) => words.len(),
        }
    }

    /// The number at a position, from 0.
    pub(crate) fn at(&self, index: usize) -> i64
        requires { index < length (numbers_in self.now) }
        ensures { slice_get (numbers_in self.now) index ≡ Some result }
    {
        match self {
            SignedWords::Bits8(words) => one_in(words.as_slice(), index),
            SignedWords::Bits16(words) => one_in(words.as_slice(), index),
            SignedWords::Bits32(words) => one_in(words.as_slice(), index),
            SignedWords::Bits64(words) => one_in(words.as_slice(), index),
        }
    }

    /// The numbers at a position, from 0, and at the next one, by one look at the width of the words.
    #[inline(always)]
    pub(crate) fn two_at(&self, index: usize) -> (i64, i64)
        requires { index + 1 < length (numbers_in self.now) }
        ensures first { slice_get (numbers_in self.now) index ≡ Some result.0 }
        ensures second { slice_get (numbers_in self.now) (index + 1) ≡ Some result.1 }
    {
        match self {
            SignedWords::Bits8(words) => two_in(words.as_slice(), index),
            SignedWords::Bits16(words) => two_in(words.as_slice(), index),
            SignedWords::Bits32(words) => two_in(words.as_slice(), index),
            SignedWords::Bits64(words) => two_in(words.as_slice(), index),
        }
    }

    /// Puts a number at the end, or changes nothing if it is too wide or memory is refused. Returns
    /// whether it did: always if the words have 64 bits.
    #[inline(always)]
    pub(crate) fn push(&mut self, number: i64) -> Result<bool, AllocError>
        ensures ok { IfOk result (λ pushed. MatchBool pushed
            (numbers_in self.new ≡ numbers_in self.old ++ number ∷ [])
            ((numbers_in self.new ≡ numbers_in self.old) × (widenings self.new ≡ widenings self.old)
            × (0 < widenings self.old))) }
        ensures err { OnErr result (numbers_in self.new ≡ numbers_in self.old) }
    {
        match self {
            SignedWords::Bits8(words) => push_to(words, number),
            SignedWords::Bits16(words) => push_to(words, number),
            SignedWords::Bits32(words) => push_to(words, number),
            SignedWords::Bits64(words) => push_to(words, number),
        }
    }

    /// Lets the numbers go, as `release` does.
    pub(crate) fn release(self) {
        match self {
            SignedWords::Bits8(words) => release(words),
            SignedWords::Bits16(words) => release(words),
            SignedWords::Bits32(words) => release(words),
            SignedWords::Bits64(words) => release(words),
        }
    }

    /// Keeps only the first `count` numbers.
    pub(crate) fn truncate(&mut self, count: usize)
        ensures { numbers_in self.new ≡ take count (numbers_in self.old) }
    {
        match self {
            SignedWords::Bits8(words) => words.truncate(count),
            SignedWords::Bits16(words) => words.truncate(count),
            SignedWords::Bits32(words) => words.truncate(count),
            SignedWords::Bits64(words) => words.truncate(count),
        }
    }

    /// The same numbers in words twice as wide, up to 64 bits.
    pub(crate) fn widened(&self, alloc: Global) -> Result<SignedWords, AllocError>
        requires { 0 < widenings self.now }
        ensures numbers { IfOk result (λ wide. numbers_in wide ≡ numbers_in self.now) }
        ensures wider { IfOk result (λ wide. widenings wide < widenings self.now) }
    {
        match self {
            SignedWords::Bits8(words) => Ok(SignedWords::Bits16(rewritten(
                alloc,
                words.as_slice(),
            )?)),
            SignedWords::Bits16(words) => {
                Ok(SignedWords::Bits32(rewritten(alloc, words.as_slice())?))
            }
            SignedWords::Bits32(words) => {
                Ok(SignedWords::Bits64(rewritten(alloc, words.as_slice())?))
            }
            SignedWords::Bits64(_) => unreachable!(),
        }
    }
}
