// Unsigned numbers in words of 8, 16, 32 or 64 bits.

ghost use Rattle.std.specs.{Prelude.{◌≡◌, ◌+◌, ◌-◌, ◌<◌, ◌^◌, ℕ, ◌-ℤ◌, ◌≤ℤ◌, All, IfOk, Some, length, map, slice_get, true}, Int.RustNames.unsigned_abs};
ghost use Rattle.star_interval.specs.{Range.Holds, Interval.range_of};
ghost use Rattle.star_column.specs.{Width.least_width, Private.Words.numbers_above, Private.Words.numbers_in, Private.Words.word_bits};

use star_flat::{SignedWord, release};
use star_interval::Interval;
use std::alloc::{AllocError, Global};

/// An unsigned integer of some width.
pub(crate) trait Word: Copy + Drop {
    // Every number below it fits.
    ghost limit: { ℕ };

    ghost number: { Self → ℕ };

    /// Returns the word of a number that fits.
    fn of(value: u64) -> Self
        requires { value < limit }
        ensures { number result ≡ value };

    /// Returns its number.
    fn value(self) -> u64
        ensures { result ≡ number self };

    /// Returns the greatest number that fits.
    fn greatest() -> u64
        ensures limit { result + 1 ≡ limit }
        ensures above { 0 < result };

    /// States that the number of every word fits.
    fn law(words: &[Self])
        ensures { All (λ word. number word < limit) words.now };
}

impl Word for u8 {
    ghost limit = { 2 ^ 8 };

    ghost number = { λ word. word };

    fn of(value: u64) -> u8 {
        value as u8
    }

    fn value(self) -> u64 {
        u64::from(self)
    }

    fn greatest() -> u64 {
        u64::from(u8::MAX)
    }

    fn law(words: &[u8]) {
        let _words = words;
    }
}

impl Word for u16 {
    ghost limit = { 2 ^ 16 };

    ghost number = { λ word. word };

    fn of(value: u64) -> u16 {
        value as u16
    }

    fn value(self) -> u64 {
        u64::from(self)
    }

    fn greatest() -> u64 {
        u64::from(u16::MAX)
    }

    fn law(words: &[u16]) {
        let _words = words;
    }
}

impl Word for u32 {
    ghost limit = { 2 ^ 32 };

    ghost number = { λ word. word };

    fn of(value: u64) -> u32 {
        value as u32
    }

    fn value(self) -> u64 {
        u64::from(self)
    }

    fn greatest() -> u64 {
        u64::from(u32::MAX)
    }

    fn law(words: &[u32]) {
        let _words = words;
    }
}

impl Word for u64 {
    ghost limit = { 2 ^ 64 };

    ghost number = { λ word. word };

    fn of(value: u64) -> u64 {
        value
    }

    fn value(self) -> u64 {
        self
    }

    fn greatest() -> u64 {
        u64::MAX
    }

    fn law(words: &[u64]) {
        let _words = words;
    }
}

/// A word of a number that can hold, in place, the number's difference from the least.
pub(crate) trait OffsetWord: SignedWord {
    ghost distance: { Self → ℕ };

    ghost width: { ℕ };

    /// Returns the difference from another number.
    fn above(self, least: Self) -> Self
        requires { Self.number least ≤ℤ Self.number self }
        ensures { distance result ≡ unsigned_abs (Self.number self -ℤ Self.number least) };

    /// Tests whether a difference needs words of this width.
    fn is_least_for(span: u64) -> bool
        ensures { result ≡ true → width ≡ least_width span };

    /// Makes words of these differences.
    fn into_words(words: Vec<Self>) -> Words
        ensures numbers { numbers_in result ≡ map distance words.items }
        ensures width { word_bits result ≡ width };
}

impl OffsetWord for u8 {
    ghost distance = { λ word. word };

    ghost width = { 8 };

    fn above(self, least: u8) -> u8 {
        self - least
    }

    fn is_least_for(span: u64) -> bool {
        span <= u64::from(u8::MAX)
    }

    fn into_words(words: Vec<u8>) -> Words
        ensures numbers { numbers_in result ≡ words.items }
        ensures width { word_bits result ≡ 8 }
    {
        Words::Bits8(words)
    }
}

impl OffsetWord for u16 {
    ghost distance = { λ word. word };

    ghost width = { 16 };

    fn above(self, least: u16) -> u16 {
        self - least
    }

    fn is_least_for(span: u64) -> bool {
        span > u64::from(u8::MAX) && span <= u64::from(u16::MAX)
    }

    fn into_words(words: Vec<u16>) -> Words
        ensures numbers { numbers_in result ≡ words.items }
        ensures width { word_bits result ≡ 16 }
    {
        Words::Bits16(words)
    }
}

impl OffsetWord for u32 {
    ghost distance = { λ word. word };

    ghost width = { 32 };

    fn above(self, least: u32) -> u32 {
        self - least
    }

    fn is_least_for(span: u64) -> bool {
        span > u64::from(u16::MAX) && span <= u64::from(u32::MAX)
    }

    fn into_words(words: Vec<u32>) -> Words
        ensures numbers { numbers_in result ≡ words.items }
        ensures width { word_bits result ≡ 32 }
    {
        Words::Bits32(words)
    }
}

/// Numbers in words of one width.
pub enum Words {
    Bits8(Vec<u8>),
    Bits16(Vec<u16>),
    Bits32(Vec<u32>),
    Bits64(Vec<u64>),
}

impl Drop for Words {
    fn drop(self) {
        match self {
            Self::Bits8(_held) => {}
            Self::Bits16(_held) => {}
            Self::Bits32(_held) => {}
            Self::Bits64(_held) => {}
        }
    }
}

impl Words {
    /// Returns the number of numbers.
    pub(crate) fn len(&self) -> usize
        ensures { result ≡ length (numbers_in self.now) }
    {
        match self {
            Words::Bits8(words) => words.len(),
            Words::Bits16(words) => words.len(),
            Words::Bits32(words) => words.len(),
            Words::Bits64(words) => words.len(),
        }
    }

    /// Returns the width of each number in bits.
    pub(crate) fn bits(&self) -> u32
        ensures { result ≡ word_bits self.now }
    {
        match self {
            Words::Bits8(_) => u8::BITS,
            Words::Bits16(_) => u16::BITS,
            Words::Bits32(_) => u32::BITS,
            Words::Bits64(_) => u64::BITS,
        }
    }

    /// Returns the number at an index, from 0.
    pub(crate) fn at(&self, index: usize) -> u64
        requires { index < length (numbers_in self.now) }
        ensures { slice_get (numbers_in self.now) index ≡ Some result }
    {
        match self {
            Words::Bits8(words) => u64::from(words[index]),
            Words::Bits16(words) => u64::from(words[index]),
            Words::Bits32(words) => u64::from(words[index]),
            Words::Bits64(words) => words[index],
        }
    }

    /// Returns each number's difference from the lower bound, in the least width in which the
    /// difference of the bounds fits.
    pub(crate) fn of_numbers<S: SignedWord>(
        alloc: Global,
        numbers: &[S],
        bounds: Interval,
    ) -> Result<Words, AllocError>
        requires { All (λ number. Holds (range_of bounds) (S.number number)) numbers.now }
        ensures numbers { IfOk result
            (λ words. numbers_above bounds.low (numbers_in words) ≡ map S.number numbers.now) }
        ensures width { IfOk result
            (λ words. word_bits words ≡ least_width (unsigned_abs (bounds.high -ℤ bounds.low))) }
    {
        let low = bounds.low;
        let span = bounds.high.abs_diff(low);
        if span <= u64::from(u8::MAX) {
            Ok(Words::Bits8(differences(alloc, numbers, low)?))
        } else if span <= u64::from(u16::MAX) {
            Ok(Words::Bits16(differences(alloc, numbers, low)?))
        } else if span <= u64::from(u32::MAX) {
            Ok(Words::Bits32(differences(alloc, numbers, low)?))
        } else {
            Ok(Words::Bits64(differences(alloc, numbers, low)?))
        }
    }

    /// Does the same for numbers that it takes. They stay in place if their words have the width
    /// that the differences need.
    pub(crate) fn of_taken<S: OffsetWord>(
        alloc: Global,
        numbers: Vec<S>,
        bounds: Interval,
    ) -> Result<Words, AllocError>
        requires { All (λ number. Holds (range_of bounds) (S.number number)) numbers.items }
        ensures numbers { IfOk result
            (λ words. numbers_above bounds.low (numbers_in words) ≡ map S.number numbers.items) }
        ensures width { IfOk result
            (λ words. word_bits words ≡ least_width (unsigned_abs (bounds.high -ℤ bounds.low))) }
    {
        if S::is_least_for(bounds.high.abs_diff(bounds.low)) {
            if let Some(least) = S::of(bounds.low) {
                let mut words = numbers;
                words.shrink_to_fit();
                subtract(words.as_mut_slice(), least);
                return Ok(S::into_words(words));
            }
        }
        let words = Words::of_numbers(alloc, numbers.as_slice(), bounds)?;
        release(numbers);
        Ok(words)
    }
}

/// Replaces each number by its difference from the least.
fn subtract<S: OffsetWord>(words: &mut [S], least: S)
    requires { All (λ word. S.number least ≤ℤ S.number word) words.old }
    ensures { numbers_above (S.number least) (map S.distance words.new) ≡ map S.number words.old }
{
    for word in words.iter_mut() {
        *word = word.above(least);
    }
}

/// Returns the difference of each number from another.
fn differences<S: SignedWord, W: Word>(
    alloc: Global,
    numbers: &[S],
    low: i64,
) -> Result<Vec<W>, AllocError>
    requires above { All (λ number. low ≤ℤ S.number number) numbers.now }
    requires fit { All (λ number. unsigned_abs (S.number number -ℤ low) < W.limit) numbers.now }
    ensures { IfOk result
        (λ words. numbers_above low (map W.number words.items) ≡ map S.number numbers.now) }
{
    let mut words = Vec::with_capacity(alloc, numbers.len())?;
    for number in numbers {
        words.push_reserved(W::of(number.value().abs_diff(low)));
    }
    Ok(words)
}
