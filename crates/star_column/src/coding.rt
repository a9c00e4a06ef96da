// From the texts of rows to their codes. The distinct retained texts become the dictionary in
// order; the index of a text there is its code.

ghost use Rattle.std.specs.{Prelude.{◌≡◌, ◌-◌, ◌<◌, ◌^◌, All, IfOk, length, map, slice_index}, Int.RustNames.unsigned_abs, List.Sorted.IsStrictlySortedBy};
ghost use Rattle.star_flat.specs.Repeated.{AreRepeated, indexes_in, texts_at_indexes};
ghost use Rattle.star_schema.specs.Dictionary.{text_cmp};
ghost use Rattle.star_column.specs.{Width.least_width, Private.Words.numbers_in, Private.Words.word_bits};

use crate::dictionary::Dictionary;
use crate::words::{Word, Words};
use star_flat::{FlatNumbers, RepeatedTexts, SignedWord, SignedWords, release};
use std::alloc::{AllocError, Global};

/// Returns the dictionary of these texts, and the code of each. Only retained texts are sorted.
pub(crate) fn code_each(
    alloc: Global,
    texts: &RepeatedTexts,
) -> Result<(Dictionary, Words), AllocError>
    requires { length texts.now < 2 ^ 32 }
    ensures texts { IfOk result
        (λ coded. texts_at_indexes coded.0 (numbers_in coded.1) ≡ texts.now) }
    ensures repeated { IfOk result (λ coded. AreRepeated coded.0 (numbers_in coded.1)) }
    ensures width { IfOk result (λ coded. word_bits coded.1 ≡ least_width (length coded.0 - 1)) }
    ensures sorted { IfOk result (λ coded. IsStrictlySortedBy text_cmp coded.0) }
{
    let (kept, rows) = texts.parts();
    let (different, codes) = kept.coded(alloc)?;
    let dictionary = Dictionary::of_ordered(different);
    let each = words_at(alloc, rows, codes.as_slice(), dictionary.entries())?;
    release(codes);
    Ok((dictionary, each))
}

/// Returns the codes of the rows, in the least width that fits each code of a dictionary with
/// `entries` entries.
fn words_at(
    alloc: Global,
    rows: &FlatNumbers,
    codes: &[u32],
    entries: u32,
) -> Result<Words, AllocError>
    requires indexes { All (λ index. index < length codes.now) (indexes_in rows.now) }
    requires codes { All (λ code. code < entries) codes.now }
    ensures numbers { IfOk result (λ words. numbers_in words
        ≡ map (λ index. slice_index codes.now index) (indexes_in rows.now)) }
    ensures width { IfOk result (λ words. word_bits words ≡ least_width (entries - 1)) }
{
    let span = entries.saturating_sub(1);
    if span <= u32::from(u8::MAX) {
        Ok(Words::Bits8(codes_at(alloc, rows, codes)?))
    } else if span <= u32::from(u16::MAX) {
        Ok(Words::Bits16(codes_at(alloc, rows, codes)?))
    } else {
        Ok(Words::Bits32(codes_at(alloc, rows, codes)?))
    }
}

/// Returns the codes of the rows, in words of a width in which they fit.
fn codes_at<W: Word>(alloc: Global, rows: &FlatNumbers, codes: &[u32]) -> Result<Vec<W>, AllocError>
    requires indexes { All (λ index. index < length codes.now) (indexes_in rows.now) }
    requires fit { All (λ code. code < W.limit) codes.now }
    ensures { IfOk result (λ found. map W.number found.items
        ≡ map (λ index. slice_index codes.now index) (indexes_in rows.now)) }
{
    match rows.words() {
        SignedWords::Bits8(words) => read_at(alloc, words.as_slice(), codes),
        SignedWords::Bits16(words) => read_at(alloc, words.as_slice(), codes),
        SignedWords::Bits32(words) => read_at(alloc, words.as_slice(), codes),
        SignedWords::Bits64(words) => read_at(alloc, words.as_slice(), codes),
    }
}

/// Returns the codes of the rows, whose texts are given by signed words.
fn read_at<S: SignedWord, W: Word>(
    alloc: Global,
    words: &[S],
    codes: &[u32],
) -> Result<Vec<W>, AllocError>
    requires indexes { All (λ word. unsigned_abs (S.number word) < length codes.now) words.now }
    requires fit { All (λ code. code < W.limit) codes.now }
    ensures { IfOk result (λ found. map W.number found.items
        ≡ map (λ word. slice_index codes.now (unsigned_abs (S.number word))) words.now) }
{
    let mut found = Vec::with_capacity(alloc, words.len())?;
    for word in words {
        let code = codes[word.value().unsigned_abs() as usize];
        found.push_reserved(W::of(u64::from(code)));
    }
    Ok(found)
}
