// Columns of texts.

ghost use Rattle.std.specs.Prelude.{◌≡◌, ◌<◌, ◌^◌, IfOk, length, map, slice_get};
ghost use Rattle.star_schema.specs.Dictionary.{dictionary_of, codes_of, low_in, high_in, HasCode};
ghost use Rattle.star_column.specs.Width.{bits_of};

use crate::coding::code_each;
use crate::column::ColumnData;
use crate::dictionary::Dictionary;
use crate::view::ColumnView;
use crate::words::Words;
use star_flat::RepeatedTexts;
use star_interval::Interval;
use std::alloc::{AllocError, Global};
use std::marker::Model;

/// A column of texts, seen in contracts as the list of them in the order of the rows.
///
/// Each distinct text is kept once, in a dictionary in byte order. Each row has a code, the index
/// of its text there, in words of the least of 8, 16 and 32 bits in which every code fits. Rows,
/// indexes and codes count from 0.
#[derive(Drop)]
pub struct TextColumn {
    codes: Words,
    dictionary: Dictionary,
}

impl Model for TextColumn {
    ghost use Rattle.std.specs.Prelude.{ℕ, List, ◌≡◌};
    ghost use Rattle.star_schema.specs.Dictionary.{codes_of};
    ghost use Rattle.star_column.specs.{Width.bits_of, Private.Codes.AreCodes, Private.Words.{numbers_in, word_bits}};
    ghost use Rattle.star_flat.specs.Repeated.{texts_at_indexes};

    ghost Value = { List (List ℕ) };

    ghost view = { λ column. texts_at_indexes column.dictionary (numbers_in column.codes) };

    ghost invariant = { λ column. AreCodes column.dictionary (numbers_in column.codes)
        × (word_bits column.codes
        ≡ bits_of (codes_of (texts_at_indexes column.dictionary (numbers_in column.codes)))) };
}

impl TextColumn {
    /// Encodes these texts, at most 4,294,967,295, as a column.
    pub fn build(alloc: Global, texts: &[Vec<u8>]) -> Result<TextColumn, AllocError>
        requires { length texts.now < 2 ^ 32 }
        ensures { IfOk result (λ column. column ≡ map (λ text. text.items) texts.now) }
    {
        let repeated = repeated(alloc, texts)?;
        TextColumn::encode(alloc, &repeated)
    }

    /// Encodes these texts, at most 4,294,967,295, as a column, and frees them.
    ///
    /// Only retained texts are sorted; no texts are slow to find.
    pub fn from_flat(alloc: Global, texts: RepeatedTexts) -> Result<TextColumn, AllocError>
        requires { length texts < 2 ^ 32 }
        ensures { IfOk result (λ column. column ≡ texts) }
    {
        let column = TextColumn::encode(alloc, &texts)?;
        texts.release();
        Ok(column)
    }

    // Encodes these texts, which the caller keeps.
    fn encode(alloc: Global, texts: &RepeatedTexts) -> Result<TextColumn, AllocError>
        requires { length texts.now < 2 ^ 32 }
        ensures { IfOk result (λ column. column ≡ texts.now) }
    {
        let (dictionary, codes) = code_each(alloc, texts)?;
        Ok(TextColumn { codes, dictionary })
    }

    /// Returns the code of a row's text: its index in the dictionary, which is the number of
    /// smaller texts there.
    pub fn code_at(&self, row: u32) -> u32
        requires { row < length self.now }
        ensures stands { slice_get (dictionary_of self.now) result ≡ slice_get self.now row }
        ensures within { result < length (dictionary_of self.now) }
    {
        self.codes.at(row as usize) as u32
    }

    /// Returns the text with a code.
    pub fn text_of(&self, code: u32) -> &[u8]
        requires { code < length (dictionary_of self.now) }
        ensures { HasCode self.now result.now code }
    {
        self.dictionary.text_of(code)
    }

    /// Returns the number of texts in the dictionary, the distinct texts of the column.
    pub fn entries(&self) -> u32
        ensures { result ≡ length (dictionary_of self.now) }
    {
        self.dictionary.entries()
    }

    /// Returns the width of the codes' words in bits: the least of 8, 16, 32 and 64 in which the
    /// difference of the bounds of the codes fits, 8 without rows.
    pub fn bits(&self) -> u32
        ensures { result ≡ bits_of (codes_of self.now) }
    {
        self.codes.bits()
    }

    /// Borrows the codes of the rows.
    pub fn view(&self) -> ColumnView<'_>
        ensures { result ≡ codes_of self.now }
    {
        ColumnView::of(self.bounds(), &self.codes)
    }

    /// Returns the number of smaller texts in the dictionary.
    pub fn low(&self, text: &[u8]) -> u32
        ensures { result ≡ low_in (dictionary_of self.now) text.now }
    {
        self.dictionary.low(text)
    }

    /// Returns the number of smaller and equal texts in the dictionary.
    pub fn high(&self, text: &[u8]) -> u32
        ensures { result ≡ high_in (dictionary_of self.now) text.now }
    {
        self.dictionary.high(text)
    }
}

/// Copies these texts to flat storage.
fn repeated(alloc: Global, texts: &[Vec<u8>]) -> Result<RepeatedTexts, AllocError>
    ensures { IfOk result (λ repeated. repeated ≡ map (λ text. text.items) texts.now) }
{
    let mut repeated = RepeatedTexts::new(alloc);
    for text in texts {
        repeated.push(text.as_slice())?;
    }
    Ok(repeated)
}

/// The column of the codes.
impl ColumnData for TextColumn {
    ghost values = { codes_of };

    fn len(&self) -> u32 {
        self.codes.len() as u32
    }

    fn at(&self, row: u32) -> i64 {
        i64::from(self.code_at(row))
    }

    fn bounds(&self) -> Interval {
        Interval {
            low: 0,
            high: i64::from(self.entries().saturating_sub(1)),
        }
    }
}
