// Lists of words, and quoted texts.

ghost use Rattle.std.specs.{Prelude.{◌≡◌, ◌∷◌, ◌<◌, ℕ, List, Option, Some, None, [], IfSome, MatchOption, MatchResult, length, if◌then◌else◌}, Option.option_map};
ghost use Rattle.star_program.specs.{Text.Lines.words_of, Text.Numerals.register_of};
ghost use Rattle.star_program.specs.Private.Reading as reading;
ghost use Rattle.star_program.specs.Text.Keywords as words;
ghost use Rattle.star_program.specs.Text.Said as spec;

use crate::group::GroupKey;
use crate::op::Text;
use crate::spelling::fault::LineFault;
use crate::spelling::lines::{is_blank, split_word};
use crate::spelling::numerals::read_register;
use star_common::Items;
use star_schema::{
    AGGREGATES, Aggregate, ColumnId, TableId, column_named, first_named, is_text, table_named,
};
use std::alloc::Global;

/// An item of a list of words.
pub trait Listed: Copy + Drop {
    ghost meaning: { List ℕ → Option Self };

    /// Reads the item of a word.
    fn read(word: &[u8]) -> Option<Self>
        ensures { result ≡ meaning word.now };
}

/// A register number.
impl Listed for u16 {
    ghost meaning = { register_of };

    fn read(word: &[u8]) -> Option<u16> {
        read_register(word)
    }
}

impl Listed for Aggregate {
    ghost meaning = { words.aggregate_of_word };

    #[tactic(auto, unfolding(crate::specs::Text::Keywords::aggregate_of_word))]
    fn read(word: &[u8]) -> Option<Aggregate> {
        first_named(&AGGREGATES, word)
    }
}

impl Listed for GroupKey {
    ghost meaning = { spec.group_key_of };

    #[tactic(auto, unfolding(crate::specs::Text::Said::group_key_of))]
    fn read(word: &[u8]) -> Option<GroupKey> {
        if word == "number".as_bytes() {
            return Some(GroupKey::Number);
        }
        let column = read_column(word)?;
        if is_text(column) {
            Some(GroupKey::Text(column))
        } else {
            None
        }
    }
}

#[tactic(auto, unfolding(crate::specs::Text::Keywords::column_of_word))]
pub(crate) fn read_column(word: &[u8]) -> Option<ColumnId>
    ensures { result ≡ words.column_of_word word.now }
{
    column_named(word)
}

#[tactic(auto, unfolding(crate::specs::Text::Keywords::table_of_word))]
pub(crate) fn read_table(word: &[u8]) -> Option<TableId>
    ensures { result ≡ words.table_of_word word.now }
{
    table_named(word)
}

// Reads the words up to a colon, and returns the line after it.
fn read_until_colon<T: Listed>(alloc: Global, line: &[u8]) -> Result<(Items<T>, &[u8]), LineFault>
    ensures { MatchResult result (λ parts. spec.until_colon T.meaning (words_of line.now)
        ≡ Some (parts.0, words_of parts.1.now))
        (λ fault. reading.IsMissed fault (spec.until_colon T.meaning (words_of line.now))) }
{
    let mut items = Vec::new(alloc);
    let mut rest = line;
    while let Some((word, after)) = split_word(rest) {
        rest = after;
        if word == ":".as_bytes() {
            return Ok((Items::from_vec(items), rest));
        }
        match T::read(word) {
            Some(item) => items.push(item)?,
            None => return Err(LineFault::Unreadable),
        }
    }
    Err(LineFault::Unreadable)
}

// Reads the words up to the end of a line.
fn read_each<T: Listed>(alloc: Global, line: &[u8]) -> Result<Items<T>, LineFault>
    ensures { reading.Reads result (spec.each T.meaning (words_of line.now)) }
{
    let mut items = Vec::new(alloc);
    let mut rest = line;
    while let Some((word, after)) = split_word(rest) {
        rest = after;
        match T::read(word) {
            Some(item) => items.push(item)?,
            None => return Err(LineFault::Unreadable),
        }
    }
    Ok(Items::from_vec(items))
}

/// Reads two lists separated by a colon.
pub(crate) fn read_lists<A: Listed, B: Listed>(
    alloc: Global,
    line: &[u8],
) -> Result<(Items<A>, Items<B>), LineFault>
    ensures { reading.Reads result (spec.lists A.meaning B.meaning (words_of line.now)) }
{
    let (front, rest) = read_until_colon(alloc, line)?;
    let back = read_each(alloc, rest)?;
    Ok((front, back))
}

// Returns the next byte of a quoted text, and the text after it.
fn text_byte(quoted: &[u8]) -> Option<(u8, &[u8])>
    ensures byte { MatchOption result
        (spec.unquoted quoted.now ≡ (if reading.closes quoted.now then Some [] else None))
        (λ parts. spec.unquoted quoted.now ≡ option_map (λ text. parts.0 ∷ text)
        (spec.unquoted parts.1.now)) }
    ensures shorter { IfSome result (λ parts. length parts.1.now < length quoted.now) }
{
    let (byte, rest) = quoted.split_first()?;
    if *byte != b'\'' {
        return Some((*byte, rest));
    }
    let (next, after) = rest.split_first()?;
    if *next == b'\'' {
        Some((*next, after))
    } else {
        None
    }
}

// Tests whether a text ends here, at a quote that only spaces follow.
fn closes(quoted: &[u8]) -> bool
    ensures { result ≡ reading.closes quoted.now }
{
    match quoted.split_first() {
        Some((first, rest)) => *first == b'\'' && is_blank(rest),
        None => false,
    }
}

// Reads the text after its opening quote.
fn read_unquoted(alloc: Global, quoted: &[u8]) -> Result<Text, LineFault>
    ensures { reading.Reads result (spec.unquoted quoted.now) }
{
    let mut text = Vec::new(alloc);
    let mut rest = quoted;
    while let Some((byte, after)) = text_byte(rest) {
        text.push(byte)?;
        rest = after;
    }
    if closes(rest) {
        Ok(Items::from_vec(text))
    } else {
        Err(LineFault::Unreadable)
    }
}

/// Reads a quoted text.
pub(crate) fn read_quoted(alloc: Global, word: &[u8]) -> Result<Text, LineFault>
    ensures { reading.Reads result (spec.quoted_text_of word.now) }
{
    match word.split_first() {
        Some((first, quoted)) => {
            if *first == b'\'' {
                read_unquoted(alloc, quoted)
            } else {
                Err(LineFault::Unreadable)
            }
        }
        None => Err(LineFault::Unreadable),
    }
}
