// The texts of a list with their positions, in the order of their bytes.

ghost use Rattle.std.specs.{Prelude.{◌≡◌, ◌↔◌, ◌<◌, ◌≤◌, ◌+◌, ◌*◌, ◌%◌, ◌^◌, ◌++◌, ◌∷◌, [], All, IfOk, IsTrue, OnErr, OnOk, length, map, nat_lt, slice_index, slice_index_or, take}, Int.{to_be_bytes, w32, w64}, List.range_with_len};
ghost use Rattle.star_flat.specs.Private.Order.{AreInTextOrder, IsKeyed, IsWhole, by_key, digits, ending, key_of, text_at, text_cmp};

use crate::pages::release;
use crate::texts::FlatTexts;
use std::alloc::{AllocError, Global};
use std::cmp::Ordering;

/// The key of a text, by which it is put in order, and its number, which is its position in a list.
///
/// Most keys are distinguished by their fronts, the first 11 bytes of their texts, with no look at
/// the texts. A text of at most 11 bytes is known by its front.
#[derive(Clone, Copy)]
pub(crate) struct Numbered {
    /// The first 8 bytes.
    pub(crate) first: u64,
    /// The next 3, and how many bytes there are, up to 12.
    pub(crate) second: u32,
    pub(crate) number: u32,
}

/// A text after its front, and its number.
///
/// Two of them compare as their texts do, and equal ones by their numbers. It is twice as long as a
/// key, but has the position of its text, and those whose fronts are equal are compared sooner.
#[derive(Clone, Copy, PartialEq, Eq, PartialOrd, Ord)]
pub(crate) struct Whole<'t> {
    pub(crate) first: u64,
    pub(crate) second: u32,
    pub(crate) text: &'t [u8],
    pub(crate) number: u32,
}

/// The byte at a position, 0 after the end.
fn byte_at(text: &[u8], index: usize) -> u8
    ensures { result ≡ slice_index text.now index }
{
    match text.get(index) {
        Some(byte) => *byte,
        None => 0,
    }
}

/// The first 8 bytes of a text as the digits of a number, the first byte the highest. If a text
/// has fewer, zeros follow.
fn first_of(text: &[u8]) -> u64
    ensures digits { result ≡ digits 8 text.now }
    ensures bytes { All (λ byte. byte < 256) text.now }
{
    let mut digits = 0;
    for index in 0..8 {
        digits = digits * 256 + u64::from(byte_at(text, index));
    }
    digits
}

/// How many bytes a text has, up to 12.
fn count_of(text: &[u8]) -> u32
    ensures short { length text.now < 12 → result ≡ length text.now }
    ensures long { 12 ≤ length text.now → result ≡ 12 }
{
    if text.len() < 12 {
        text.len() as u32
    } else {
        12
    }
}

/// The 3 bytes after the first 8 of a text, in the same way, and then how many bytes it has, up to 12.
fn second_of(text: &[u8]) -> u32
    ensures digits { digits 11 text.now * 256 + result % 256
        ≡ digits 8 text.now * 4294967296 + result }
    ensures short { length text.now < 12 → result % 256 ≡ length text.now }
    ensures long { 12 ≤ length text.now → result % 256 ≡ 12 }
{
    u32::from(byte_at(text, 8)) * 16_777_216
        + u32::from(byte_at(text, 9)) * 65_536
        + u32::from(byte_at(text, 10)) * 256
        + count_of(text)
}

/// The text of a number, an empty one if there is none.
#[inline(always)]
fn text_of(texts: &FlatTexts, number: u32) -> &[u8]
    ensures { result.now ≡ slice_index_or texts.now number [] }
{
    if (number as usize) < texts.len() {
        texts.get(number as usize)
    } else {
        &[]
    }
}

impl Numbered {
    /// The key of the text at a position, from 0.
    fn at(texts: &FlatTexts, index: usize) -> Numbered
        requires within { index < length texts.now }
        requires few { length texts.now < 2 ^ 32 }
        ensures number { result.number ≡ index }
        ensures keyed { IsKeyed texts.now result }
    {
        let text = texts.get(index);
        Numbered {
            first: first_of(text),
            second: second_of(text),
            number: index as u32,
        }
    }

    /// Whether the front is the whole text.
    #[inline(always)]
    fn is_whole(self) -> bool
        ensures { result ≡ nat_lt (self.second % 256) 12 }
    {
        self.second % 256 < 12
    }

    /// The part that is compared if fronts are equal.
    fn ending(self, texts: &FlatTexts) -> &[u8]
        ensures { result.now ≡ ending texts.now self }
    {
        if self.is_whole() {
            &[]
        } else {
            text_of(texts, self.number)
        }
    }

    /// Whether this is the key of the same text as another.
    pub(crate) fn is_of_text(self, texts: &FlatTexts, other: Numbered) -> bool
        requires keyed { IsKeyed texts.now self }
        requires other_keyed { IsKeyed texts.now other }
        ensures { IsTrue result ↔ (text_at texts.now self ≡ text_at texts.now other) }
    {
        self.first == other.first
            && self.second == other.second
            && (self.is_whole() || text_of(texts, self.number) == text_of(texts, other.number))
    }

    /// The first 11 bytes, with zeros for those that the text lacks.
    fn front(self) -> [u8; 11]
        ensures { result ≡ take 11 (to_be_bytes w64 self.first ++ to_be_bytes w32 self.second) }
    {
        let first = self.first.to_be_bytes();
        let second = self.second.to_be_bytes();
        [
            first[0], first[1], first[2], first[3], first[4], first[5], first[6], first[7],
            second[0], second[1], second[2],
        ]
    }

    /// Puts the text after others. If the front is the whole text, its position is not read.
    pub(crate) fn put_text(self, texts: &FlatTexts, put: &mut FlatTexts) -> Result<(), AllocError>
        requires keyed { IsKeyed texts.now self }
        ensures ok { OnOk result (put.new ≡ put.old ++ text_at texts.now self ∷ []) }
        ensures err { OnErr result (put.new ≡ put.old) }
    {
        if self.is_whole() {
            put.push(&self.front()[..(self.second % 256) as usize])
        } else {
            put.push(text_of(texts, self.number))
        }
    }
}

/// How two keys compare whose fronts are one.
#[cold]
#[inline(never)]
fn compare_endings(texts: &FlatTexts, one: Numbered, other: Numbered) -> Ordering
    ensures { result ≡ text_cmp (ending texts.now one) (ending texts.now other) }
{
    one.ending(texts).cmp(&other.ending(texts))
}

/// How two keys compare: as their fronts, and if these are equal, as their texts.
#[inline(always)]
fn compare(texts: &FlatTexts, one: Numbered, other: Numbered) -> Ordering
    ensures { result ≡ by_key texts.now one other }
{
    // Mostly the first bytes differ, and the others need no look.
    if one.first != other.first {
        return one.first.cmp(&other.first);
    }
    match one.second.cmp(&other.second) {
        Ordering::Equal => compare_endings(texts, one, other),
        unequal => unequal,
    }
}

/// The keys of these texts, in their order.
fn with_numbers(alloc: Global, texts: &FlatTexts) -> Result<Vec<Numbered>, AllocError>
    requires { length texts.now < 2 ^ 32 }
    ensures numbers { IfOk result
        (λ numbered. map (λ e. e.number) numbered.items ≡ range_with_len 0 (length texts.now)) }
    ensures keys { IfOk result (λ numbered. All (IsKeyed texts.now) numbered.items) }
{
    let mut numbered = Vec::with_capacity(alloc, texts.len())?;
    for index in 0..texts.len() {
        numbered.push_reserved(Numbered::at(texts, index));
    }
    Ok(numbered)
}

/// The keys of these texts in the order of their bytes, with no more memory than they take.
fn by_fronts(alloc: Global, texts: &FlatTexts) -> Result<Vec<Numbered>, AllocError>
    requires { length texts.now < 2 ^ 32 }
    ensures { IfOk result (λ ordered. AreInTextOrder texts.now ordered.items) }
{
    let mut ordered = with_numbers(alloc, texts)?;
    ordered.sort_unstable_by(
        |one: &Numbered, other: &Numbered| -> Ordering
            ensures met { result ≡ by_key texts.entry.now one.now other.now }
        { compare(texts, *one, *other) },
    );
    Ok(ordered)
}

impl<'t> Whole<'t> {
    /// The text at a position, from 0.
    fn at(texts: &'t FlatTexts, index: usize) -> Whole<'t>
        requires within { index < length texts.now }
        requires few { length texts.now < 2 ^ 32 }
        ensures number { result.number ≡ index }
        ensures whole { IsWhole texts.now result }
    {
        let key = Numbered::at(texts, index);
        Whole {
            first: key.first,
            second: key.second,
            text: texts.get(index),
            number: key.number,
        }
    }

    /// The key of this text.
    fn key(&self) -> Numbered
        ensures { result ≡ key_of self.now }
    {
        Numbered {
            first: self.first,
            second: self.second,
            number: self.number,
        }
    }
}

/// These texts, in their order.
fn wholes<'t>(alloc: Global, texts: &'t FlatTexts) -> Result<Vec<Whole<'t>>, AllocError>
    requires { length texts.now < 2 ^ 32 }
    ensures numbers { IfOk result
        (λ wholes. map (λ e. e.number) wholes.items ≡ range_with_len 0 (length texts.now)) }
    ensures wholes { IfOk result (λ wholes. All (IsWhole texts.now) wholes.items) }
{
    let mut wholes = Vec::with_capacity(alloc, texts.len())?;
    for index in 0..texts.len() {
        wholes.push_reserved(Whole::at(texts, index));
    }
    Ok(wholes)
}

/// The keys of these texts, in their order.
fn keys_of(alloc: Global, wholes: &[Whole<'_>]) -> Result<Vec<Numbered>, AllocError>
    ensures { IfOk result (λ keys. keys.items ≡ map key_of wholes.now) }
{
    let mut keys = Vec::with_capacity(alloc, wholes.len())?;
    for index in 0..wholes.len() {
        keys.push_reserved(wholes[index].key());
    }
    Ok(keys)
}

/// The keys of these texts in the order of their bytes, by fronts and texts at once.
fn by_wholes(alloc: Global, texts: &FlatTexts) -> Result<Vec<Numbered>, AllocError>
    requires { length texts.now < 2 ^ 32 }
    ensures { IfOk result (λ ordered. AreInTextOrder texts.now ordered.items) }
{
    let mut wholes = wholes(alloc, texts)?;
    wholes.sort_unstable();
    let ordered = keys_of(alloc, wholes.as_slice())?;
    release(wholes);
    Ok(ordered)
}

/// Whether more than a third of these texts have more bytes than their fronts.
///
/// Either answer is right: it only decides how texts are sorted.
fn are_long(texts: &FlatTexts) -> bool {
    let mut long = 0;
    for index in 0..texts.len() {
        if texts.get(index).len() > 11 {
            long += 1;
        }
    }
    long > texts.len() / 3
}

/// The keys of these texts in the order of their bytes, each with the text's position in the list.
///
/// If many texts are long, all their fronts may be equal; therefore the position of each is kept. That
/// takes three times the memory, but a long text has more than 11 bytes of its file itself.
pub(crate) fn in_order(alloc: Global, texts: &FlatTexts) -> Result<Vec<Numbered>, AllocError>
    requires { length texts.now < 2 ^ 32 }
    ensures { IfOk result (λ ordered. AreInTextOrder texts.now ordered.items) }
{
    if are_long(texts) {
        by_wholes(alloc, texts)
    } else {
        by_fronts(alloc, texts)
    }
}
