// From texts to their codes: they are put in order, each different one is put once, and its position
// there is the code of all that equal it.

ghost use Rattle.std.specs.{Prelude.{◌≡◌, ◌↔◌, ◌-◌, ◌+◌, ◌<◌, ◌≤◌, ◌^◌, ℕ, List, All, IfOk, IsTrue, OnOk, Some, length, slice_get, take}, Cmp.Lexicographic.slice_cmp, List.Sorted.IsStrictlySortedBy, Ordering.nat_cmp};
ghost use Rattle.star_flat.specs.{Repeated.AreRepeated, Repeated.texts_at_indexes, Private.Order.AreInTextOrder, Private.Order.IsKeyed, Private.Order.numbered_texts, Private.Codes.LeadTo, Private.Codes.different};

use crate::ordered::{Numbered, in_order};
use crate::pages::release;
use crate::texts::FlatTexts;
use std::alloc::{AllocError, Global};

impl FlatTexts {
    /// The different ones of these texts in the order of their bytes, and for each text its position
    /// among them.
    pub fn coded(&self, alloc: Global) -> Result<(FlatTexts, Vec<u32>), AllocError>
        requires { length self.now < 2 ^ 32 }
        ensures sorted { IfOk result (λ coded. IsStrictlySortedBy (slice_cmp nat_cmp) coded.0) }
        ensures texts { IfOk result (λ coded. texts_at_indexes coded.0 coded.1.items ≡ self.now) }
        ensures repeated { IfOk result (λ coded. AreRepeated coded.0 coded.1.items) }
    {
        let ordered = in_order(alloc, self)?;
        let coded = code_ordered(alloc, self, ordered.as_slice());
        release(ordered);
        coded
    }
}

/// The different ones of these texts, which are in order, and the code of each text.
fn code_ordered(
    alloc: Global,
    texts: &FlatTexts,
    ordered: &[Numbered],
) -> Result<(FlatTexts, Vec<u32>), AllocError>
    requires few { length texts.now < 2 ^ 32 }
    requires ordered { AreInTextOrder texts.now ordered.now }
    ensures texts { IfOk result
        (λ coded. coded.0 ≡ different (numbered_texts texts.now ordered.now)) }
    ensures few { IfOk result (λ coded. length coded.0 ≤ length texts.now) }
    ensures len { IfOk result (λ coded. length coded.1.items ≡ length texts.now) }
    ensures codes { IfOk result (λ coded. LeadTo coded.0 coded.1.items texts.now ordered.now) }
{
    let mut put = FlatTexts::new(alloc);
    let mut codes = vec![in alloc; 0; ordered.len()]?;
    for (index, numbered) in ordered.iter().enumerate() {
        codes[numbered.number as usize] = put_next(&mut put, texts, ordered, index)?;
    }
    Ok((put, codes))
}

/// Whether the text at a position is the one before it.
fn repeats(texts: &FlatTexts, ordered: &[Numbered], index: usize) -> bool
    requires within { index < length ordered.now }
    requires keyed { All (IsKeyed texts.now) ordered.now }
    ensures { IsTrue result ↔ ((0 < index)
        × (slice_get (numbered_texts texts.now ordered.now) (index - 1)
        ≡ slice_get (numbered_texts texts.now ordered.now) index)) }
{
    index > 0 && ordered[index - 1].is_of_text(texts, ordered[index])
}

/// Puts the text at a position after those of the positions before, unless it repeats the last of them,
/// and answers its code.
fn put_next(
    put: &mut FlatTexts,
    texts: &FlatTexts,
    ordered: &[Numbered],
    index: usize,
) -> Result<u32, AllocError>
    requires within { index < length ordered.now }
    requires few { length texts.now < 2 ^ 32 }
    requires ordered { AreInTextOrder texts.now ordered.now }
    requires put { put.old ≡ different (take index (numbered_texts texts.now ordered.now)) }
    requires no_more { length put.old ≤ index }
    ensures put { OnOk result
        (put.new ≡ different (take (index + 1) (numbered_texts texts.now ordered.now))) }
    ensures no_more { OnOk result (length put.new ≤ index + 1) }
    ensures kept { OnOk result ((code : ℕ) (text : List ℕ) → slice_get put.old code ≡ Some text
        → slice_get put.new code ≡ Some text) }
    ensures code { IfOk result (λ code. slice_get put.new code
        ≡ slice_get (numbered_texts texts.now ordered.now) index) }
{
    if !repeats(texts, ordered, index) {
        ordered[index].put_text(texts, put)?;
    }
    Ok((put.len() - 1) as u32)
}
