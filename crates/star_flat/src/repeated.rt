// A list of texts, many of them equal.

ghost use Rattle.std.specs.Prelude.{◌≡◌, ◌<◌, ◌≤◌, ◌^◌, ◌++◌, ◌∷◌, [], All, IfOk, IfSome, Some, length, map, slice_get, slice_index, take, OnErr, OnOk};
ghost use Rattle.star_flat.specs.Repeated.{AreRepeated, indexes_in, texts_at_indexes};

use crate::marks::may_repeat;
use crate::met::{Met, REMEMBERED, find_met, nothing_met, remember};
use crate::numbers::{FlatNumbers, index_at, push_index};
use crate::pages::release;
use crate::slot::{SLOTS, slot_of};
use crate::texts::FlatTexts;
use std::alloc::{AllocError, Global};
use std::marker::Model;
use std::mem::replace;

/// How many texts are kept at least before they are compacted. Their positions fit into words of 16
/// bits.
const MANY: usize = 32_768;

/// A list of texts, which a contract sees as the list of their bytes. A text that equals one that
/// was put lately is not kept again: for each text there is the position of an equal one among those
/// that are kept. If many are kept that may repeat, they are compacted: of equal ones one stays.
pub struct RepeatedTexts {
    alloc: Global,
    kept: FlatTexts,
    rows: FlatNumbers,
    // Indexes of texts that were put lately, each in the slot of its text. Any position may be here:
    // it is tried.
    recent: [usize; SLOTS],
    // Short texts of them, by value.
    met: [Met; REMEMBERED],
    // How many texts are kept before they are compacted next. Any number is valid here.
    most: usize,
}

impl Drop for RepeatedTexts {
    fn drop(self) {
        let Self {
            alloc,
            kept,
            rows,
            recent,
            met,
            most,
        } = self;
    }
}

impl Model for RepeatedTexts {
    ghost use Rattle.std.specs.Prelude.{List, ℕ};
    ghost use Rattle.star_flat.specs.Repeated.{AreRepeated, indexes_in, texts_at_indexes};

    ghost Value = { List (List ℕ) };

    ghost view = { λ texts. texts_at_indexes texts.kept (indexes_in texts.rows) };

    ghost use Rattle.std.specs.Prelude.{All};
    ghost use Rattle.star_flat.specs.Private.Met.{IsMet};

    ghost invariant = { λ texts. AreRepeated texts.kept (indexes_in texts.rows)
        × All (IsMet texts.kept) texts.met };
}

/// The position of an equal text that was put lately.
#[inline(always)]
fn recent_index(recent: &[usize; SLOTS], kept: &FlatTexts, text: &[u8]) -> Option<usize>
    ensures { IfSome result (λ index. slice_get kept.now index ≡ Some text.now) }
{
    let index = recent[slot_of(text)];
    if index < kept.len() && kept.get(index) == text {
        Some(index)
    } else {
        None
    }
}

/// Keeps a text, and puts its position at the end, or changes nothing if memory is refused.
fn keep(kept: &mut FlatTexts, rows: &mut FlatNumbers, text: &[u8]) -> Result<(), AllocError>
    ensures kept { OnOk result (kept.new ≡ kept.old ++ text.now ∷ []) }
    ensures rows { OnOk result (indexes_in rows.new ≡ indexes_in rows.old ++ length kept.old ∷ []) }
    ensures err { OnErr result ((kept.new ≡ kept.old) × (indexes_in rows.new ≡ indexes_in rows.old)) }
{
    let count = rows.len();
    push_index(rows, kept.len())?;
    match kept.push(text) {
        Ok(()) => Ok(()),
        Err(error) => {
            rows.truncate(count);
            Err(error)
        }
    }
}

/// The item at the position of each row.
fn renumbered(alloc: Global, rows: &FlatNumbers, numbers: &[u32]) -> Result<FlatNumbers, AllocError>
    requires { All (λ index. index < length numbers.now) (indexes_in rows.now) }
    ensures { IfOk result (λ renumbered. indexes_in renumbered
        ≡ map (λ index. slice_index numbers.now index) (indexes_in rows.now)) }
{
    let mut renumbered = FlatNumbers::new(alloc);
    for row in 0..rows.len() {
        push_index(&mut renumbered, numbers[index_at(rows, row)] as usize)?;
    }
    Ok(renumbered)
}

/// Keeps only one of equal texts, and puts its position for each row, or changes nothing if memory
/// is refused.
fn keep_different(
    alloc: Global,
    kept: &mut FlatTexts,
    rows: &mut FlatNumbers,
) -> Result<(), AllocError>
    requires few { length kept.old < 2 ^ 32 }
    requires repeated { AreRepeated kept.old (indexes_in rows.old) }
    ensures texts { texts_at_indexes kept.new (indexes_in rows.new) ≡ texts_at_indexes kept.old (indexes_in rows.old) }
    ensures repeated { AreRepeated kept.new (indexes_in rows.new) }
{
    let (different, codes) = kept.coded(alloc)?;
    let indexes = renumbered(alloc, rows, codes.as_slice())?;
    release(codes);
    replace(rows, indexes).release();
    replace(kept, different).release();
    Ok(())
}

impl RepeatedTexts {
    /// No texts. Takes no memory.
    pub fn new(alloc: Global) -> RepeatedTexts
        ensures { result ≡ [] }
    {
        RepeatedTexts {
            alloc,
            kept: FlatTexts::new(alloc),
            rows: FlatNumbers::new(alloc),
            recent: [0; SLOTS],
            met: nothing_met(),
            most: MANY,
        }
    }

    /// How many texts there are.
    pub fn len(&self) -> usize
        ensures { result ≡ length self.now }
    {
        self.rows.len()
    }

    /// The text of a row, from 0.
    pub fn get(&self, row: usize) -> &[u8]
        requires { row < length self.now }
        ensures { slice_get self.now row ≡ Some result.now }
    {
        self.kept.get(index_at(&self.rows, row))
    }

    /// The texts that are kept, some of them equal, and for each text the position of an equal one
    /// among them.
    pub fn parts(&self) -> (&FlatTexts, &FlatNumbers)
        ensures texts { texts_at_indexes result.0.now (indexes_in result.1.now) ≡ self.now }
        ensures repeated { AreRepeated result.0.now (indexes_in result.1.now) }
    {
        (&self.kept, &self.rows)
    }

    /// Puts a text at the end, or changes nothing if memory is refused.
    #[inline(always)]
    pub fn push(&mut self, text: &[u8]) -> Result<(), AllocError>
        ensures ok { OnOk result (self.new ≡ self.old ++ text.now ∷ []) }
        ensures err { OnErr result (self.new ≡ self.old) }
    {
        self.push_front(text, text.len())
    }

    /// Puts the first `count` bytes of a text at the end, or changes nothing where memory is refused.
    /// Where the text has 16 bytes a short one is compared at once with one that is remembered.
    #[inline(always)]
    pub fn push_front(&mut self, text: &[u8], count: usize) -> Result<(), AllocError>
        requires { count ≤ length text.now }
        ensures ok { OnOk result (self.new ≡ self.old ++ take count text.now ∷ []) }
        ensures err { OnErr result (self.new ≡ self.old) }
    {
        match find_met(&self.met, text, count) {
            Some(index) => push_index(&mut self.rows, index),
            None => self.push_other(&text[..count]),
        }
    }

    /// Lets the texts go, as `release` does.
    pub fn release(self) {
        let Self {
            alloc: _alloc,
            kept,
            rows,
            recent: _recent,
            met: _met,
            most: _most,
        } = self;
        kept.release();
        rows.release();
    }

    /// Puts a text at the end that is not remembered by value, or changes nothing if memory is
    /// refused. Apart from `push`, which stays short so.
    #[cold]
    fn push_other(&mut self, text: &[u8]) -> Result<(), AllocError>
        ensures ok { OnOk result (self.new ≡ self.old ++ text.now ∷ []) }
        ensures err { OnErr result (self.new ≡ self.old) }
    {
        match recent_index(&self.recent, &self.kept, text) {
            Some(index) => {
                remember(&mut self.met, text, index);
                push_index(&mut self.rows, index)
            }
            None => self.push_new(text),
        }
    }

    /// Puts a text at the end that equals none of those that were put lately, or changes nothing
    /// if memory is refused.
    fn push_new(&mut self, text: &[u8]) -> Result<(), AllocError>
        ensures ok { OnOk result (self.new ≡ self.old ++ text.now ∷ []) }
        ensures err { OnErr result (self.new ≡ self.old) }
    {
        if self.kept.len() >= self.most {
            self.compact()?;
        }
        self.recent[slot_of(text)] = self.kept.len();
        keep(&mut self.kept, &mut self.rows, text)
    }

    /// Keeps only one of equal texts, if many may repeat, or changes nothing if memory is refused.
    ///
    /// After that at least twice as many more texts are kept as remain now, and as a quarter of the
    /// rows, before it is done again. Each text that is kept thus pays for the sort of one and a
    /// half texts and for the new positions of four rows. If few repeat, they are only marked, and as
    /// many more of them are kept; each pays for two marks. No choice of texts takes more than n
    /// log n.
    fn compact(&mut self) -> Result<(), AllocError>
        ensures { self.new ≡ self.old }
    {
        if may_repeat(self.alloc, &self.kept)? {
            self.met = nothing_met();
            keep_different(self.alloc, &mut self.kept, &mut self.rows)?;
            let left = self.kept.len();
            let more = left.saturating_add(left).max(self.rows.len() / 4);
            self.most = MANY.max(left.saturating_add(more));
        } else {
            let left = self.kept.len();
            self.most = MANY.max(left.saturating_add(left));
        }
        Ok(())
    }
}
