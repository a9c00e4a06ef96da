// The ends of texts that are one after another.

ghost use Rattle.std.specs.Prelude.{◌≡◌, ◌<◌, ◌≤◌, ◌+◌, ◌-◌, ◌*◌, ◌/◌, ◌^◌, ◌++◌, ◌∷◌, ◌⊎◌, [], ℕ, All, IfOk, OnErr, OnOk, Some, length, slice_get, slice_index, take};

use crate::numbers::{FlatNumbers, index_at, push_index, two_indexes};
use crate::pages::release;
use std::alloc::{AllocError, Global};
use std::marker::Model;

/// How many texts are counted from one start.
const BLOCK: usize = 16;

/// The ends of texts, which a contract sees as a list.
///
/// Of each 16 texts it keeps the start of the first, and for each how far after that it ends.
/// Therefore an end takes a byte and a half if texts are short.
#[derive(Drop)]
pub(crate) struct Ends {
    starts: Vec<usize>,
    offsets: FlatNumbers,
}

impl Model for Ends {
    ghost use Rattle.std.specs.Prelude.{List, ℕ, All, ◌<◌, ◌≤◌, ◌*◌, ◌^◌, length};
    ghost use Rattle.star_flat.specs.{Private.Ends.ends_of, Repeated.indexes_in};

    ghost Value = { List ℕ };

    ghost view = { λ ends. ends_of ends.starts.items (indexes_in ends.offsets) };

    ghost invariant = { λ ends. (length ends.offsets ≤ length ends.starts.items * 16)
        × All (λ e. e < 2 ^ 64) (ends_of ends.starts.items (indexes_in ends.offsets)) };
}

/// The end at a position, which lies `offset` bytes after the start of its block.
#[inline(always)]
fn end_at(starts: &[usize], index: usize, offset: usize) -> usize
    requires within { index < length starts.now * 16 }
    requires fits { slice_index starts.now (index / 16) + offset < 2 ^ 64 }
    ensures { result ≡ slice_index starts.now (index / 16) + offset }
{
    starts[index / BLOCK] + offset
}

/// Puts the start of a block after the first `block` others. No more of them stay.
fn begin(starts: &mut Vec<usize>, block: usize, start: usize) -> Result<(), AllocError>
    ensures ok { OnOk result (starts.new.items ≡ take block starts.old.items ++ start ∷ []) }
    ensures err { OnErr result (starts.new.items ≡ take block starts.old.items) }
{
    starts.truncate(block);
    starts.push(start)?;
    Ok(())
}

/// The origin of the end after `count` others: the start of its own text if that begins a block.
fn start_for(starts: &mut Vec<usize>, count: usize, start: usize) -> Result<usize, AllocError>
    requires { count ≤ length starts.old.items * 16 }
    ensures same { (index : ℕ) → index < count
        → slice_index starts.new.items (index / 16) ≡ slice_index starts.old.items (index / 16) }
    ensures room { count ≤ length starts.new.items * 16 }
    ensures more { IfOk result (λ from. count < length starts.new.items * 16) }
    ensures from { IfOk result (λ from. slice_index starts.new.items (count / 16) ≡ from) }
    ensures kept { IfOk result (λ from. (from ≡ start)
        ⊎ ((0 < count) × (slice_index starts.old.items ((count - 1) / 16) ≡ from))) }
{
    if count % BLOCK == 0 {
        begin(starts, count / BLOCK, start)?;
        Ok(start)
    } else {
        Ok(starts[count / BLOCK])
    }
}

impl Ends {
    /// No ends. Takes no memory.
    pub(crate) fn new(alloc: Global) -> Ends
        ensures { result ≡ [] }
    {
        Ends {
            starts: Vec::new(alloc),
            offsets: FlatNumbers::new(alloc),
        }
    }

    /// How many ends there are.
    pub(crate) fn len(&self) -> usize
        ensures { result ≡ length self.now }
    {
        self.offsets.len()
    }

    /// The end at a position, from 0.
    pub(crate) fn get(&self, index: usize) -> usize
        requires { index < length self.now }
        ensures { slice_get self.now index ≡ Some result }
    {
        end_at(
            self.starts.as_slice(),
            index,
            index_at(&self.offsets, index),
        )
    }

    /// The end before the one at a position, which isn't the first, and the one there.
    #[inline(always)]
    pub(crate) fn bounds_at(&self, index: usize) -> (usize, usize)
        requires later { 0 < index }
        requires within { index < length self.now }
        ensures start { slice_get self.now (index - 1) ≡ Some result.0 }
        ensures end { slice_get self.now index ≡ Some result.1 }
    {
        let (before, here) = two_indexes(&self.offsets, index - 1);
        let start = end_at(self.starts.as_slice(), index - 1, before);
        let end = end_at(self.starts.as_slice(), index, here);
        (start, end)
    }

    /// Puts the end of a text that begins at `start` after the others, which are not greater, or
    /// changes nothing if memory is refused.
    pub(crate) fn push(&mut self, start: usize, end: usize) -> Result<(), AllocError>
        requires start { start ≤ end }
        requires after { All (λ e. e ≤ end) self.old }
        ensures ok { OnOk result (self.new ≡ self.old ++ end ∷ []) }
        ensures err { OnErr result (self.new ≡ self.old) }
    {
        let count = self.offsets.len();
        let from = start_for(&mut self.starts, count, start)?;
        push_index(&mut self.offsets, end - from)?;
        Ok(())
    }

    /// Lets the ends go, as `release` does.
    pub(crate) fn release(self) {
        release(self.starts);
        self.offsets.release();
    }
}
