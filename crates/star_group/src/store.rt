// What a store of groups is.

ghost use Rattle.std.specs.Prelude.{◌≡◌, ◌≤◌, ◌<◌, ℕ, List, ◌∷◌, [], length, true, false, OnOk, OnErr, IfErr, IfOk};
ghost use Rattle.star_common.specs.Memory.{UnlessMemory};
ghost use Rattle.star_group.specs.{Batches.HasRoomForRows, Batches.IsPutBatch, Batches.puts_after, Batches.put_in, Stores.Group, Stores.HasRoom, Stores.group_declared, StoreRows.AreRows};
ghost use Rattle.star_program.specs.Puts.{Update, overflows, total_over};

use crate::batch::PutBatch;
use crate::rows::PutFault;
use crate::{GroupRows, KeyValue};
use star_interval::Interval;
use star_program::GroupDecl;
use star_schema::Aggregate;
use std::alloc::{AllocError, Global};

/// The rows of a group, made by puts.
pub trait GroupStore: Drop {
    // Which group the store is of.
    ghost group: { Self → Group };

    // The store has the content of these puts, the newest first.
    ghost has: { Self → List Update → Type 0 };

    /// A store of no puts for a group of at most 6 keys and 8 aggregates.
    fn new(alloc: Global, declared: &GroupDecl) -> Result<Self, AllocError>
        requires few_keys { length declared.now.keys ≤ 6 }
        requires few { length declared.now.aggregates ≤ 8 }
        ensures group { IfOk result (λ store. group store ≡ group_declared declared.now) }
        ensures empty { IfOk result (λ store. has store []) };

    /// A store of no puts, as `new` makes it, if the keys are expected in `_ranges`: a range of
    /// numbers, or of codes of texts, for each key in the order of the keys. A store may be faster for
    /// keys that lie in them; all keys serve, whether or not they do, and so do ranges of another
    /// number of keys.
    fn with_ranges(
        alloc: Global,
        declared: &GroupDecl,
        _ranges: &[Interval],
    ) -> Result<Self, AllocError>
        requires few_keys { length declared.now.keys ≤ 6 }
        requires few { length declared.now.aggregates ≤ 8 }
        ensures group { IfOk result (λ store. group store ≡ group_declared declared.now) }
        ensures empty { IfOk result (λ store. has store []) }
    {
        Self::new(alloc, declared)
    }

    /// One more put: a value for each key, and a number for each aggregate; that for a `Count` does
    /// not matter. Its condition: with it the positive sums by key list add up within 128 bits, and
    /// so do the negative ones, and there are fewer puts than 2^63 if they are counted. If
    /// memory is refused the content is as it was.
    fn put(&mut self, keys: &[KeyValue], values: &[i64]) -> Result<(), AllocError>
        requires keys { length keys.now ≡ (group self.old).count }
        requires values { length values.now ≡ length (group self.old).aggregates }
        requires room { (puts : List Update) × has self.old puts
            × HasRoom (group self.old) (record { keys = keys.now; values = values.now } ∷ puts) }
        ensures ok { OnOk result ((puts : List Update) → has self.old puts
            → has self.new (record { keys = keys.now; values = values.now } ∷ puts)) }
        ensures refused { OnErr result ((puts : List Update) → has self.old puts → has self.new puts) }
        ensures group { group self.new ≡ group self.old };

    /// Puts the rows of a batch together, as `put_batch` puts them one after another: whether it did.
    /// A store may leave a batch to `put_batch`, and then nothing changes. Takes no memory.
    fn put_together(&mut self, _batch: &PutBatch<'_>) -> bool
        requires declared { group_declared _batch.now.declared.now ≡ group self.old }
        requires batch { IsPutBatch _batch.now }
        requires room { (puts : List Update) × has self.old puts
            × HasRoomForRows (group self.old) (put_in _batch.now) puts _batch.now.rows }
        ensures all { result ≡ true → (puts : List Update) → has self.old puts
            → has self.new (puts_after (put_in _batch.now) puts _batch.now.rows) }
        ensures none { result ≡ false → (puts : List Update) → has self.old puts
            → has self.new puts }
        ensures group { group self.new ≡ group self.old }
    {
        false
    }

    // The condition is asked row by row: that there is room for all rows together gives no room for
    // the first, since positive sums may be greater before negative numbers come.
    /// The puts of some rows, one after another in order. Its condition is that of each of these
    /// puts. If memory is refused the content is that with the puts of the first rows, of fewer
    /// than all.
    fn put_batch(&mut self, batch: &PutBatch<'_>) -> Result<(), AllocError>
        requires declared { group_declared batch.now.declared.now ≡ group self.old }
        requires batch { IsPutBatch batch.now }
        requires room { (puts : List Update) × has self.old puts
            × HasRoomForRows (group self.old) (put_in batch.now) puts batch.now.rows }
        ensures ok { OnOk result ((puts : List Update) → has self.old puts
            → has self.new (puts_after (put_in batch.now) puts batch.now.rows)) }
        ensures refused { OnErr result ((puts : List Update) → has self.old puts
            → (rows : ℕ) × (rows < batch.now.rows)
            × has self.new (puts_after (put_in batch.now) puts rows)) }
        ensures group { group self.new ≡ group self.old }
    {
        if self.put_together(batch) {
            return Ok(());
        }
        for row in 0..batch.rows {
            let keys = batch.keys_in(row);
            let numbers = batch.numbers_in(row);
            self.put(
                &keys[..batch.keys.len()],
                &numbers[..batch.declared.aggregates.as_slice().len()],
            )?;
        }
        Ok(())
    }

    /// An aggregate, by its number from 0, over all puts; `None` is NULL. Takes no memory.
    fn total(&self, aggregate: usize) -> Option<i128>
        requires { aggregate < length (group self.now).aggregates }
        ensures { (puts : List Update) → has self.now puts
            → result ≡ total_over (group self.now).aggregates aggregate puts };

    /// The groups of the puts with their aggregates, each once, in any order.
    fn into_rows(self) -> Result<GroupRows, AllocError>
        ensures { IfOk result (λ rows. (puts : List Update) → has self puts
            → AreRows (group self) puts rows) };
}

/// A store that takes puts with no condition on their numbers, and refuses those that overflow.
pub trait TryPut: GroupStore {
    /// One more put: a value for each key, and a number for each aggregate; that for a `Count` does
    /// not matter. Returns Overflow exactly if with it a `Sum` over one of its groups, or over
    /// all puts, leaves 128 bits, or a `Count` leaves 64; after an error the content is as it was.
    fn try_put(&mut self, keys: &[KeyValue], values: &[i64]) -> Result<(), PutFault>
        requires keys { length keys.now ≡ (Self.group self.old).count }
        requires values { length values.now ≡ length (Self.group self.old).aggregates }
        ensures has { OnOk result ((puts : List Update) → Self.has self.old puts
            → Self.has self.new (record { keys = keys.now; values = values.now } ∷ puts)) }
        ensures stays { OnOk result ((puts : List Update) → Self.has self.old puts
            → overflows (Self.group self.old).shape (Self.group self.old).aggregates puts (record { keys = keys.now; values = values.now })
            ≡ false) }
        ensures overflow { IfErr result (λ fault. UnlessMemory PutFault.OutOfMemory fault
            ((puts : List Update) → Self.has self.old puts
            → overflows (Self.group self.old).shape (Self.group self.old).aggregates puts (record { keys = keys.now; values = values.now })
            ≡ true)) }
        ensures refused { OnErr result ((puts : List Update) → Self.has self.old puts
            → Self.has self.new puts) }
        ensures group { Self.group self.new ≡ Self.group self.old };
}

/// The aggregates of a declared group, to be kept by a store of it.
pub(crate) fn aggregates_of(
    alloc: Global,
    declared: &GroupDecl,
) -> Result<Vec<Aggregate>, AllocError>
    ensures all { IfOk result (λ aggregates. aggregates.items ≡ declared.now.aggregates) }
{
    declared
        .aggregates
        .as_slice()
        .iter()
        .copied()
        .collect(alloc)
}
