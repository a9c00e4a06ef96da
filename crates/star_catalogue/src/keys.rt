// The keys of tables, which are distinct.

ghost use Rattle.std.specs.{Prelude.{◌≡◌, ◌≢◌, ◌↔◌, ◌<◌, ◌^◌, ℤ, AllPairs, IfOk, IsTrue, MatchResult, Some, length, slice_get}, List.{IsDistinct, zip}, BTreeMap.get, Option.option_map, declared.cmp.Ordering.TheVariants.Less};
ghost use Rattle.star_common.specs.Memory.{UnlessMemory};
ghost use Rattle.star_schema.specs.Loadable.{HasDistinctKeys, keys_of};
ghost use Rattle.star_catalogue.specs.{Private.Indexed.lent_row, Private.Keys.AreKept, Private.Keys.pair_cmp, Private.Keys.row_in, Private.Keys.same_pair, Private.Indexes.AreIndexes, Load.first_repeat, Load.repeated_key_fault};

use crate::dimension::{DimensionKeys, LentKeys};
use crate::fault::LoadFault;
use star_flat::{FlatNumbers, release};
use star_reader::RawTable;
use star_schema::{Key, TableId, key_of, position_of};
use std::alloc::{AllocError, Global};
use std::collections::BTreeMap;

/// Returns the index of each key of a table, from 0, or the first record whose key an earlier one
/// has. It is a tree; no keys are slow to find.
fn indexes_of<K: Copy + Ord + Drop>(
    alloc: Global,
    table: TableId,
    keys: &[K],
) -> Result<BTreeMap<K, u32>, LoadFault>
    requires { length keys.now < 2 ^ 32 }
    ensures { MatchResult result
        (λ indexes. AreIndexes K.eq (get K.cmp indexes) keys.now × IsDistinct K.eq keys.now)
        (λ fault. UnlessMemory LoadFault.OutOfMemory fault
        (option_map (LoadFault.DuplicateKey table) (first_repeat K.eq keys.now) ≡ Some fault)) }
{
    let mut indexes = BTreeMap::new(alloc);
    for (index, key) in keys.iter().enumerate() {
        let before = indexes.insert(*key, index as u32)?;
        if before.is_some() {
            return Err(LoadFault::DuplicateKey {
                table,
                at_row: index as u32 + 1,
            });
        }
    }
    Ok(indexes)
}

/// The rows of a table by key.
pub enum KeyIndex {
    /// Keys of one number.
    Dimension(DimensionKeys),
    /// Keys of two numbers, which are never looked up.
    Pairs,
}

impl Drop for KeyIndex {
    fn drop(self) {
        match self {
            Self::Dimension(_held) => {}
            Self::Pairs => {}
        }
    }
}

impl KeyIndex {
    /// Builds the index of a table's keys, or returns the first record whose key an earlier one
    /// has.
    pub(crate) fn build(alloc: Global, raw: &RawTable) -> Result<KeyIndex, LoadFault>
        requires { length raw.now.rows < 2 ^ 32 }
        ensures { MatchResult result (λ index. AreKept index (keys_of raw.now.table raw.now.rows)
            × HasDistinctKeys raw.now.table raw.now.rows)
            (λ fault. UnlessMemory LoadFault.OutOfMemory fault
            (repeated_key_fault raw.now.table raw.now.rows ≡ Some fault)) }
    {
        let table = raw.table();
        match key_of(table) {
            Key::One(column) => {
                let keys = wide(alloc, raw.numbers(position_of(column)))?;
                let index = DimensionKeys::build(alloc, table, keys.as_slice())?;
                release(keys);
                Ok(KeyIndex::Dimension(index))
            }
            Key::Two(first, second) => {
                let firsts = raw.numbers(position_of(first));
                let seconds = raw.numbers(position_of(second));
                check_pairs(alloc, table, firsts, seconds)?;
                Ok(KeyIndex::Pairs)
            }
        }
    }

    /// Borrows the rows by key.
    pub(crate) fn lend(&self) -> LentKeys<'_>
        ensures { (key : ℤ) → lent_row result key ≡ row_in self.now key }
    {
        match self {
            KeyIndex::Dimension(keys) => keys.lend(),
            KeyIndex::Pairs => LentKeys::Nowhere,
        }
    }
}

/// Returns the pair of numbers at an index.
fn pair_at(firsts: &FlatNumbers, seconds: &FlatNumbers, index: usize) -> (i64, i64)
    requires first { index < length firsts.now }
    requires second { index < length seconds.now }
    ensures { slice_get (zip firsts.now seconds.now) index ≡ Some result }
{
    (firsts.get(index), seconds.get(index))
}

/// Tests whether a pair is less than another.
fn rises(before: (i64, i64), after: (i64, i64)) -> bool
    ensures { IsTrue result ↔ (pair_cmp before after ≡ Less) }
{
    before.cmp(&after).is_lt()
}

/// Tests whether each pair of numbers is greater than the pair before.
// In a function of its own it takes fewer instructions.
#[inline(never)]
fn is_rising(firsts: &FlatNumbers, seconds: &FlatNumbers) -> bool
    requires { length firsts.now ≡ length seconds.now }
    ensures { IsTrue result → AllPairs (λ a b. a ≢ b) (zip firsts.now seconds.now) }
{
    let mut before = (i64::MIN, i64::MIN);
    for index in 0..firsts.len() {
        let here = pair_at(firsts, seconds, index);
        if !rises(before, here) {
            return false;
        }
        before = here;
    }
    true
}

/// Returns these numbers in pairs.
fn pairs_of(
    alloc: Global,
    firsts: &FlatNumbers,
    seconds: &FlatNumbers,
) -> Result<Vec<(i64, i64)>, AllocError>
    requires { length firsts.now ≡ length seconds.now }
    ensures { IfOk result (λ pairs. pairs.items ≡ zip firsts.now seconds.now) }
{
    let mut pairs = Vec::with_capacity(alloc, firsts.len())?;
    for index in 0..firsts.len() {
        pairs.push_reserved(pair_at(firsts, seconds, index));
    }
    Ok(pairs)
}

/// Returns these numbers in 64 bits each.
fn wide(alloc: Global, numbers: &FlatNumbers) -> Result<Vec<i64>, AllocError>
    ensures { IfOk result (λ wide. wide.items ≡ numbers.now) }
{
    let mut wide = Vec::with_capacity(alloc, numbers.len())?;
    for index in 0..numbers.len() {
        wide.push_reserved(numbers.get(index));
    }
    Ok(wide)
}

/// Checks that the pairs of numbers are distinct. Sorted pairs need no memory.
fn check_pairs(
    alloc: Global,
    table: TableId,
    firsts: &FlatNumbers,
    seconds: &FlatNumbers,
) -> Result<(), LoadFault>
    requires len { length firsts.now ≡ length seconds.now }
    requires few { length firsts.now < 2 ^ 32 }
    ensures { MatchResult result (λ _. AllPairs (λ a b. a ≢ b) (zip firsts.now seconds.now))
        (λ fault. UnlessMemory LoadFault.OutOfMemory fault
        (option_map (LoadFault.DuplicateKey table)
        (first_repeat same_pair (zip firsts.now seconds.now)) ≡ Some fault)) }
{
    if is_rising(firsts, seconds) {
        return Ok(());
    }
    let pairs = pairs_of(alloc, firsts, seconds)?;
    indexes_of(alloc, table, pairs.as_slice())?;
    Ok(())
}
