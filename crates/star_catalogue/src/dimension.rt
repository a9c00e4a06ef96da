// The keys of a dimension, each with its row.

ghost use Rattle.std.specs.{Prelude.{◌≡◌, ◌<◌, ◌^◌, ◌-ℤ◌, ◌≤ℤ◌, ℤ, All, IfSome, MatchResult, Some, length}, List.IsDistinct, Int.RustNames.unsigned_abs, Option.option_map, Ordering.int_eq};
ghost use Rattle.star_common.specs.Memory.{UnlessMemory};
ghost use Rattle.star_catalogue.specs.{Private.Indexed.lent_row, Private.Indexed.row_of_key, Private.Indexes.AreIndexes, Private.Indexes.dense_at, Private.Indexes.row_of_slot, Load.first_repeat};

use crate::far_keys::FarKeys;
use crate::fault::LoadFault;
use star_schema::TableId;
use std::alloc::Global;

/// The entry of a number that is not a key: one more than any row number.
const NO_ROW: u32 = u32::MAX;

/// An array of rows may have this many entries for each key, and as many more, between the least
/// and the greatest key.
const NUMBERS_FOR_EACH: u64 = 4;

const NUMBERS_FREE: u64 = 131_072;

fn least_of(keys: &[i64]) -> Option<i64>
    ensures { IfSome result (λ least. All (λ key. least ≤ℤ key) keys.now) }
{
    keys.iter().copied().min()
}

fn greatest_of(keys: &[i64]) -> Option<i64>
    ensures { IfSome result (λ greatest. All (λ key. key ≤ℤ greatest) keys.now) }
{
    keys.iter().copied().max()
}

/// Returns the least key, and the number of entries from it to the greatest, if these are few
/// compared with the number of `keys`.
fn dense_range(keys: &[i64]) -> Option<(i64, usize)>
    requires { length keys.now < 2 ^ 32 }
    ensures least { IfSome result (λ range. All (λ key. range.0 ≤ℤ key) keys.now) }
    ensures within { IfSome result
        (λ range. All (λ key. unsigned_abs (key -ℤ range.0) < range.1) keys.now) }
{
    let (Some(least), Some(greatest)) = (least_of(keys), greatest_of(keys)) else {
        return None;
    };
    let span = greatest.abs_diff(least);
    if span < keys.len() as u64 * NUMBERS_FOR_EACH + NUMBERS_FREE {
        Some((least, span as usize + 1))
    } else {
        None
    }
}

/// Returns, for each of the `span` numbers from the least key on, its index among the keys, or the
/// first record whose key an earlier one has.
fn rows_from(
    alloc: Global,
    table: TableId,
    keys: &[i64],
    least: i64,
    span: usize,
) -> Result<Vec<u32>, LoadFault>
    requires few { length keys.now < 2 ^ 32 }
    requires least { All (λ key. least ≤ℤ key) keys.now }
    requires within { All (λ key. unsigned_abs (key -ℤ least) < span) keys.now }
    ensures { MatchResult result (λ rows. AreIndexes int_eq (dense_at least rows.items) keys.now
        × IsDistinct int_eq keys.now)
        (λ fault. UnlessMemory LoadFault.OutOfMemory fault
        (option_map (LoadFault.DuplicateKey table) (first_repeat int_eq keys.now) ≡ Some fault)) }
{
    let mut rows = vec![in alloc; NO_ROW; span]?;
    for (index, key) in keys.iter().enumerate() {
        let slot = key.abs_diff(least) as usize;
        if rows[slot] != NO_ROW {
            return Err(LoadFault::DuplicateKey {
                table,
                at_row: index as u32 + 1,
            });
        }
        rows[slot] = index as u32;
    }
    Ok(rows)
}

/// Finds the row with a key, if there is one, in the array that begins with the least key.
fn find_from(least: i64, rows: &[u32], key: i64) -> Option<u32>
    ensures { result ≡ dense_at least rows.now key }
{
    if key < least {
        return None;
    }
    match rows.get(key.abs_diff(least) as usize) {
        Some(row) => row_in_slot(*row),
        None => None,
    }
}

fn row_in_slot(row: u32) -> Option<u32>
    ensures { result ≡ row_of_slot (Some row) }
{
    if row == NO_ROW { None } else { Some(row) }
}

// A load looks up five foreign keys for each line in it. A hash for each would cost more than the
// rest of the look-up.
/// An array of rows for dense keys: for each number from the least key on the row with that key, or
/// `NO_ROW`.
#[derive(Drop)]
pub struct NearKeys {
    least: i64,
    rows: Vec<u32>,
}

/// The rows of a dimension by key. Dense keys need no hash, which would take more memory than the
/// rest of a table of short texts.
#[derive(Drop)]
pub enum DimensionKeys {
    Near(NearKeys),
    Far(FarKeys),
}

impl DimensionKeys {
    /// Builds the index of a dimension's keys, or returns the first record whose key an earlier one
    /// has.
    pub(crate) fn build(
        alloc: Global,
        table: TableId,
        keys: &[i64],
    ) -> Result<DimensionKeys, LoadFault>
        requires { length keys.now < 2 ^ 32 }
        ensures { MatchResult result
            (λ index. AreIndexes int_eq (row_of_key index) keys.now × IsDistinct int_eq keys.now)
            (λ fault. UnlessMemory LoadFault.OutOfMemory fault
            (option_map (LoadFault.DuplicateKey table) (first_repeat int_eq keys.now)
            ≡ Some fault)) }
    {
        match dense_range(keys) {
            Some((least, span)) => {
                let rows = rows_from(alloc, table, keys, least, span)?;
                Ok(DimensionKeys::Near(NearKeys { least, rows }))
            }
            None => {
                let far = FarKeys::build(alloc, table, keys)?;
                Ok(DimensionKeys::Far(far))
            }
        }
    }

    /// Borrows the rows by key.
    pub(crate) fn lend(&self) -> LentKeys<'_>
        ensures { (key : ℤ) → lent_row result key ≡ row_of_key self.now key }
    {
        match self {
            DimensionKeys::Near(near) => LentKeys::Dense(near.least, near.rows.as_slice()),
            DimensionKeys::Far(far) => LentKeys::Hashed(far),
        }
    }
}

/// The rows of a table by key, borrowed. A loop over foreign keys takes them by value; it then
/// tests only once which kind of index this is.
#[derive(Clone, Copy)]
pub(crate) enum LentKeys<'a> {
    Dense(i64, &'a [u32]),
    Hashed(&'a FarKeys),
    Nowhere,
}

impl<'a> LentKeys<'a> {
    /// Finds the row with a key, if there is one. The array's look-up is inlined into the loops
    /// over foreign keys, the hash's is not.
    #[inline(always)]
    pub(crate) fn find(self, key: i64) -> Option<u32>
        ensures { result ≡ lent_row self.entry key }
    {
        match self {
            LentKeys::Dense(least, rows) => find_from(least, rows, key),
            LentKeys::Hashed(far) => far.find(key),
            LentKeys::Nowhere => None,
        }
    }
}
