// The rows of sparse keys.

ghost use Rattle.std.specs.{Prelude.{◌≡◌, ◌<◌, ◌^◌, MatchResult, Some, length, position}, List.IsDistinct, Option.option_map, Ordering.int_eq};
ghost use Rattle.star_common.specs.Memory.{UnlessMemory};
ghost use Rattle.star_catalogue.specs.Load.{first_repeat};

use crate::fault::LoadFault;
use crate::seeded::Seeded;
use indexmap::IndexSet;
use star_schema::TableId;
use std::alloc::Global;

/// Indexes the keys of a dimension, each at the position of its row, or returns the first record
/// whose key an earlier one has.
fn indexed(alloc: Global, table: TableId, keys: &[i64]) -> Result<IndexSet<i64, Seeded>, LoadFault>
    requires { length keys.now < 2 ^ 32 }
    ensures { MatchResult result (λ rows. (rows.keys ≡ keys.now) × IsDistinct int_eq keys.now)
        (λ fault. UnlessMemory LoadFault.OutOfMemory fault
        (option_map (LoadFault.DuplicateKey table) (first_repeat int_eq keys.now) ≡ Some fault)) }
{
    let mut rows = IndexSet::with_capacity_and_hasher(alloc, keys.len(), Seeded::of_keys(keys))?;
    for (index, key) in keys.iter().enumerate() {
        let (_, is_new) = rows.insert_full(*key)?;
        if !is_new {
            return Err(LoadFault::DuplicateKey {
                table,
                at_row: index as u32 + 1,
            });
        }
    }
    Ok(rows)
}

/// The rows of distinct keys, found by a hash. A contract sees the keys in the order of their rows.
#[derive(Drop)]
pub struct FarKeys {
    pub(crate) rows: IndexSet<i64, Seeded>,
    ghost few: { length rows.keys < 2 ^ 32 },
}

impl FarKeys {
    /// Indexes the keys of a dimension, or returns the first record whose key an earlier one has.
    pub(crate) fn build(alloc: Global, table: TableId, keys: &[i64]) -> Result<FarKeys, LoadFault>
        requires { length keys.now < 2 ^ 32 }
        ensures { MatchResult result
            (λ far. (far.rows.keys ≡ keys.now) × IsDistinct int_eq keys.now)
            (λ fault. UnlessMemory LoadFault.OutOfMemory fault
            (option_map (LoadFault.DuplicateKey table) (first_repeat int_eq keys.now)
            ≡ Some fault)) }
    {
        let rows = indexed(alloc, table, keys)?;
        Ok(FarKeys { rows })
    }

    /// Finds the row with a key, if there is one.
    #[inline(never)]
    pub(crate) fn find(&self, key: i64) -> Option<u32>
        ensures { result ≡ position (int_eq key) self.now.rows.keys }
    {
        let row = self.rows.get_index_of(&key)?;
        Some(row as u32)
    }
}
