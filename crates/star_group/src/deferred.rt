// A store that keeps only the rows of all keys up to date, and makes the others at the end.

ghost use Rattle.std.specs.Prelude.{◌≡◌, ◌≤◌, vec_len};
ghost use Rattle.star_group.specs.{Base.HasBaseWithRoom, Entries.entries_of};

pub(crate) mod coarser;
mod store;

use crate::cell::Total;
use crate::keyed::KeyedRows;
use star_schema::{Aggregate, Shape};
use std::alloc::Global;

/// The rows of all keys and the row of all puts, each up to date after every put. The rows of a
/// cube or a rollup in which keys are ALL are made in the end, each from those in which one key fewer
/// is. The keys are in a trie of their digits, so that no keys are slow to find.
#[derive(Drop)]
pub struct DeferredStore {
    pub(crate) alloc: Global,
    pub(crate) shape: Shape,
    pub(crate) key_count: usize,
    pub(crate) aggregates: Vec<Aggregate>,
    pub(crate) rows: KeyedRows,
    pub(crate) total: Total,
    ghost wide: { key_count ≤ rows.listed.width },
    ghost aggregate_count: { rows.listed.aggregate_count ≡ vec_len aggregates },
    ghost room: { HasBaseWithRoom
        (record { shape = shape; count = key_count; aggregates = aggregates.items })
        (entries_of rows) total },
}
