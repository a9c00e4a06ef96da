// A store that keeps every row up to date.

ghost use Rattle.std.specs.Prelude.{◌≡◌, ◌≤◌, vec_len};

mod row_keys;
mod store;

use crate::cell::Total;
use crate::keyed::KeyedRows;
use crate::keyed::key::OrderedKey;
use star_schema::{Aggregate, Shape};

/// The rows of a group and the row of all puts, each up to date after every put. The keys are in
/// a trie of their digits, so that no keys are slow to find.
///
/// A put changes the row of all puts, which is kept apart, and in a plain group the row of its
/// keys, in a cube that of each subset of them and in a rollup that of each prefix.
#[derive(Drop)]
pub struct EagerStore {
    shape: Shape,
    key_count: usize,
    aggregates: Vec<Aggregate>,
    rows: KeyedRows,
    total: Total,
    // The keys of a put's rows.
    row_keys: Vec<OrderedKey>,
    ghost wide: { key_count ≤ rows.listed.width },
    ghost aggregate_count: { rows.listed.aggregate_count ≡ vec_len aggregates },
}
