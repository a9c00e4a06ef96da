// Array aggregation: groups whose keys lie in known ranges have dense group ids.

ghost use Rattle.std.specs.Prelude.{◌≡◌, ◌≤◌, ◌*◌, ◌^◌, length};
ghost use Rattle.star_group.specs.{ById.IsArrayContentWithRoom, Entries.entries_of, Ids.id_count};

mod cells;
mod filling;
mod ids;
mod listing;
mod making;
mod span;
mod store;

use crate::deferred::DeferredStore;
use span::Span;

/// Array aggregation with dense group ids. If each key lies in a range that is known beforehand, the
/// row's group id is its number among the rows of all such keys. Its cells are found by the id: one for
/// each aggregate, and whether there was a put. All other puts go to an overflow store, which is
/// deferred. The total, and the rows of a cube or a rollup in which keys are ALL, are made on request.
#[derive(Drop)]
pub struct ArrayStore {
    rest: DeferredStore,
    spans: Vec<Span>,
    seen: Vec<bool>,
    cells: Vec<i128>,
    ghost keys: { length spans.items ≡ rest.key_count },
    ghost few: { id_count spans.items ≤ 2 ^ 28 },
    ghost marks: { length seen.items ≡ id_count spans.items },
    ghost long: { length cells.items ≡ length rest.aggregates.items * length seen.items },
    ghost room: { IsArrayContentWithRoom
        (record { shape = rest.shape; count = rest.key_count; aggregates = rest.aggregates.items })
        spans.items seen.items cells.items (entries_of rest.rows) rest.total },
}
