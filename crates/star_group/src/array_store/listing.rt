// The rows of all keys: those of the overflow store, and those of the group ids.

ghost use Rattle.std.specs.Prelude.{◌≡◌, ◌≤◌, ◌*◌, OnOk, length};
ghost use Rattle.star_group.specs.{Private.Coarser.AreOnce, Entries.listed_entries, Private.ArrayPut.IsListed};
ghost use Rattle.star_group.specs.Ids as spec;

use super::cells::row_at;
use super::filling::key_at;
use super::span::Span;
use crate::keyed::ListedRows;
use star_schema::Aggregate;
use std::alloc::AllocError;

// The row of each group id that has puts. No other row has its keys, so nothing is looked up.
pub(super) fn push_ids(
    rows: &mut ListedRows,
    spans: &[Span],
    seen: &[bool],
    cells: &[i128],
    aggregates: &[Aggregate],
) -> Result<(), AllocError>
    requires keys { length spans.now ≤ rows.old.width }
    requires few { length aggregates.now ≤ 8 }
    requires aggregate_count { length aggregates.now ≡ rows.old.aggregate_count }
    requires ids { length seen.now ≡ spec.id_count spans.now }
    requires long { length cells.now ≡ length aggregates.now * length seen.now }
    ensures rows { OnOk result (AreOnce (listed_entries rows.old)
        → IsListed aggregates.now spans.now seen.now cells.now
        (listed_entries rows.old) (listed_entries rows.new)) }
    ensures width { OnOk result (rows.new.width ≡ rows.old.width) }
    ensures aggregate_count { OnOk result (rows.new.aggregate_count ≡ rows.old.aggregate_count) }
{
    let (ids, aggregate_count) = (seen.len(), aggregates.len());
    for id in 0..seen.len() {
        if seen[id] {
            let key = key_at(spans, id);
            let row = row_at(cells, ids, aggregate_count, id);
            rows.push(&key, &row[..aggregate_count])?;
        }
    }
    Ok(())
}

// The number of group ids that have puts.
pub(super) fn count_seen(seen: &[bool]) -> usize {
    seen.iter().filter(|is_seen| **is_seen).count()
}
