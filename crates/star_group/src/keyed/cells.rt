// The aggregates of rows in flat storage.

ghost use Rattle.std.specs.Prelude.{◌≡◌, ◌≤◌, ◌<◌, ◌*◌, ℤ, List, Option, [], length, slice_index_or, slice_set};
ghost use Rattle.star_program.specs.Rows.{cut};
ghost use Rattle.star_group.specs.Private.Merged.{IsMerged, MergeStays};

use super::merge::merge_into;
use crate::cell::Held;
use star_schema::Aggregate;

// A row merged into that of a number.
pub(crate) fn merge_at(
    cells: &mut [Held],
    count: usize,
    number: usize,
    aggregates: &[Aggregate],
    more: &[Held],
)
    requires within { number < count }
    requires long { length cells.old ≡ count * length aggregates.now }
    requires wide { length aggregates.now ≤ length more.now }
    requires stays { MergeStays aggregates.now
        (slice_index_or (cut (length aggregates.now) count cells.old) number []) more.now }
    ensures rows { (row : List (Option ℤ)) × IsMerged aggregates.now
        (slice_index_or (cut (length aggregates.now) count cells.old) number []) more.now row
        × (cut (length aggregates.now) count cells.new
        ≡ slice_set (cut (length aggregates.now) count cells.old) number row) }
    ensures len { length cells.new ≡ length cells.old }
{
    let start = number * aggregates.len();
    let end = start + aggregates.len();
    merge_into(aggregates, &mut cells[start..end], more);
}
