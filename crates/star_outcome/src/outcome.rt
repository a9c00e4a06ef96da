// The reported rows of a run: put in order and cut to the show lines.

ghost use Rattle.std.specs.Prelude.{◌≡◌, List, IfOk, None};
ghost use Rattle.star_program.specs.{Limits.IsWithinLimits, Puts.Update, ShowLines.shown_fault};
ghost use Rattle.star_outcome.specs.Private.Decoded.{AreReported, AreToReport};
ghost use Rattle.star_world.specs.WorldOf.{world_of};

mod ahead;
mod cells;
mod leads;
mod order;

use cells::cell_rows;
pub(crate) use cells::names;
use order::sorted_numbers;
use star_catalogue::Catalogue;
use star_group::GroupRows;
use star_program::{CellRows, Parts};
use std::alloc::{AllocError, Global};

// The rows of the reported group, in any order, as its report has them.
pub(crate) fn reported_rows(
    alloc: Global,
    catalogue: &Catalogue,
    parts: &Parts,
    rows: GroupRows,
) -> Result<CellRows, AllocError>
    requires limits { IsWithinLimits parts.now }
    requires shown { shown_fault parts.now ≡ None }
    requires rows { (updates : List Update) × AreToReport catalogue.now parts.now updates rows }
    ensures { (updates : List Update) → AreToReport catalogue.now parts.now updates rows
        → IfOk result (AreReported (world_of catalogue.now) parts.now updates) }
{
    let declared = parts.group_at(parts.report);
    let count = declared.keys.as_slice().len();
    let numbers = sorted_numbers(alloc, &rows, parts.sorts.as_slice(), count)?;
    let shows = parts.shows.as_slice();
    cell_rows(alloc, catalogue, declared, &rows, &numbers, shows)
}
