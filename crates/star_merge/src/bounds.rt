// The bounds of columns over several parts of lineorder.

ghost use Rattle.std.specs.Prelude.{◌≡◌, ◌<◌, ℕ, slice_index_or};
ghost use Rattle.star_interval.specs.{Interval.range_of, declared.Interval.Interval as Bounds};
ghost use Rattle.star_merge_laws.specs.Facts.{hull_of_rows};

use star_interval::Interval;

// The bounds of a column over the rows of two parts. Those of a part without rows do not count.
fn hull_of_parts(rows: u32, bounds: Interval, more_rows: u32, more: Interval) -> Interval
    ensures { range_of result ≡ hull_of_rows rows more_rows (range_of bounds) (range_of more) }
{
    if rows == 0 {
        more
    } else if more_rows == 0 {
        bounds
    } else {
        bounds.hull(&more)
    }
}

/// Returns the bounds of the 58 columns over two parts, from the row count of each part and its
/// bounds. The bounds of a part without rows do not count.
pub fn join_bounds(
    rows: u32,
    bounds: &[Interval; 58],
    more_rows: u32,
    more: &[Interval; 58],
) -> [Interval; 58]
    ensures { (index : ℕ) (any : Bounds) → index < 58
        → range_of (slice_index_or result index any)
        ≡ hull_of_rows rows more_rows (range_of (slice_index_or bounds.now index any))
        (range_of (slice_index_or more.now index any)) }
{
    let mut joined = *bounds;
    for index in 0..58 {
        joined[index] = hull_of_parts(rows, bounds[index], more_rows, more[index]);
    }
    joined
}
