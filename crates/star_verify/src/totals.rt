// The facts of a read.

ghost use Rattle.std.specs.{Prelude.{◌≡◌, ◌<◌, List, length, slice_index_or}, Option.option_map};
ghost use Rattle.star_interval.specs.{Interval.wide_range_of, Range.only};
ghost use Rattle.star_program.specs.World.{World};
ghost use Rattle.star_safety.specs.Tallies.{Share, aggregate_range, hull_with, reach_of, read_range};
ghost use Rattle.star_verify.specs.{Private.Made.IsMade, Private.Views.IsTally};
ghost use Rattle.star_safety.specs.Ranges as ranges;
ghost use Rattle.star_safety.specs.Refusals as refusals;

use crate::known::{Beyond, Known, given};
use crate::tally::Tally;
use star_interval::Wide;
use star_schema::Aggregate;

// Returns the bounds of a total of the numbers, if there can be one.
fn total_range(aggregate: Aggregate, tally: Tally) -> Option<Wide>
    ensures { (ss : List Share) → IsTally tally ss
        → option_map wide_range_of result ≡ aggregate_range aggregate ss }
{
    match aggregate {
        Aggregate::Sum => Some(tally.sum),
        Aggregate::Count => Some(Wide {
            low: 0,
            high: i128::from(tally.many),
        }),
        Aggregate::Min | Aggregate::Max => match tally.each {
            Some(range) => Some(Wide::from(range)),
            None => None,
        },
    }
}

// Returns the bounds of such a total or a default.
fn with_default(range: Option<Wide>, default: i64) -> Wide
    ensures { wide_range_of result ≡ hull_with (option_map wide_range_of range) (only default) }
{
    let number = i128::from(default);
    match range {
        None => Wide {
            low: number,
            high: number,
        },
        Some(range) => Wide {
            low: range.low.min(number),
            high: range.high.max(number),
        },
    }
}

// Returns the facts of a read.
pub(crate) fn read(aggregate: Aggregate, tally: Tally, default: i64) -> Result<Known, Beyond>
    ensures { (w : World) (ss : List Share) → IsTally tally ss
        → IsMade w result (ranges.known_number (read_range aggregate ss (only default)))
        (refusals.overflow w (read_range aggregate ss (only default)) (reach_of ss)) }
{
    match with_default(total_range(aggregate, tally), default).narrow() {
        Ok(range) => Ok(given(range)),
        Err(range) => Err(Beyond {
            range,
            reach: tally.reach,
        }),
    }
}

pub(crate) fn tally_at(tallies: &[Tally], index: usize) -> Tally
    requires { index < length tallies.now }
    ensures { (t : Tally) → slice_index_or tallies.now index t ≡ result }
{
    tallies[index]
}
