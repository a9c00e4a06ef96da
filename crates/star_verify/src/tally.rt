// The possible sums over the updates of a group.

ghost use Rattle.std.specs.{Prelude.{◌≡◌, ◌≤◌, ◌+◌, ◌^◌, ◌∷◌, [], List, ◌+ℤ◌, ◌≤ℤ◌, pos}, Option.option_map};
ghost use Rattle.star_interval.specs.Interval.{range_of};
ghost use Rattle.star_safety.specs.Tallies.{Share, hull_with};
ghost use Rattle.star_verify.specs.{Private.Bounded.IsBounded, Private.Views.IsTally, Private.Views.reach_view};

use crate::reach::Reach;
use star_interval::{Interval, Wide};
use star_program::{MOST_AGGREGATES, MOST_GROUPS};

// The number of tallies of a check: as many for each group as it can have aggregates. It cannot
// have more keys than that.
pub(crate) const TALLIES: usize = MOST_GROUPS * MOST_AGGREGATES;

// The numbers that puts contribute to an aggregate: the bounds of their sums, how many there can
// be, the least range of one number, and the columns that they are computed from.
#[derive(Clone, Copy)]
pub(crate) struct Tally {
    pub(crate) sum: Wide,
    pub(crate) many: u64,
    pub(crate) each: Option<Interval>,
    pub(crate) reach: Reach,
}

// Returns the bounds of the sums.
fn total(sum: Wide, more: Wide) -> Wide
    requires sum_low { pos 0 ≤ℤ (sum.low +ℤ pos (2 ^ 125)) }
    requires sum_high { sum.high ≤ℤ pos (2 ^ 125) }
    requires more_low { pos 0 ≤ℤ (more.low +ℤ pos (2 ^ 125)) }
    requires more_high { more.high ≤ℤ pos (2 ^ 125) }
    ensures low { result.low ≡ sum.low +ℤ more.low }
    ensures high { result.high ≡ sum.high +ℤ more.high }
{
    Wide {
        low: sum.low + more.low,
        high: sum.high + more.high,
    }
}

// Returns the least range that also holds these.
fn with_range(each: Option<Interval>, range: Interval) -> Interval
    ensures { range_of result ≡ hull_with (option_map range_of each) (range_of range) }
{
    match each {
        None => range,
        Some(before) => before.hull(&range),
    }
}

impl Tally {
    // Returns the tally of no numbers.
    pub(crate) fn none() -> Tally
        ensures shares { IsTally result [] }
        ensures many { result.many ≡ 0 }
        ensures bounded { IsBounded result }
    {
        Tally {
            sum: Wide { low: 0, high: 0 },
            many: 0,
            each: None,
            reach: Reach::none(),
        }
    }

    // Adds `times` numbers of a range.
    pub(crate) fn with(self, times: u64, range: Interval, reach: Reach) -> Tally
        requires few { self.many + times ≤ 2 ^ 62 }
        requires bounded { IsBounded self }
        ensures shares { (ss : List Share) → IsTally self ss
            → IsTally result (record {
              met = times;
              range = range_of range;
              reach =
                  reach_view reach;
            } ∷ ss) }
        ensures many { result.many ≡ self.many + times }
        ensures bounded { IsBounded result }
    {
        let widened = range.with_zero();
        let more = widened.times_wide(times);
        let sum = total(self.sum, more);
        Tally {
            sum,
            many: self.many + times,
            each: Some(with_range(self.each, range)),
            reach: self.reach.joined(reach),
        }
    }
}
