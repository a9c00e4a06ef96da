// The maximum number of rows of a program's report.

ghost use Rattle.std.specs.{Prelude.{◌≡◌, ◌≤◌, ◌<◌, ◌*◌, ◌+◌, ◌^◌, ℕ, List, [], true, length, if◌then◌else◌}, Option.option_map};
ghost use Rattle.star_interval.specs.Interval.{range_of};
ghost use Rattle.star_program.specs.Limits.{IsWithinLimits};
ghost use Rattle.star_world.specs.WorldOf.{world_of};
ghost use Rattle.star_safety.specs.{Contexts.at_end, Contexts.at_first, MostRows.each_values, Tallies.Share};
ghost use Rattle.star_verify.specs.{Private.Kept.HasKeyShares, Private.Made.IsTallyAt, Private.Rows.AgreeUpTo, Private.Rows.MayHide, Private.Rows.groupings, Private.Rows.rows_of_rest, Private.Views.IsTally};
ghost use Rattle.star_safety.specs.MostRows as bound;
ghost use Rattle.star_verify.specs.Private.Rows as spec;

use crate::tally::Tally;
use crate::totals::tally_at;
use star_catalogue::Catalogue;
use star_interval::Interval;
use star_program::{GroupKey, MOST_AGGREGATES, Parts};
use star_schema::{Shape, is_text};

// Returns the number of whole numbers in a range, 0 without a range.
fn width(range: Option<Interval>) -> u128
    ensures width { result ≡ bound.range_width (option_map range_of range) }
    ensures few { result ≤ 2 ^ 64 }
{
    match range {
        Some(range) => u128::from(range.high.abs_diff(range.low)) + 1,
        None => 0,
    }
}

// Returns the maximum number of values of a key.
fn values(catalogue: &Catalogue, key: GroupKey, tally: Tally) -> u128
    ensures values { (ss : List Share) → IsTally tally ss
        → result ≡ bound.possible_values (world_of catalogue.now) ss key }
    ensures few { result ≤ 2 ^ 64 }
{
    match key {
        GroupKey::Text(column) if is_text(column) => u128::from(catalogue.entries(column)),
        GroupKey::Text(_) => 0,
        GroupKey::Number => width(tally.each),
    }
}

fn lesser(left: u128, right: u128) -> u128
    ensures { result ≡ spec.lesser left right }
{
    if left <= right { left } else { right }
}

// Keys that are each shown or hidden: whether one is shown, whether one is hidden, and the number
// of value lists of the shown keys, as far as it is counted.
#[derive(Clone, Copy)]
struct Front {
    has_shown: bool,
    has_hidden: bool,
    lists: u128,
}

impl Front {
    // Adds a shown key with `values` values. Counts above every number of updates need not be
    // distinguished.
    fn shown(self, values: u128) -> Front
        requires { values ≤ 2 ^ 64 }
        ensures lists { (lists : ℕ) → AgreeUpTo self.lists lists
            → AgreeUpTo result.lists (lists * values) }
        ensures shown { result.has_shown ≡ true }
        ensures hidden { result.has_hidden ≡ self.has_hidden }
    {
        Front {
            has_shown: true,
            lists: lesser(self.lists, u128::from(u64::MAX)) * values,
            ..self
        }
    }

    // Adds a hidden key.
    fn hidden(self) -> Front
        ensures { result ≡ record self { has_hidden = true } }
    {
        Front {
            has_hidden: true,
            ..self
        }
    }

    // Returns the maximum number of rows of its grouping.
    fn rows(self, updates: u64) -> u128
        ensures rows { (lists : ℕ) → AgreeUpTo self.lists lists
            → result ≡ rows_of_rest updates self.has_shown lists [] }
        ensures few { result ≤ 2 ^ 64 }
    {
        if self.has_shown {
            lesser(u128::from(updates), self.lists)
        } else {
            1
        }
    }
}

// Tests whether the next key may be shown; `has_hidden` says whether an earlier key is hidden.
fn may_show(shape: Shape, has_hidden: bool) -> bool
    ensures { result ≡ spec.may_show shape has_hidden }
{
    match shape {
        Shape::Cube => true,
        Shape::Plain | Shape::Rollup => !has_hidden,
    }
}

fn may_hide(shape: Shape) -> bool
    ensures { result ≡ spec.may_hide shape }
{
    match shape {
        Shape::Plain => false,
        Shape::Cube | Shape::Rollup => true,
    }
}

// The groupings of a group's keys: their shape, facts about each key, and the maximum number of
// updates.
#[derive(Clone, Copy)]
struct Groupings<'a> {
    catalogue: &'a Catalogue,
    shape: Shape,
    tallies: &'a [Tally],
    updates: u64,
}

impl Groupings<'_> {
    // Returns the maximum number of rows of all groupings that continue a front. The tallies of the
    // remaining keys begin at an index.
    #[cycle(rows_behind)]
    fn rows_behind(&self, front: Front, keys: &[GroupKey], first: usize) -> u128
        requires there { first + length keys.now ≤ length self.now.tallies.now }
        requires small { length keys.now ≤ 6 }
        requires hides { MayHide self.now.shape front.has_hidden }
        ensures rows { (shares : ℕ → List Share) (index lists : ℕ)
            → ((k : ℕ) → k < length keys.now
            → IsTallyAt self.now.tallies.now (first + k) (shares (index + k)))
            → AgreeUpTo front.lists lists
            → result ≡ spec.rows_behind self.now.updates self.now.shape front.has_shown
            front.has_hidden lists
            (each_values (world_of self.now.catalogue.now) shares index keys.now) }
        ensures few { result ≤ groupings (length keys.now) * 2 ^ 64 }
    {
        let [key, others @ ..] = keys else {
            return front.rows(self.updates);
        };
        let shown = front.shown(values(self.catalogue, *key, tally_at(self.tallies, first)));
        let may_show = may_show(self.shape, front.has_hidden);
        let with_it = self.rows_if(may_show, shown, others, first + 1);
        let may_hide = may_hide(self.shape);
        with_it + self.rows_if(may_hide, front.hidden(), others, first + 1)
    }

    // Returns the same if such a front is allowed, otherwise 0.
    #[cycle(rows_behind)]
    fn rows_if(&self, may_be: bool, front: Front, keys: &[GroupKey], first: usize) -> u128
        requires there { first + length keys.now ≤ length self.now.tallies.now }
        requires small { length keys.now ≤ 6 }
        requires hides { may_be ≡ true → MayHide self.now.shape front.has_hidden }
        ensures rows { (shares : ℕ → List Share) (index lists : ℕ)
            → ((k : ℕ) → k < length keys.now
            → IsTallyAt self.now.tallies.now (first + k) (shares (index + k)))
            → AgreeUpTo front.lists lists
            → result ≡ (if may_be then spec.rows_behind self.now.updates self.now.shape
            front.has_shown front.has_hidden lists
            (each_values (world_of self.now.catalogue.now) shares index keys.now) else 0) }
        ensures few { result ≤ groupings (length keys.now) * 2 ^ 64 }
    {
        if may_be {
            self.rows_behind(front, keys, first)
        } else {
            0
        }
    }
}

const NO_KEYS: Front = Front {
    has_shown: false,
    has_hidden: false,
    lists: 1,
};

// Returns the maximum number of rows of a program's report, from facts about the keys of each
// group. Two tighter bounds are left out, since each needs more state: the updates and values of
// each put separately, and dependent keys, as a year depends on its date.
pub(crate) fn most_rows(catalogue: &Catalogue, parts: &Parts, keys: &[Tally]) -> u128
    requires limits { IsWithinLimits parts.now }
    requires len { length keys.now ≡ 64 }
    ensures { HasKeyShares parts.now keys.now
        (at_end (world_of catalogue.now) parts.now at_first parts.now.body)
        → result ≡ bound.most_report_rows (world_of catalogue.now) parts.now }
{
    let Some(declared) = parts.group(parts.report) else {
        return 1;
    };
    let first = MOST_AGGREGATES * parts.report as usize;
    match declared.keys.as_slice() {
        [] => 1,
        shown => {
            let groupings = Groupings {
                catalogue,
                shape: declared.shape,
                tallies: keys,
                updates: tally_at(keys, first).many,
            };
            groupings.rows_behind(NO_KEYS, shown, first)
        }
    }
}
