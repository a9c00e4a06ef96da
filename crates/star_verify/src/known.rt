// Register facts: what is known about a register before a run.

ghost use Rattle.std.specs.{Prelude.{◌≡◌, ◌↔◌, None, Some, IfOk, IsOk, MatchResult}, Option.option_map};
ghost use Rattle.star_interval.specs.{Interval.bounds_of, Interval.range_of, Range.FitsI64};
ghost use Rattle.star_program.specs.World.{World};
ghost use Rattle.star_verify.specs.Private.Views.{known_view, reach_view};
ghost use Rattle.star_safety.specs.Ranges as ranges;
ghost use Rattle.star_safety.specs.Refusals as refusals;
ghost use Rattle.star_safety.specs.declared.reason.Reason.TheVariants as reason;

use crate::reach::Reach;
use star_interval::{Interval, Wide};
use star_program::Operator;
use star_schema::{ColumnId, TableId};

// The kind of a register. For a number also its range, the columns that it is computed from, and
// the column that it was loaded from, if any.
#[derive(Clone, Copy)]
pub(crate) enum Known {
    Number {
        range: Interval,
        reach: Reach,
        origin: Option<ColumnId>,
    },
    Text(ColumnId),
    Place(ColumnId),
    Row(TableId),
    Flag,
}

// A range that leaves 64 bits, and the columns that its numbers are computed from.
#[derive(Clone, Copy)]
pub(crate) struct Beyond {
    pub(crate) range: Wide,
    pub(crate) reach: Reach,
}

// Returns the facts of a number that is computed from no column.
pub(crate) fn given(range: Interval) -> Known
    ensures { known_view result ≡ ranges.known_number (range_of range) }
{
    Known::Number {
        range,
        reach: Reach::none(),
        origin: None,
    }
}

// Returns the range of a number, or the range of 0 if there are no facts of a number.
pub(crate) fn range_at(known: Option<Known>) -> Interval
    ensures { range_of result ≡ ranges.range_at (option_map known_view known) }
{
    match known {
        Some(Known::Number { range, .. }) => range,
        _ => Interval::point(0),
    }
}

pub(crate) fn reach_at(known: Option<Known>) -> Reach
    ensures { reach_view result ≡ ranges.reach_at (option_map known_view known) }
{
    match known {
        Some(Known::Number { reach, .. }) => reach,
        _ => Reach::none(),
    }
}

pub(crate) fn origin_at(known: Option<Known>) -> Option<ColumnId>
    ensures { result ≡ ranges.origin_at (option_map known_view known) }
{
    match known {
        Some(Known::Number { origin, .. }) => origin,
        _ => None,
    }
}

// Returns the facts of an arithmetic result, from its range and the columns that it is computed
// from.
pub(crate) fn computed(range: Result<Interval, Wide>, reach: Reach) -> Result<Known, Beyond>
    requires { IsOk range ↔ FitsI64 (bounds_of range) }
    ensures made { IfOk result (λ known. known_view known
        ≡ ranges.KnownNumber (bounds_of range) (reach_view reach) None) }
    ensures overflow { (w : World) → MatchResult result
        (λ _. refusals.overflow_of w (ranges.KnownNumber (bounds_of range) (reach_view reach) None)
        ≡ None) (λ beyond. refusals.overflow_of w (ranges.KnownNumber (bounds_of range)
        (reach_view reach) None)
        ≡ Some (reason.Overflow beyond.range.low beyond.range.high
        (refusals.reached w (reach_view beyond.reach)))) }
{
    match range {
        Ok(range) => Ok(Known::Number {
            range,
            reach,
            origin: None,
        }),
        Err(range) => Err(Beyond { range, reach }),
    }
}

// Returns the facts of an operator's result over two registers.
pub(crate) fn answer(
    operator: Operator,
    left: Option<Known>,
    right: Option<Known>,
) -> Result<Known, Beyond>
    ensures made { IfOk result (λ known. known_view known
        ≡ ranges.answer_known operator (option_map known_view left) (option_map known_view right)) }
    ensures overflow { (w : World) → MatchResult result
        (λ _. refusals.overflow_of w (ranges.answer_known operator (option_map known_view left)
        (option_map known_view right)) ≡ None)
        (λ beyond. refusals.overflow_of w (ranges.answer_known operator (option_map known_view left)
        (option_map known_view right))
        ≡ Some (reason.Overflow beyond.range.low beyond.range.high
        (refusals.reached w (reach_view beyond.reach)))) }
{
    let from = range_at(left);
    let to = range_at(right);
    let reach = reach_at(left).joined(reach_at(right));
    match operator {
        Operator::Add => computed(from.add(&to), reach),
        Operator::Sub => computed(from.sub(&to), reach),
        Operator::Mul => computed(from.mul(&to), reach),
        _ => Ok(Known::Flag),
    }
}
