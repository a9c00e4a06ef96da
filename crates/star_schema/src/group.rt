// Groups of rows: the groupings of the keys, the aggregates of a group, and the sort keys of its
// rows.

ghost use Rattle.star_schema.specs.Words as spec;

use crate::name::Named;

/// The groupings of some keys (Gray et al. 1997, sections 3 and 4): by all keys, by every subset of
/// them, or by every prefix of their list. A key outside the subset has the value ALL.
#[derive(Clone, Copy, PartialEq, Eq)]
pub enum Shape {
    Plain,
    Cube,
    Rollup,
}

/// All shapes.
pub static SHAPES: [Shape; 3] = [Shape::Plain, Shape::Cube, Shape::Rollup];

impl Named for Shape {
    ghost name = { spec.shape_name };

    #[tactic(auto, unfolding(crate::specs::Words::shape_name))]
    fn name(self) -> &'static str {
        match self {
            Shape::Plain => "plain",
            Shape::Cube => "cube",
            Shape::Rollup => "rollup",
        }
    }
}

/// An aggregate over the rows of a group. `Count` counts them; the others are NULL over no rows.
#[derive(Clone, Copy, PartialEq, Eq)]
pub enum Aggregate {
    Sum,
    Count,
    Min,
    Max,
}

/// All aggregates.
pub static AGGREGATES: [Aggregate; 4] = [
    Aggregate::Sum,
    Aggregate::Count,
    Aggregate::Min,
    Aggregate::Max,
];

impl Named for Aggregate {
    ghost name = { spec.aggregate_name };

    #[tactic(auto, unfolding(crate::specs::Words::aggregate_name))]
    fn name(self) -> &'static str {
        match self {
            Aggregate::Sum => "sum",
            Aggregate::Count => "count",
            Aggregate::Min => "min",
            Aggregate::Max => "max",
        }
    }
}

/// A column of a group's rows: an index, from 0, among its keys or among its aggregates.
#[derive(Clone, Copy, PartialEq, Eq)]
pub enum GroupColumn {
    Key(u16),
    Aggregate(u16),
}

/// The direction of a sort. `Descending` reverses the whole order, ALL included.
#[derive(Clone, Copy, PartialEq, Eq)]
pub enum Direction {
    Ascending,
    Descending,
}

/// All directions.
pub static DIRECTIONS: [Direction; 2] = [Direction::Ascending, Direction::Descending];

impl Named for Direction {
    ghost name = { spec.direction_name };

    #[tactic(auto, unfolding(crate::specs::Words::direction_name))]
    fn name(self) -> &'static str {
        match self {
            Direction::Ascending => "ascending",
            Direction::Descending => "descending",
        }
    }
}

/// One key of a sort.
#[derive(Clone, Copy, PartialEq, Eq)]
pub struct SortKey {
    pub column: GroupColumn,
    pub direction: Direction,
}
