// The columns that a number is computed from.

ghost use Rattle.std.specs.Prelude.{◌≡◌};
ghost use Rattle.star_program.specs.World.{is_column};
ghost use Rattle.star_safety.specs.Ranges.{joined_reach, no_reach};
ghost use Rattle.star_verify.specs.Private.Views.{reach_view};

use star_schema::ColumnId;

// A set of columns: one bit for each column, the lowest for the first.
#[derive(Clone, Copy)]
pub(crate) struct Reach {
    columns: u64,
}

impl Reach {
    pub(crate) fn none() -> Reach
        ensures { reach_view result ≡ no_reach }
    {
        Reach { columns: 0 }
    }

    pub(crate) fn only(column: ColumnId) -> Reach
        ensures { reach_view result ≡ is_column column }
    {
        Reach {
            columns: 1 << (column as u64),
        }
    }

    // Returns the union.
    pub(crate) fn joined(self, other: Reach) -> Reach
        ensures { reach_view result ≡ joined_reach (reach_view self) (reach_view other) }
    {
        Reach {
            columns: self.columns | other.columns,
        }
    }

    pub(crate) fn has(self, column: ColumnId) -> bool
        ensures { result ≡ reach_view self column }
    {
        (self.columns >> (column as u64)) & 1 == 1
    }
}
