// Limits of a load and of a run.

ghost use Rattle.std.specs.Prelude.{◌≡◌, ◌≤◌, ◌↔◌, IsSome, IfSome};
ghost use Rattle.star_schema.specs.Most.{most_rows, most_visits};

/// The maximum number of rows of a table in any load.
pub const MOST_ROWS: u32 = 1_000_000_000;

/// The maximum number of visits in any run.
pub const MOST_VISITS: u64 = 1_000_000_000_000_000;

/// The maximum number of rows of a table, and the maximum number of visits of a program.
#[derive(Clone, Copy, PartialEq, Eq)]
pub struct Limits {
    pub rows: u32,
    pub visits: u64,
    ghost rows_in_range: { rows ≤ most_rows },
    ghost visits_in_range: { visits ≤ most_visits },
}

impl Limits {
    /// Returns these limits, or None if one exceeds the maximum of any load or run.
    pub fn new(rows: u32, visits: u64) -> Option<Limits>
        ensures allowed { IsSome result ↔ ((rows ≤ most_rows) × (visits ≤ most_visits)) }
        ensures given { IfSome result (λ limits. (limits.rows ≡ rows) × (limits.visits ≡ visits)) }
    {
        if rows <= MOST_ROWS && visits <= MOST_VISITS {
            Some(Limits { rows, visits })
        } else {
            None
        }
    }

    /// Returns the maximum limits.
    pub fn widest() -> Limits
        ensures rows { result.rows ≡ most_rows }
        ensures visits { result.visits ≡ most_visits }
    {
        Limits {
            rows: MOST_ROWS,
            visits: MOST_VISITS,
        }
    }
}
