//! Laws of partials: functions with empty bodies, whose clauses are the laws.

ghost use Rattle.std.specs.Prelude.{◌≡◌, ℕ, List};
ghost use Rattle.star_report.specs.Columns.{ColumnKind};
ghost use Rattle.star_partial.specs.{Contents.Contents, Text.partial_text};
ghost use Rattle.star_merger.specs.Spelled.{IsSpelled};

/// States that partials of a query that have the same text have the same contents.
pub fn one_text_has_one_partial()
    ensures { (query : List ℕ) (names : List (List ℕ)) (kinds : List ColumnKind)
        (contents other : Contents) → IsSpelled names kinds contents → IsSpelled names kinds other
        → partial_text query contents ≡ partial_text query other → contents ≡ other }
{}
