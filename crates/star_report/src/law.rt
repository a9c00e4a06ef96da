//! Laws of printed reports: functions with empty bodies, whose clauses are the laws.

ghost use Rattle.std.specs.Prelude.{◌≡◌, ℕ, List, All};
ghost use Rattle.star_schema.specs.{declared.table.TableId.TableId, Tables.rows_of};
ghost use Rattle.star_program.specs.{declared.outcome.Cell.Cell, declared.outcome.Outcome.Outcome, declared.program.Parts.Parts, Effects.State, Outcome.IsOutcome, World.World};
ghost use Rattle.star_report.specs.{Report.report_text, Columns.ColumnKind, Columns.AreRowsOf, Columns.IsFieldValue};

// The numbers of these rows have at most 64 digits (`AreRowsOf`): for longer ones the toolchain
// does not define their output.
/// States that one text has one meaning: rows of the same columns that print the same text are
/// equal.
pub fn one_text_has_one_meaning()
    ensures { (names : List (List ℕ)) (kinds : List ColumnKind) (rows others : List (List Cell))
        → AreRowsOf kinds rows → AreRowsOf kinds others
        → report_text names rows ≡ report_text names others → rows ≡ others }
{}

/// States that no text of a table has a bar or a line end, as the law above requires.
pub fn texts_of_tables_are_fields()
    ensures { (t : TableId) (parts : List (List ℕ)) → All (All IsFieldValue) (rows_of t parts) }
{}

/// States that a run has one outcome and therefore one printed report: no two of its rows have
/// equal keys, and there is only one order.
pub fn one_run_has_one_outcome()
    ensures { (world : World) (parts : Parts) (done : State) (outcome other : Outcome)
        → IsOutcome world parts done outcome → IsOutcome world parts done other → outcome ≡ other }
{}
