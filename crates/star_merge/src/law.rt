//! Laws of merged reports: functions with no body, whose clauses are the laws.

ghost use Rattle.std.specs.Prelude.{List, length, map};
ghost use Rattle.star_schema.specs.Database.{Database};
ghost use Rattle.star_plan.specs.{Meaning.Plan, Meaning.aggregate_of, Sound.IsSoundPlan};
ghost use Rattle.star_program.specs.declared.outcome.Cell.{Cell};
ghost use Rattle.star_query_meaning.specs.Answers.{IsPlanAnswer, shown_name};
ghost use Rattle.star_merge_laws.specs.Tables.{all_of, tables_with};
ghost use Rattle.star_merge.specs.Merged.{AreOfShape, ArePlainReports, IsMergedRows, PlainReport, groups_shown};

/// The merged rows of a query's plain reports, one over each part of lineorder, are the answer of the
/// query's plan over all parts.
pub fn merged_rows_are_answers()
    ensures shape { (database : Database) (p : Plan) (reports : List PlainReport)
        → ArePlainReports database p reports
        → AreOfShape (length p.keys) (map aggregate_of p.measures) (groups_shown p reports) }
    ensures answer { (database : Database) (p : Plan) (reports : List PlainReport)
        (rows : List (List Cell)) → IsSoundPlan p → ArePlainReports database p reports
        → IsMergedRows p.shape (length p.keys) (map aggregate_of p.measures) p.sorts p.items
        (groups_shown p reports) rows
        → IsPlanAnswer (tables_with database (all_of (map (λ report. report.lineorder) reports))) p
        (map (shown_name p) p.items) rows }
{}
