//! Laws of answers: functions with no body, whose clauses are the laws.

ghost use Rattle.std.specs.{Prelude.{◌≡◌, ◌∷◌, ◌↔◌, ℕ, List, map}, List.Sorted.IsPermutation};
ghost use Rattle.star_schema.specs.{declared.table.TableId.TheVariants.Lineorder, Database.Database, Schema.table_of};
ghost use Rattle.star_query.specs.Tree.{Tree};
ghost use Rattle.star_plan.specs.{Meaning.Plan, Meaning.Tables, Meaning.plan_rows, Resolved.IsResolved, WellNamed.IsWellNamed};
ghost use Rattle.star_program.specs.declared.outcome.Cell.{Cell};
ghost use Rattle.star_query_meaning.specs.{Answers.IsAnswer, Answers.IsPlanAnswer, Fitting.FitsTables, Fitting.PlanFitsTables, Reports.IsReport, Rows.selected, Rows.tables_of};

/// The rows of a well named query, which are those of the product of FROM's tables for which WHERE
/// is true, are the joined rows of its plan for which all its conjuncts hold, up to their order;
/// and in that order too if FROM names lineorder first, and then the dimensions as they are joined.
pub fn plans_select_the_rows_of_their_queries()
    ensures rows { (tables : Tables) (query : Tree) (p : Plan) → IsWellNamed query
        → IsResolved query p → IsPermutation (selected tables query) (plan_rows tables p) }
    ensures order { (tables : Tables) (query : Tree) (p : Plan) → IsWellNamed query
        → IsResolved query p → tables_of query.tables ≡ Lineorder
        ∷ map (λ j. table_of j.key) p.joins → selected tables query ≡ plan_rows tables p }
{}

/// What a well named query answers is what its plan answers.
pub fn plans_answer_their_queries()
    ensures { (tables : Tables) (query : Tree) (p : Plan) (names : List (List ℕ))
        (rows : List (List Cell)) → IsWellNamed query → IsResolved query p
        → IsAnswer tables query names rows ↔ IsPlanAnswer tables p names rows }
{}

/// A query fits tables exactly if its plan does.
pub fn plans_fit_where_their_queries_do()
    ensures { (most : ℕ) (tables : Tables) (query : Tree) (p : Plan)
        → IsResolved query p → FitsTables most tables query ↔ PlanFitsTables most tables p }
{}

/// A query has one answer over given tables.
pub fn one_query_has_one_answer()
    ensures { (tables : Tables) (query : Tree) (names others : List (List ℕ))
        (rows more : List (List Cell)) → IsAnswer tables query names rows
        → IsAnswer tables query others more → (names ≡ others) × (rows ≡ more) }
{}

/// The bytes of a query have one report over the rows of five tables.
pub fn one_text_has_one_report()
    ensures { (database : Database) (query report other : List ℕ)
        → IsReport database query report → IsReport database query other → report ≡ other }
{}
