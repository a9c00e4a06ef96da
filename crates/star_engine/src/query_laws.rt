//! Laws of queries and their reports: functions with empty bodies, whose clauses are the laws.

ghost use Rattle.std.specs.{Prelude.{◌≡◌, ◌≤◌, ◌<◌, ◌^◌, ◌↔◌, ℕ, List, Some}, Option.option_map};
ghost use Rattle.star_schema.specs.{Database.Database, Database.TableTexts, Database.rows_in, Columns.bounds_in};
ghost use Rattle.star_query.specs.{Derives.Means, Tree.Tree};
ghost use Rattle.star_plan.specs.{Meaning.Plan, WellNamed.IsWellNamed};
ghost use Rattle.star_program.specs.{Effects.State, Run.Ended, Run.EndsWith, Run.run_of, Text.Spellable.IsSpellable};
ghost use Rattle.star_safety.specs.Admissible.{Refused, TooCostly, first_refusal};
ghost use Rattle.star_world.specs.WorldOf.{world_of};
ghost use Rattle.star_compile_laws.specs.{Compiled.compiled, Counts.HasCounted, Judged.IsOverflow, Wide.turn_wide};
ghost use Rattle.star_engine.specs.{Queries.{FitsRows, IsPlanOf, IsQueryError, IsQueryRun, IsQueryRunError, IsQueryRunErrorOver, IsQueryRunOver, fact_rows}, Executions.{IsAcceptedWithin, quote_over}, declared.fault.EngineFault.EngineFault, declared.thirteen.BenchmarkQuery.BenchmarkQuery, Loads.AreLoadedRows, WithNotes.RunText, QueryRuns.{HasReported, PrintsTheReport}, Private.QuerySteps.HasProgramLaws, Thirteen.query_text};

use star_catalogue::Catalogue;
use star_compile_laws::acceptance::compiled_programs_are_accepted_where_they_fit_the_tables;
use star_compile_laws::answers::{
    compiled_programs_count_the_rows, compiled_programs_report_their_queries,
};
use star_compile_laws::law::{compiled_plans_are_programs, compiled_programs_visit_each_row_once};
use star_query_meaning::law::plans_fit_where_their_queries_do;
use star_safety::law::{
    admissible_programs_never_trap, admissible_programs_within_the_limit_are_not_refused,
};
use star_world::law::{sound_rows_are_loaded, sound_rows_have_a_world};

/// States that the program of a query that fits the loaded rows is accepted, runs to its end
/// without a trap, visits at most as many rows as lineorder has, and prints the query's report.
///
/// A query that does not fit is refused: for its visits if lineorder has more rows than may be
/// visited, otherwise for the first number of its program whose range leaves 64 bits.
pub fn queries_that_fit_are_answered()
    ensures accepted { (most : ℕ) (database : Database) (query : List ℕ) (p : Plan)
        → AreLoadedRows database → IsPlanOf query p
        → FitsRows most database query ↔ IsAcceptedWithin database most (compiled p) }
    ensures answered { (most : ℕ) (database : Database) (query : List ℕ) (p : Plan)
        → AreLoadedRows database → IsPlanOf query p → FitsRows most database query → most ≤ 10 ^ 15
        → EndsWith (run_of (world_of database) (compiled p)) (HasReported database query p) }
    ensures costly { (most : ℕ) (database : Database) (p : Plan) → most < fact_rows database
        → first_refusal (world_of database) most (compiled p)
        ≡ Some (TooCostly (fact_rows database)) }
    ensures wide { (most : ℕ) (database : Database) (query : List ℕ) (p : Plan) → IsPlanOf query p
        → fact_rows database ≤ most → ¬ FitsRows most database query
        → IsOverflow (first_refusal (world_of database) most (compiled p)) }
    ensures first { (most : ℕ) (database : Database) (query : List ℕ) (p : Plan)
        → IsPlanOf query p → fact_rows database ≤ most
        → first_refusal (world_of database) most (compiled p)
        ≡ option_map Refused (turn_wide (bounds_in (rows_in database)) p) }
{
    compiled_plans_are_programs();
    compiled_programs_visit_each_row_once();
    plans_fit_where_their_queries_do();
    compiled_programs_are_accepted_where_they_fit_the_tables();
    compiled_programs_report_their_queries();
    admissible_programs_never_trap();
    admissible_programs_within_the_limit_are_not_refused();
    sound_rows_are_loaded();
}

/// States that the program of a query has lineorder's row count as its quote, and that some text
/// spells it. If its run ends, it prints the query's report, has visited each row of lineorder
/// once, and has made one update for each selected row.
pub fn programs_of_queries_report_them()
    ensures quoted { (database : Database) (p : Plan)
        → quote_over database (compiled p) ≡ fact_rows database }
    ensures spelled { (query : List ℕ) (p : Plan) → IsPlanOf query p → IsSpellable (compiled p) }
    ensures printed { (database : Database) (query : List ℕ) (p : Plan) (s : State)
        → AreLoadedRows database → IsPlanOf query p
        → run_of (world_of database) (compiled p) ≡ Ended s → PrintsTheReport database query p s }
    ensures counted { (database : Database) (query : List ℕ) (p : Plan) (s : State)
        → AreLoadedRows database → (meant : IsPlanOf query p)
        → run_of (world_of database) (compiled p) ≡ Ended s
        → HasCounted (rows_in database) meant.tree p s }
{
    compiled_plans_are_programs();
    compiled_programs_visit_each_row_once();
    compiled_programs_report_their_queries();
    compiled_programs_count_the_rows();
    sound_rows_have_a_world();
}

// Proves the laws for the program of each query over loaded tables.
pub(crate) fn each_query_has_laws(catalogue: &Catalogue)
    ensures { (most : ℕ) (query : List ℕ) (p : Plan) → IsPlanOf query p
        → HasProgramLaws most catalogue.now query p }
{
    queries_that_fit_are_answered();
    programs_of_queries_report_them();
    catalogue.law();
}

/// States that each of the thirteen texts of the benchmark means a well-named query. None of them
/// is therefore refused when it is read.
pub fn the_thirteen_are_queries()
    ensures meant { (q : BenchmarkQuery) → (tree : Tree) × Means (query_text q) tree }
    ensures named { (q : BenchmarkQuery) (tree : Tree)
        → Means (query_text q) tree → IsWellNamed tree }
    ensures read { (q : BenchmarkQuery) (fault : EngineFault) → ¬ IsQueryError
        (query_text q) fault }
{}

/// States that no error is due if a report of a query and its notes are due, over the same rows or
/// texts, under the same limits.
pub fn reported_queries_have_no_fault()
    ensures over_rows { (visits : ℕ) (database : Database) (query : List ℕ) (run : RunText)
        (fault : EngineFault) → IsQueryRunOver visits database query run
        → ¬ IsQueryRunErrorOver visits database query fault }
    ensures of_texts { (rows visits : ℕ) (texts : TableTexts) (query : List ℕ)
        (run : RunText) (fault : EngineFault) → IsQueryRun rows visits texts query run
        → ¬ IsQueryRunError rows visits texts query fault }
{}
