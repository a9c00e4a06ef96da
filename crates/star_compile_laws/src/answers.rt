//! Laws of what compiled programs answer: functions with no body, whose clauses are the laws.

ghost use Rattle.std.specs.Prelude.{All, List, ℕ};
ghost use Rattle.star_schema.specs.{declared.table.TableId.TableId, Database.Database, Database.rows_in, Loadable.IsSound, Tables.IsRowOf};
ghost use Rattle.star_query.specs.{Derives.Means, Tree.Tree};
ghost use Rattle.star_plan.specs.{Meaning.Plan, Resolved.IsResolved, Sound.IsSoundPlan, WellNamed.IsWellNamed};
ghost use Rattle.star_program.specs.World.{World};
ghost use Rattle.star_world.specs.RowsSeen.{IsWorldOf};
ghost use Rattle.star_compile_laws.specs.{Answers.AnswersThePlan, Answers.AnswersTheQuery, Answers.ReportsTheQuery, Counts.CountsTheRows};

use star_world::law::sound_rows_have_a_world;

/// If a run of a compiled program comes to its end, its outcome is the plan's answer: the groups
/// of the selected rows with their aggregates, in the plan's order, cut to its items, under their
/// names.
pub fn compiled_programs_answer_their_plans()
    ensures { (database : Database) (w : World) (p : Plan)
        → ((table : TableId) → All (IsRowOf table) (rows_in database table))
        → IsWorldOf database w → IsSoundPlan p → AnswersThePlan (rows_in database) w p }
{}

/// So the outcome of the program of a well named query is the query's own answer.
pub fn compiled_programs_answer_their_queries()
    ensures { (database : Database) (w : World) (query : Tree) (p : Plan)
        → ((table : TableId) → All (IsRowOf table) (rows_in database table)) → IsWorldOf database w
        → IsWellNamed query → IsResolved query p → AnswersTheQuery (rows_in database) w query p }
{}

/// A run of it has visited each row of lineorder once, and made an update of each row that the
/// query selects. It has looked up as many rows as there are finds in the row's turn before the
/// keep of its first conjunct that doesn't hold.
pub fn compiled_programs_count_the_rows()
    ensures { (database : Database) (w : World) (query : Tree) (p : Plan)
        → ((table : TableId) → All (IsRowOf table) (rows_in database table)) → IsWorldOf database w
        → IsWellNamed query → IsResolved query p → CountsTheRows (rows_in database) w query p }
{}

/// And its printed text over sound rows, which have a world, is the report of the query's text.
pub fn compiled_programs_report_their_queries()
    ensures { (database : Database) (text : List ℕ) (query : Tree) (p : Plan) → IsSound database
        → ((table : TableId) → All (IsRowOf table) (rows_in database table)) → Means text query
        → IsWellNamed query → IsResolved query p → ReportsTheQuery database text p }
{
    sound_rows_have_a_world();
}
