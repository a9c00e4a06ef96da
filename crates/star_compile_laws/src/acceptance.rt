//! When nothing refuses a compiled program: exactly if its query fits.

ghost use Rattle.std.specs.{Prelude.{◌≡◌, ◌↔◌, ◌≤◌, ◌<◌, ℕ, None, Some, length}, Option.option_map};
ghost use Rattle.star_schema.specs.{Database.Database, Database.rows_in, declared.table.TableId.TheVariants.Lineorder, Columns.bounds_in, Columns.AreBoundsI64};
ghost use Rattle.star_plan.specs.{Meaning.Plan, Sound.IsSoundPlan, Spelled.IsSpelledPlan};
ghost use Rattle.star_world.specs.WorldOf.{world_of};
ghost use Rattle.star_safety.specs.Admissible.{Refused, TooCostly, first_refusal};
ghost use Rattle.star_query_meaning.specs.Fitting.{PlanFitsTables};
ghost use Rattle.star_compile_laws.specs.{Compiled.compiled, Judged.IsOverflow, Wide.turn_wide};

/// Nothing refuses the program of a query that fits the tables. Else lineorder's rows are over the
/// limit on visits, and the program is refused for its quote, which is their number; or one of its
/// instructions is refused since a range leaves 64 bits: the first of them, in the order in which a
/// turn computes. There is no other refusal.
///
/// A program that isn't refused fits, and others are refused as defined, for any constants. One
/// that fits isn't refused if the bounds of the columns of numbers are of 64 bits, and if the
/// numbers of the query have at most 18 digits: a query is asked only for the ranges of its
/// aggregates, and its program for those of all columns that it loads, and of the constants of its
/// conditions.
pub fn compiled_programs_are_accepted_where_they_fit_the_tables()
    ensures fits { (database : Database) (most : ℕ) (p : Plan)
        → AreBoundsI64 (bounds_in (rows_in database)) → IsSoundPlan p → IsSpelledPlan p
        → PlanFitsTables most (rows_in database) p
        ↔ (first_refusal (world_of database) most (compiled p) ≡ None) }
    ensures costly { (database : Database) (most : ℕ) (p : Plan)
        → most < length (rows_in database Lineorder)
        → first_refusal (world_of database) most (compiled p)
        ≡ Some (TooCostly (length (rows_in database Lineorder))) }
    ensures wide { (database : Database) (most : ℕ) (p : Plan)
        → IsSoundPlan p → length (rows_in database Lineorder) ≤ most
        → (PlanFitsTables most (rows_in database) p → ⊥)
        → IsOverflow (first_refusal (world_of database) most (compiled p)) }
    ensures first { (database : Database) (most : ℕ) (p : Plan)
        → IsSoundPlan p → length (rows_in database Lineorder) ≤ most
        → first_refusal (world_of database) most (compiled p)
        ≡ option_map Refused (turn_wide (bounds_in (rows_in database)) p) }
{}
