//! Laws of compiled programs: functions with no body, whose clauses are the laws.

ghost use Rattle.std.specs.Prelude.{◌≡◌, ◌≤◌, ℕ, None};
ghost use Rattle.star_schema.specs.{declared.table.TableId.TableId, declared.table.TableId.TheVariants.Lineorder};
ghost use Rattle.star_plan.specs.{Limits.IsPlanWithinLimits, Meaning.Plan, Sound.IsSoundPlan, Spelled.IsSpelledPlan};
ghost use Rattle.star_program.specs.{Code.code_size, Limits.IsWithinLimits, ShowLines.shown_fault, Text.Spellable.IsSpellable};
ghost use Rattle.star_safety.specs.Quote.{quote};
ghost use Rattle.star_compile_laws.specs.Compiled.{compiled};

/// A compiled plan is a program: within the limits, of a report that names existing groups and
/// aggregates, and spelled by some text. It has far fewer instructions than a program may have.
pub fn compiled_plans_are_programs()
    ensures limits { (p : Plan) → IsPlanWithinLimits p → IsWithinLimits (compiled p) }
    ensures size { (p : Plan) → IsPlanWithinLimits p → code_size (compiled p).body ≤ 2578 }
    ensures report { (p : Plan) → IsSoundPlan p → shown_fault (compiled p) ≡ None }
    ensures spellable { (p : Plan)
        → IsPlanWithinLimits p → IsSoundPlan p → IsSpelledPlan p → IsSpellable (compiled p) }
{}

/// A compiled program's quote is lineorder's row count: its one scan visits each row of the fact
/// once.
pub fn compiled_programs_visit_each_row_once()
    ensures { (rows : TableId → ℕ) (p : Plan) → quote rows (compiled p) ≡ rows Lineorder }
{}
