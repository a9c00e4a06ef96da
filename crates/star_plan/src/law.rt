//! Laws of plans: functions with no body, whose clauses are the laws.

ghost use Rattle.std.specs.Prelude.{◌≡◌, ◌↔◌, None};
ghost use Rattle.star_query.specs.Tree.{Tree};
ghost use Rattle.star_plan.specs.{Faults.plan_fault, Meaning.Plan, Limits.IsPlanWithinLimits, Planned.IsPlanned, Sound.IsSoundPlan, Spelled.IsSpelledPlan, WellNamed.IsWellNamed};

/// A query is well named exactly if none of its names is at fault.
pub fn well_named_queries_have_no_fault()
    ensures { (tree : Tree) → IsWellNamed tree ↔ (plan_fault tree ≡ None) }
{}

/// Of a plan each dimension is joined once by a foreign key, columns are of joined tables and of the
/// kind that is asked of them, and items and sort keys are columns of the groups. It has at most 4
/// joins, 256 comparisons, 6 keys, 8 aggregates with 512 operands, 16 items and 16 sort keys. Its
/// names have 1 to 64 letters, digits and `_`, its numbers at most 18 digits, and its texts bytes
/// from 0x20 to 0x7E.
pub fn planned_queries_are_sound()
    ensures sound { (p : Plan) → ∥ IsPlanned p ∥₁ → IsSoundPlan p }
    ensures limits { (p : Plan) → ∥ IsPlanned p ∥₁ → IsPlanWithinLimits p }
    ensures spelled { (p : Plan) → ∥ IsPlanned p ∥₁ → IsSpelledPlan p }
{}
