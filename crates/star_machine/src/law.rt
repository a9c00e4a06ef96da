//! Laws of runs over tables: functions that do nothing, whose clauses are the laws.

ghost use Rattle.std.specs.Prelude.{◌≡◌, ◌≤◌, ◌^◌, ℕ, MatchResult, Result};
ghost use Rattle.star_schema.specs.{Database.Database, Loadable.IsSound};
ghost use Rattle.star_program.specs.{declared.outcome.Outcome.Outcome, declared.program.Parts.Parts, Limits.IsWithinLimits, Run.EndsWith, Run.run_of};
ghost use Rattle.star_safety.specs.{Admissible.IsAdmissible, Laws.EndsWithin, Laws.TotalsLie, Moments.AtEveryMoment, Quote.quote};
ghost use Rattle.star_trial.specs.{declared.fault.TrialFault.TrialFault, declared.fault.TrialFault.TheVariants.OutOfMemory, Trials.IsTrial};
ghost use Rattle.star_machine.specs.Accepted.{IsAcceptedOver};
ghost use Rattle.star_world.specs.WorldOf.{world_of};

use star_safety::law::admissible_programs_never_trap;
use star_world::law::sound_rows_are_loaded;

/// Over sound rows an admissible program, whose quote is within the limit on visits of any run, comes
/// to its end with no trap, with at most as many visits as it is quoted (`ends`). At every moment of
/// its run its registers hold values within their facts, and its updates are such as a store
/// asks for (`moments`). The totals at the end lie in their ranges (`totals`).
pub fn admissible_programs_run_over_sound_rows()
    ensures ends { (database : Database) (parts : Parts) → IsAcceptedOver database parts
        → EndsWithin (quote (world_of database).size parts) (run_of (world_of database) parts) }
    ensures moments { (database : Database) (parts : Parts) → IsAcceptedOver database parts
        → AtEveryMoment (world_of database) parts }
    ensures totals { (database : Database) (parts : Parts) → IsAcceptedOver database parts
        → EndsWith (run_of (world_of database) parts) (TotalsLie (world_of database) parts) }
{
    sound_rows_are_loaded();
    admissible_programs_never_trap();
}

/// Over sound rows a trial of an admissible program, with no fewer visits than it is quoted, is
/// neither trapped nor limited: it answers an outcome of at most as many visits, or that memory was
/// refused.
pub fn admissible_programs_end()
    ensures { (database : Database) (parts : Parts) (visits : ℕ)
        (result : Result Outcome TrialFault) → IsSound database → IsWithinLimits parts
        → IsAdmissible (world_of database) parts → quote (world_of database).size parts ≤ visits
        → visits ≤ 10 ^ 15 → IsTrial (world_of database) parts visits result
        → MatchResult result (λ outcome. outcome.visits ≤ quote (world_of database).size parts)
        (λ fault. fault ≡ OutOfMemory) }
{
    sound_rows_are_loaded();
    admissible_programs_never_trap();
}
