//! Laws of accepted programs: functions with empty bodies, whose clauses are the laws.

ghost use Rattle.std.specs.{Prelude.{◌≡◌, ◌↔◌, ◌≤◌, ◌<◌, ◌^◌, ◌∷◌, ℕ, ℤ, All, List, None, Option, Some, length, true}, List.{last_or, sum_by}, Option.option_map};
ghost use Rattle.star_common.specs.First.{first_answer};
ghost use Rattle.star_schema.specs.{declared.table.TableId.TableId, declared.column.ColumnId.ColumnId};
ghost use Rattle.star_interval.specs.Range.{FitsI64, FitsI128, Range};
ghost use Rattle.star_program.specs.{declared.op.Op.TheVariants.Put, declared.program.Parts.Parts, Code.{Code, Then}, Effects.{GoesOn, State, act, update_of}, Faults.{group_at, is_number_kind}, Limits.IsWithinLimits, Outcome.IsOutcome, declared.outcome.Outcome.Outcome, Reads.IsTaken, Run.{EndsWith, bounded_run_of, meaning_of, run_of}, Values.Registers, World.World};
ghost use Rattle.star_group.specs.Stores.{HasRoom, group_declared};
ghost use Rattle.star_safety.specs.{Moments.{AtEveryMoment, HoldsFrom, IsMet, IsMetFrom, Moment, StandsIn, moment}, Admissible.{IsAdmissible, Refused, TooCostly, first_refusal}, Bounds.AreI64, Contexts.{Context, at_end, at_first}, Laws.{EndsWithin, IsAccepted, SumsFit, TotalsLie}, Meetings.IsMetWithinQuote, MostRows.most_report_rows, Quote.quote, Private.Forward.{first_reason, none_open}, Private.Throughout.HoldsThroughout, declared.reason.Reached.Reached, declared.reason.Reason.TheVariants.Overflow, Ranges.{Known, KnownNumber, Reach, known_kind}, Standing.{instructions_of, reason_of}, Tallies.Shares, Told.{AreTold, turns_of}};

/// States that an admissible program runs to its end without a trap over any loaded catalogue.
///
/// It visits at most its quote, and a bound of at least the quote never stops it. Before each
/// instruction and at each end its registers agree with the register facts. A number is in its
/// range, and in its column if it was loaded from one. A code or a position belongs to its column's
/// texts, a row to its table. A register without facts has no value. The sums over any of its
/// updates lie in their ranges, which fit 128 bits, and the counts fit 64 bits; the precondition of
/// a put therefore holds at each put. All totals at the end lie in their ranges.
pub fn admissible_programs_never_trap()
    ensures ends { (w : World) (parts : Parts)
        → IsAccepted w parts → EndsWithin (quote w.size parts) (run_of w parts) }
    ensures never_limited { (w : World) (parts : Parts) (most : ℕ)
        → IsAccepted w parts → quote w.size parts ≤ most
        → EndsWithin (quote w.size parts) (bounded_run_of w most parts) }
    ensures moments { (w : World) (parts : Parts) → IsAccepted w parts → AtEveryMoment w parts }
    ensures sums { (w : World) (parts : Parts) → IsAccepted w parts → SumsFit w parts }
    ensures totals { (w : World) (parts : Parts)
        → IsAccepted w parts → EndsWith (run_of w parts) (TotalsLie w parts) }
{}

/// States that at every moment the updates of a group, with the next put, satisfy the precondition
/// of a store: the sums of each key list fit 128 bits, and the counts fit 64 bits.
pub fn each_put_has_room()
    ensures { (w : World) (parts : Parts) (all : Shares) (first : Moment) (x : Context) (group : ℕ)
        (keys values : List ℕ) (rest : Code) (at : ℕ) (before after : Registers) (s t : State)
        → HoldsFrom w parts all first
        → IsMetFrom w parts first (moment x (Then (Put group keys values) rest) at before s)
        → act w parts x.inside before s (Put group keys values) ≡ GoesOn after t
        → HasRoom (group_declared (group_at parts group))
        (update_of (group_at parts group) before keys values ∷ s.updates_of group) }
{}

/// States that no program makes more visits than its quote: its run with a bound of at least the
/// quote is its run without a bound, whether it ends or traps.
pub fn a_bound_of_the_quote_never_stops_a_run()
    ensures { (w : World) (parts : Parts) (most : ℕ) → quote w.size parts ≤ most
        → bounded_run_of w most parts ≡ run_of w parts }
{}

/// States that a quote is the sum, over the scans of a program, of the product of the row counts of
/// that scan and of the enclosing scans.
pub fn a_quote_is_the_sum_over_the_scans()
    ensures { (w : World) (parts : Parts)
        → quote w.size parts ≡ sum_by (turns_of w) (instructions_of w parts) }
{}

/// States that an instruction in a scan is executed at most as often as the quote says, and any
/// other instruction at most once.
pub fn instructions_are_met_within_the_quote()
    ensures { (w : World) (parts : Parts)
        → All (IsMetWithinQuote w parts) (instructions_of w parts) }
{}

/// States that each number in a refusal of a program within its limits fits 128 bits. For a range
/// this holds if no more visits are allowed than the maximum of any run; for a quote, if no table
/// has 2^32 rows. The bounds of the columns that a range is computed from fit 64 bits, since the
/// program's constants and the bounds of numeric columns do.
pub fn told_bounds_fit_128_bits()
    ensures range { (w : World) (most : ℕ) (parts : Parts) (at : ℕ) (low high : ℤ)
        (columns : List Reached) → IsWithinLimits parts → most ≤ 10 ^ 15 → AreI64 w parts
        → first_refusal w most parts ≡ Some (Refused (at, Overflow low high columns))
        → FitsI128 (record { low = low; high = high }) }
    ensures columns { (w : World) (most : ℕ) (parts : Parts) (at : ℕ) (low high : ℤ)
        (columns : List Reached) → AreI64 w parts
        → first_refusal w most parts ≡ Some (Refused (at, Overflow low high columns))
        → All (λ column. FitsI64 (record { low = column.low; high = column.high })) columns }
    ensures visits { (w : World) (most : ℕ) (parts : Parts) (visits : ℕ)
        → IsWithinLimits parts → ((t : TableId) → w.size t < 2 ^ 32)
        → first_refusal w most parts ≡ Some (TooCostly visits) → visits < 2 ^ 128 }
{}

/// States that no report of an accepted program has more rows than the values of its keys and the
/// updates of its group allow, as far as they are known before the run.
///
/// They are counted by grouping (Gray et al. 1997, section 3). A grouping that shows no key has one
/// row. Any other has no more rows than there are updates of the group, and than there are lists of
/// values of the keys that it shows. Text columns have the values of their dictionaries, numbers
/// the values of their ranges.
pub fn reports_have_no_more_rows_than_keys_allow()
    ensures { (w : World) (parts : Parts) → IsAccepted w parts
        → EndsWith (run_of w parts) (λ s. (outcome : Outcome) → IsOutcome w parts s outcome
        → length outcome.rows ≤ most_report_rows w parts) }
{}

/// States that a program is accepted exactly if it is admissible and its quote is within the limit
/// on visits.
pub fn admissible_programs_within_the_limit_are_not_refused()
    ensures { (w : World) (most : ℕ) (parts : Parts)
        → (first_refusal w most parts ≡ None)
        ↔ (IsAdmissible w parts × (quote w.size parts ≤ most)) }
{}

/// States that the context of each instruction, and of the end of each body, is determined by the
/// enclosing scans and the instructions before it.
///
/// Instructions are numbered in the order of the text. The facts of a register are those of the
/// result of the last earlier instruction that writes it in scope; without one there are no facts.
/// A register that an instruction writes is in scope inside all scans that enclose the instruction,
/// a scan's row inside the scan. The contributions to groups are those of the earlier puts, each
/// with the number of its executions: the product of the row counts of its enclosing scans. The
/// last context is that at the end of the program.
pub fn instructions_are_judged_in_their_contexts()
    ensures told { (w : World) (parts : Parts) → AreTold w parts }
    ensures last { (w : World) (parts : Parts)
        → option_map (λ i. i.context) (last_or None (instructions_of w parts))
        ≡ Some (at_end w parts at_first parts.body) }
{}

/// States that each moment of a run belongs to an instruction of its program or to the end of a
/// body, with its number and in its context.
pub fn moments_stand_in_their_contexts()
    ensures { (w : World) (parts : Parts) (m : Moment) → IsMet w parts m → StandsIn w parts m }
{}

/// States that the facts of a register of kind Number have a range. The default of `range_at` is
/// therefore never used for an instruction without a fault.
pub fn numbers_have_ranges()
    ensures { (known : Option Known) → IsTaken is_number_kind (option_map known_kind known)
        → (range : Range) × (reach : Reach) × (origin : Option ColumnId)
        × (known ≡ Some (KnownNumber range reach origin)) }
{}

/// States that one pass over the code of a program finds the first refused instruction.
fn one_pass_finds_the_first()
    ensures { (w : World) (parts : Parts)
        → first_reason w parts none_open at_first 1 parts.body
        ≡ first_answer (reason_of w parts) (instructions_of w parts) }
{}

/// States that what holds throughout a run, stated along its code, holds at each moment of the run,
/// and conversely if the run ends.
fn what_holds_throughout_holds_at_every_moment()
    ensures moments { (w : World) (parts : Parts)
        → HoldsThroughout w parts → AtEveryMoment w parts }
    ensures whole { (w : World) (parts : Parts) → AtEveryMoment w parts
        → EndsWith (meaning_of w (λ visits. true) parts) (λ s. Unit {0}) → HoldsThroughout w parts }
{}
