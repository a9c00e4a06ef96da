// The facts of an operation's result, and the check of its source.

ghost use Rattle.std.specs.Prelude.{◌≡◌, ◌*◌, ◌+◌, ◌<◌, ◌≤◌, ℕ, Bool, None, length};
ghost use Rattle.star_program.specs.{CodeOfSteps.code_of_steps, declared.op.Op.TheVariants.Assign, Faults.group_at, Faults.place_fault, World.World};
ghost use Rattle.star_safety.specs.{Contexts.Context, Contexts.operation_known, Private.Forward.open_with, Refusals.overflow, Refusals.range_reason, Refusals.source_reason, Tallies.reach_of, Tallies.read_range};
ghost use Rattle.star_interval.specs.Range.{only};
ghost use Rattle.star_verify.specs.{Facts.AreFacts, Private.Kept.AreMarked, Private.Kept.HasShares, Private.Kept.flag_at, Private.Made.IsMade, Private.Views.known_in, Views.IsReason};
ghost use Rattle.star_safety.specs.Contexts as contexts;
ghost use Rattle.star_safety.specs.Ranges as ranges;

use crate::facts::{Facts, refers_to};
use crate::known::{Beyond, Known, answer, given, origin_at};
use crate::open_groups::mark_puts;
use crate::register::{Register, known_at};
use crate::tally::Tally;
use crate::totals::{read, tally_at};
use star_interval::Interval;
use star_program::{MOST_AGGREGATES, MOST_GROUPS, Operation, Parts, Step};
use star_safety::Reason;
use star_schema::Aggregate;

// Returns an aggregate of a group, both by number.
fn aggregate_at(parts: &Parts, group: u16, aggregate: u16) -> Aggregate
    requires group { group < length parts.now.groups }
    requires aggregate { aggregate < length (group_at parts.now group).aggregates }
    ensures { result ≡ contexts.aggregate_in_group parts.now group aggregate }
{
    parts.group_at(group).aggregates.as_slice()[aggregate as usize]
}

// Returns the facts of a read of a declared aggregate.
fn read_total(
    parts: &Parts,
    tallies: &[Tally],
    group: u16,
    aggregate: u16,
    default: i64,
) -> Result<Known, Beyond>
    requires group { group < length parts.now.groups }
    requires aggregate { aggregate < length (group_at parts.now group).aggregates }
    requires there { 8 * group + aggregate < length tallies.now }
    ensures { (w : World) (x : Context) → HasShares parts.now tallies.now x
        → IsMade w result (ranges.known_number (read_range
        (contexts.aggregate_in_group parts.now group aggregate) (x.so_far group aggregate)
        (only default)))
        (overflow w (read_range (contexts.aggregate_in_group parts.now group aggregate)
        (x.so_far group aggregate) (only default)) (reach_of (x.so_far group aggregate))) }
{
    let index = MOST_AGGREGATES * group as usize + aggregate as usize;
    read(
        aggregate_at(parts, group, aggregate),
        tally_at(tallies, index),
        default,
    )
}

// Returns the facts of an operation's result.
pub(crate) fn make(
    parts: &Parts,
    facts: &Facts,
    registers: &[Register],
    tallies: &[Tally],
    operation: &Operation,
) -> Result<Known, Beyond>
    requires placed { (inside : Bool) × (target : ℕ)
        × (place_fault parts.now inside (Assign target operation.now) ≡ None) }
    requires there { (g a : ℕ) → g < length parts.now.groups
        → a < length (group_at parts.now g).aggregates → 8 * g + a < length tallies.now }
    ensures { (w : World) (x : Context) (target : ℕ) → AreFacts w facts.now
        → known_in registers.now ≡ x.known → HasShares parts.now tallies.now x
        → IsMade w result (operation_known w parts.now x operation.now)
        (range_reason w parts.now x (Assign target operation.now)) }
{
    match operation {
        Operation::Const { number } => Ok(given(Interval::point(*number))),
        Operation::Edge { column, .. } => Ok(Known::Place(*column)),
        Operation::Load { column, .. } => Ok(facts.loaded(*column)),
        Operation::Find { table, .. } => Ok(Known::Row(*table)),
        Operation::Binary {
            operator,
            left,
            right,
        } => answer(
            *operator,
            known_at(registers, *left).known,
            known_at(registers, *right).known,
        ),
        Operation::Within { .. } | Operation::Not { .. } => Ok(Known::Flag),
        Operation::Read {
            group,
            aggregate,
            default,
        } => read_total(parts, tallies, *group, *aggregate, *default),
    }
}

// Tests whether a group is put to by these steps or is pending already.
fn is_open(pending: [bool; MOST_GROUPS], steps: &[Step], group: u16) -> bool
    requires { group < 8 }
    ensures { (pending_now : ℕ → Bool) → flag_at pending group ≡ pending_now group
        → result ≡ open_with pending_now (code_of_steps steps.now) group }
{
    let mut opened = pending;
    mark_puts(&mut opened, steps);
    opened[group as usize]
}

// Refuses a find by a column that is not a foreign key to its table, and a read of a group that is
// still put to.
pub(crate) fn check_source(
    parts: &Parts,
    registers: &[Register],
    pending: [bool; MOST_GROUPS],
    rest: &[Step],
    operation: &Operation,
) -> Result<(), Reason>
    requires placed { (inside : Bool) × (target : ℕ)
        × (place_fault parts.now inside (Assign target operation.now) ≡ None) }
    requires few { length parts.now.groups ≤ 8 }
    ensures { (x : Context) (pending_now : ℕ → Bool) (target : ℕ) → known_in registers.now ≡ x.known
        → AreMarked parts.now pending pending_now
        → IsReason result (source_reason (open_with pending_now (code_of_steps rest.now)) x
        (Assign target operation.now)) }
{
    match operation {
        Operation::Find { table, key } => {
            if refers_to(*table, origin_at(known_at(registers, *key).known)) {
                Ok(())
            } else {
                Err(Reason::NotAForeignKey)
            }
        }
        Operation::Read { group, .. } => {
            if is_open(pending, rest, *group) {
                Err(Reason::OpenGroup)
            } else {
                Ok(())
            }
        }
        _ => Ok(()),
    }
}
