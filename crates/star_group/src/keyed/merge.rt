// Rows of different puts merged into one.

ghost use Rattle.std.specs.{Prelude.{◌≡◌, ◌≤◌, ◌<◌, ◌+ℤ◌, ℤ, pos, [], false, not, length, None, Option, Some, slice_index_or, MatchBool, MatchOption}, Option.{option_copied, unwrap_or}};
ghost use Rattle.star_schema.specs.declared.group.Aggregate.TheVariants.{Count};
ghost use Rattle.star_interval.specs.Range.{is_i64, is_i128};
ghost use Rattle.star_program.specs.Puts.{leaves};
ghost use Rattle.star_group.specs.Private.Merged as spec;
ghost use Rattle.star_group.specs.Private.Merged.{IsMerged, IsRowOfOnePut, MergeLeaves, MergeStays, merged_at};

use crate::cell::{Held, Row};
use star_schema::Aggregate;

// An aggregate over some puts and over some others, as one over all of them.
#[tactic(auto, unfolding(star_interval::specs::Range::is_i64, star_interval::specs::Range::is_i128))]
fn merged(aggregate: Aggregate, held: Held, more: Held) -> Held
    requires { leaves aggregate (spec.merged aggregate held more) ≡ false }
    ensures { result ≡ spec.merged aggregate held more }
{
    let (held, more) = (held.number(), more.number());
    match aggregate {
        Aggregate::Sum | Aggregate::Count => Held::new(held + more),
        Aggregate::Min => Held::new(held.min(more)),
        Aggregate::Max => Held::new(held.max(more)),
    }
}

// One position of two rows merged.
fn merged_cell(aggregates: &[Aggregate], held: &[Held], more: &[Held], index: usize) -> Held
    requires index { index < length aggregates.now }
    requires held { length aggregates.now ≤ length held.now }
    requires more { length aggregates.now ≤ length more.now }
    requires stays { leaves (slice_index_or aggregates.now index Count)
        (merged_at aggregates.now held.now more.now index) ≡ false }
    ensures { result ≡ merged_at aggregates.now held.now more.now index }
{
    merged(aggregates[index], held[index], more[index])
}

// A row merged into another.
pub(crate) fn merge_into(aggregates: &[Aggregate], held: &mut [Held], more: &[Held])
    requires held { length aggregates.now ≤ length held.old }
    requires more { length aggregates.now ≤ length more.now }
    requires stays { MergeStays aggregates.now held.old more.now }
    ensures row { IsMerged aggregates.now held.old more.now held.new }
    ensures len { length held.new ≡ length held.old }
{
    for index in 0..aggregates.len() {
        held[index] = merged_cell(aggregates, held, more, index);
    }
}

// Whether the sum of two numbers has 64 bits.
#[tactic(auto, unfolding(star_interval::specs::Range::is_i64))]
fn adds_in_64_bits(left: i128, right: i128) -> bool
    ensures { result ≡ is_i64 (left +ℤ right) }
{
    match left.checked_add(right) {
        Some(sum) => i64::try_from(sum).is_ok(),
        None => false,
    }
}

// Whether the sum of two numbers has 128 bits.
#[tactic(auto, unfolding(star_interval::specs::Range::is_i128))]
fn adds_up(left: i128, right: i128) -> bool
    ensures { result ≡ is_i128 (left +ℤ right) }
{
    left.checked_add(right).is_some()
}

// Whether an aggregate over some puts, which is 0 over none, and over some others doesn't leave its
// bits over all of them.
fn stays(aggregate: Aggregate, held: i128, more: i128) -> bool
    ensures { (before : Option ℤ) → unwrap_or before (pos 0) ≡ held
        → result ≡ not (leaves aggregate (spec.merged aggregate before (Some more))) }
{
    match aggregate {
        Aggregate::Sum => adds_up(held, more),
        Aggregate::Count => adds_in_64_bits(held, more),
        Aggregate::Min | Aggregate::Max => true,
    }
}

// The number at a position of a row, and 0 if there is none.
fn number_in(held: Option<&[Held]>, index: usize) -> i128
    requires { MatchOption held (Unit {0}) (λ row. index < length row.now) }
    ensures { unwrap_or (slice_index_or (unwrap_or (option_copied held.entry) []) index None)
        (pos 0) ≡ result }
{
    match held {
        Some(row) => row[index].number(),
        None => 0,
    }
}

// Whether one position of a row, or of none, doesn't leave its bits with one more row merged in.
fn cell_stays(aggregates: &[Aggregate], held: Option<&[Held]>, more: &[Held], index: usize) -> bool
    requires index { index < length aggregates.now }
    requires held { MatchOption held (Unit {0}) (λ row. length aggregates.now ≤ length row.now) }
    requires more { length aggregates.now ≤ length more.now }
    ensures { result ≡ not (leaves (slice_index_or aggregates.now index Count)
        (merged_at aggregates.now (unwrap_or (option_copied held.entry) []) more.now index)) }
{
    stays(
        aggregates[index],
        number_in(held, index),
        more[index].number(),
    )
}

// Whether no aggregate of a row, or of none, leaves its bits with one more row merged in.
pub(crate) fn row_stays(aggregates: &[Aggregate], held: Option<&[Held]>, more: &[Held]) -> bool
    requires held { MatchOption held (Unit {0}) (λ row. length aggregates.now ≤ length row.now) }
    requires more { length aggregates.now ≤ length more.now }
    ensures { MatchBool result
        (MergeStays aggregates.now (unwrap_or (option_copied held.entry) []) more.now)
        (MergeLeaves aggregates.now (unwrap_or (option_copied held.entry) []) more.now) }
{
    for index in 0..aggregates.len() {
        if !cell_stays(aggregates, held, more, index) {
            return false;
        }
    }
    true
}

// What one put adds to an aggregate.
fn cell_of(aggregate: Aggregate, value: i64) -> i128
    ensures { result ≡ spec.cell_of_one_put aggregate value }
{
    match aggregate {
        Aggregate::Count => 1,
        _ => i128::from(value),
    }
}

// The row of a single put.
pub(crate) fn row_of_put(aggregates: &[Aggregate], values: &[i64]) -> Row
    requires values { length values.now ≡ length aggregates.now }
    requires few { length aggregates.now ≤ 8 }
    ensures { IsRowOfOnePut aggregates.now values.now result }
{
    let mut row = [Held::new(0); 8];
    for index in 0..aggregates.len() {
        row[index] = Held::new(cell_of(aggregates[index], values[index]));
    }
    row
}
