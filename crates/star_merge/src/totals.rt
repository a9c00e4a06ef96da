// Aggregates over some rows and over others, as those over both.

ghost use Rattle.std.specs.Prelude.{◌≡◌, ◌++◌, ◌+◌, ◌<◌, ◌^◌, [], false, IfErr, IfOk, MatchOption, OnOk};
ghost use Rattle.star_interval.specs.Range.{is_i128};
ghost use Rattle.star_schema.specs.Groups.{aggregate};
ghost use Rattle.star_merge_laws.specs.Merging.{both, merged, merged_totals};
ghost use Rattle.star_merge.specs.{Merged.distance, Private.Adding.AddUpSmall, Private.Adding.over_nothing, declared.fault.MergeFault.TheVariants.OutOfMemory};

use crate::fault::{MergeFault, push};
use star_schema::Aggregate;
use std::alloc::{AllocError, Global};

// An aggregate over some rows and one over others, as one over both; none if it leaves 128 bits.
#[tactic(auto, unfolding(star_interval::specs::Range::is_i128))]
fn merge_number(aggregate: Aggregate, number: i128, more: i128) -> Option<i128>
    ensures { MatchOption result (is_i128 (both aggregate number more) ≡ false)
        (λ merged. merged ≡ both aggregate number more) }
{
    match aggregate {
        Aggregate::Sum | Aggregate::Count => number.checked_add(more),
        Aggregate::Min => Some(number.min(more)),
        Aggregate::Max => Some(number.max(more)),
    }
}

// The same of aggregates that may be NULL.
fn merge_total(
    aggregate: Aggregate,
    total: Option<i128>,
    more: Option<i128>,
) -> Result<Option<i128>, MergeFault>
    ensures merged { IfOk result (λ both. both ≡ merged aggregate total more) }
    ensures small { distance total + distance more < 2 ^ 127
        → IfErr result (λ fault. fault ≡ OutOfMemory) }
{
    match (total, more) {
        (None, more) => Ok(more),
        (Some(total), None) => Ok(Some(total)),
        (Some(total), Some(more)) => match merge_number(aggregate, total, more) {
            Some(number) => Ok(Some(number)),
            None => Err(MergeFault::Overflow),
        },
    }
}

// Adds the merged aggregates of two groups to a list.
fn push_merged(
    aggregates: &[Aggregate],
    totals: &[Option<i128>],
    more: &[Option<i128>],
    merged: &mut Vec<Option<i128>>,
) -> Result<(), MergeFault>
    ensures merged { OnOk result (merged.new.items
        ≡ merged.old.items ++ merged_totals aggregates.now totals.now more.now) }
    ensures small { AddUpSmall totals.now more.now → IfErr result (λ fault. fault ≡ OutOfMemory) }
{
    match (
        aggregates.split_first(),
        totals.split_first(),
        more.split_first(),
    ) {
        (Some((aggregate, aggregates)), Some((total, totals)), Some((next, more))) => {
            push(merged, merge_total(*aggregate, *total, *next)?)?;
            push_merged(aggregates, totals, more, merged)
        }
        _ => Ok(()),
    }
}

// The merged aggregates of two groups.
pub(crate) fn merge_totals(
    alloc: Global,
    aggregates: &[Aggregate],
    totals: &[Option<i128>],
    more: &[Option<i128>],
) -> Result<Vec<Option<i128>>, MergeFault>
    ensures merged { IfOk result
        (λ merged. merged.items ≡ merged_totals aggregates.now totals.now more.now) }
    ensures small { AddUpSmall totals.now more.now → IfErr result (λ fault. fault ≡ OutOfMemory) }
{
    let mut merged = Vec::with_capacity(alloc, aggregates.len())?;
    push_merged(aggregates, totals, more, &mut merged)?;
    Ok(merged)
}

// An aggregate over no rows.
fn total_over_none(function: Aggregate) -> Option<i128>
    ensures { result ≡ aggregate function [] }
{
    match function {
        Aggregate::Count => Some(0),
        Aggregate::Sum | Aggregate::Min | Aggregate::Max => None,
    }
}

// Aggregates over no rows.
#[tactic(auto, using(crate::proofs::Steps::nothing_is))]
pub(crate) fn totals_over_none(
    alloc: Global,
    aggregates: &[Aggregate],
) -> Result<Vec<Option<i128>>, AllocError>
    ensures { IfOk result (λ totals. totals.items ≡ over_nothing aggregates.now) }
{
    let mut totals = Vec::with_capacity(alloc, aggregates.len())?;
    for aggregate in aggregates {
        totals.push(total_over_none(*aggregate))?;
    }
    Ok(totals)
}
