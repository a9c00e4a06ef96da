// Groups with equal keys as one.

ghost use Rattle.std.specs.{Prelude.{◌≡◌, ◌∷◌, IfErr, IfOk, IsPermutation, OnOk, reverse}, List.Sorted.IsSortedBy, Ordering.is_lt};
ghost use Rattle.star_schema.specs.Order.{value_cmp};
ghost use Rattle.star_merge_laws.specs.Merging.{merged_totals};
ghost use Rattle.star_merge.specs.{Private.Adding.{AddUpSmall, AreSmallByKeys, AreSums, ReachNoFarther, alone, onto, over_nothing, together}, Private.RowOrder.row_order, declared.fault.MergeFault.TheVariants.OutOfMemory};

use crate::fault::{MergeFault, push};
use crate::group::{Group, compare_groups};
use crate::totals::{merge_totals, totals_over_none};
use star_schema::{Aggregate, SortKey};
use std::alloc::{AllocError, Global};

// Sorts groups by the sort keys, and then by all their keys. The sort makes use of groups that are in
// order already, as those of each partial.
pub(crate) fn sort_groups(groups: &mut Vec<Group>, sorts: &[SortKey]) -> Result<(), AllocError>
    ensures moved { IsPermutation groups.old.items groups.new.items }
    ensures sorted { OnOk result
        (IsSortedBy (λ a b. is_lt (row_order sorts.now a b)) groups.new.items) }
{
    groups.sort_by(|a, b| compare_groups(sorts, a, b))?;
    Ok(())
}

// A group with these totals merged in.
fn merge_into(
    alloc: Global,
    aggregates: &[Aggregate],
    group: Group,
    more: &[Option<i128>],
) -> Result<Group, MergeFault>
    ensures merged { IfOk result (λ merged. merged
        ≡ record { keys = group.keys; totals = merged_totals aggregates.now group.totals more.now }) }
    ensures small { AddUpSmall group.totals more.now → IfErr result (λ fault. fault ≡ OutOfMemory) }
{
    let totals = merge_totals(alloc, aggregates, group.totals(), more)?;
    Ok(group.with_totals(totals))
}

// Adds a group to a list whose last group comes after it: merged into that if it has the same keys.
#[tactic(auto, using(crate::proofs::Steps::pushed_none, crate::proofs::Steps::pushed_same, crate::proofs::Steps::pushed_other))]
fn push_group(
    alloc: Global,
    aggregates: &[Aggregate],
    nothing: &[Option<i128>],
    groups: &mut Vec<Group>,
    group: Group,
) -> Result<(), MergeFault>
    requires { nothing.now ≡ over_nothing aggregates.now }
    ensures pushed { OnOk result (reverse groups.new.items
        ≡ onto value_cmp aggregates.now group (reverse groups.old.items)) }
    ensures small { AreSmallByKeys (group ∷ reverse groups.old.items)
        → IfErr result (λ fault. fault ≡ OutOfMemory) }
{
    match groups.pop() {
        None => push(groups, merge_into(alloc, aggregates, group, nothing)?)?,
        Some(last) => {
            if group.has_keys_of(&last) {
                push(groups, merge_into(alloc, aggregates, group, last.totals())?)?;
            } else {
                push(groups, last)?;
                push(groups, merge_into(alloc, aggregates, group, nothing)?)?;
            }
        }
    }
    Ok(())
}

// Merges neighbours with equal keys. The groups come out in reverse order.
fn merge_neighbours(
    alloc: Global,
    aggregates: &[Aggregate],
    groups: Vec<Group>,
) -> Result<Vec<Group>, MergeFault>
    ensures merged { IfOk result
        (λ merged. reverse merged.items ≡ together value_cmp aggregates.now groups.items) }
    ensures small { AreSmallByKeys groups.items → IfErr result (λ fault. fault ≡ OutOfMemory) }
{
    let nothing = totals_over_none(alloc, aggregates)?;
    let mut rest = groups;
    let mut merged = Vec::new(alloc);
    while let Some(group) = rest.pop() {
        push_group(alloc, aggregates, &nothing, &mut merged, group)?;
    }
    Ok(merged)
}

// Merges all groups with equal keys.
pub(crate) fn add_up(
    alloc: Global,
    aggregates: &[Aggregate],
    groups: Vec<Group>,
) -> Result<Vec<Group>, MergeFault>
    ensures sums { IfOk result (λ sums. AreSums value_cmp aggregates.now groups.items sums.items) }
    ensures within { IfOk result (λ sums. ReachNoFarther sums.items groups.items) }
    ensures small { AreSmallByKeys groups.items → IfErr result (λ fault. fault ≡ OutOfMemory) }
{
    let mut sorted = groups;
    sort_groups(&mut sorted, &[])?;
    merge_neighbours(alloc, aggregates, sorted)
}
