// The group columns and the aggregates that SELECT and ORDER BY name.

ghost use Rattle.std.specs.{Prelude.{◌≡◌, ◌<◌, ◌≤◌, IfSome, length, map, nat_eq}, Cmp.Lexicographic.pointwise, List.position, Option.option_or, Result.result_err};
ghost use Rattle.star_common.specs.First.{first_answer};
ghost use Rattle.star_query.specs.{Maxima.most_columns, Maxima.most_items, Views.name_view, Views.sort_key_view};
ghost use Rattle.star_plan.specs.{Faults.key_fault, Resolved.option_all, Views.names_view, Private.Answers.Resolves, Private.Answers.Reports};
ghost use Rattle.star_plan.specs.Naming as naming;

use crate::fault::PlanFault;
use crate::tree::Aggregate;
use star_query as query;
use star_query::Name;
use star_schema::{GroupColumn, SortKey};
use std::alloc::Global;

fn key_index(groups: &[Name], text: &[u8]) -> Option<usize>
    ensures index { result ≡ position (λ n. pointwise nat_eq n.text.items text.now) groups.now }
    ensures within { IfSome result (λ index. index < length groups.now) }
{
    groups.iter().position(|name| name.text.as_slice() == text)
}

fn aggregate_index(aggregates: &[Aggregate], text: &[u8]) -> Option<usize>
    ensures index { result ≡ position (λ a. pointwise nat_eq a.name.items text.now) aggregates.now }
    ensures within { IfSome result (λ index. index < length aggregates.now) }
{
    aggregates
        .iter()
        .position(|aggregate| aggregate.name.as_slice() == text)
}

/// The group column that reads so.
pub(crate) fn key_column(groups: &[Name], text: &[u8]) -> Option<GroupColumn>
    requires { length groups.now ≤ most_columns }
    ensures { result ≡ naming.key_column (map name_view groups.now) text.now }
{
    match key_index(groups, text) {
        None => None,
        Some(index) => Some(GroupColumn::Key(index as u16)),
    }
}

// The aggregate that is named so.
fn aggregate_column(aggregates: &[Aggregate], text: &[u8]) -> Option<GroupColumn>
    requires { length aggregates.now ≤ most_items }
    ensures { result ≡ naming.aggregate_column (names_view aggregates.now) text.now }
{
    match aggregate_index(aggregates, text) {
        None => None,
        Some(index) => Some(GroupColumn::Aggregate(index as u16)),
    }
}

fn group_column(groups: &[Name], aggregates: &[Aggregate], text: &[u8]) -> Option<GroupColumn>
    requires groups { length groups.now ≤ most_columns }
    requires aggregates { length aggregates.now ≤ most_items }
    ensures { result ≡ option_or (naming.key_column (map name_view groups.now) text.now)
        (naming.aggregate_column (names_view aggregates.now) text.now) }
{
    match key_column(groups, text) {
        Some(column) => Some(column),
        None => aggregate_column(aggregates, text),
    }
}

// What a sort key sorts by, if it is a group column or an aggregate.
fn sort_key(
    groups: &[Name],
    aggregates: &[Aggregate],
    key: &query::SortKey,
) -> Result<SortKey, PlanFault>
    requires groups { length groups.now ≤ most_columns }
    requires aggregates { length aggregates.now ≤ most_items }
    ensures reported { result_err result ≡ key_fault (map name_view groups.now)
        (names_view aggregates.now) (sort_key_view key.now) }
    ensures sorted { Resolves (λ sort. sort) (naming.resolved_key (map name_view groups.now)
        (names_view aggregates.now) (sort_key_view key.now)) result }
{
    let name = &key.name;
    match group_column(groups, aggregates, &name.text) {
        None => Err(PlanFault::UnknownOrderKey { at: name.offset }),
        Some(column) => Ok(SortKey {
            column,
            direction: key.direction,
        }),
    }
}

/// The order of the groups, if each sort key is a group column or an aggregate.
#[tactic(auto, using(crate::proofs::Viewed::answer_passed, crate::proofs::Viewed::answer_whole, crate::proofs::Options::all_more, crate::proofs::Options::all_whole, crate::proofs::Options::all_first))]
pub(crate) fn sort_keys(
    alloc: Global,
    groups: &[Name],
    aggregates: &[Aggregate],
    keys: &[query::SortKey],
) -> Result<Vec<SortKey>, PlanFault>
    requires groups { length groups.now ≤ most_columns }
    requires aggregates { length aggregates.now ≤ most_items }
    ensures reported { Reports (first_answer (key_fault (map name_view groups.now)
        (names_view aggregates.now)) (map sort_key_view keys.now)) result }
    ensures sorted { Resolves (λ sorts. sorts.items)
        (option_all (naming.resolved_key (map name_view groups.now)
        (names_view aggregates.now)) (map sort_key_view keys.now)) result }
{
    let mut sorts = Vec::new(alloc);
    for key in keys {
        sorts.push(sort_key(groups, aggregates, key)?)?;
    }
    Ok(sorts)
}
