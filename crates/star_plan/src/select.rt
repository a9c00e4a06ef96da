// The tables of FROM, the groups and the items of a query.

ghost use Rattle.std.specs.{Prelude.{◌≡◌, ◌+◌, ◌<◌, ◌≤◌, ◌||◌, [], get_or, length, map, nat_eq, take}, List.list_any, Cmp.Lexicographic.pointwise, Result.result_err};
ghost use Rattle.star_query.specs.{Limits.aggregates_in, Maxima.most_columns, Maxima.most_items, Views.aggregate_view, Views.item_view, Views.name_view};
ghost use Rattle.star_plan.specs.{First.first_beside, Names.has_name, Resolved.items_from, Views.names_view, Private.Answers.IsNamedAt, Private.Answers.Resolves, Private.Answers.Reports};
ghost use Rattle.star_plan.specs.Naming as spec;
ghost use Rattle.star_plan.specs.Faults as faults;
ghost use Rattle.star_plan.specs.Private.Stages as stages;

use crate::fault::PlanFault;
use crate::names::{has_name, table_at};
use crate::order::key_column;
use crate::tree::Aggregate;
use star_query as query;
use star_query::{Item, Name};
use star_schema::{GroupColumn, TableId, name_of};
use std::alloc::Global;

// Whether a name is a table's that isn't named before.
fn check_table(before: &[Name], name: &Name) -> Result<(), PlanFault>
    ensures { result_err result ≡ faults.from_table_fault (map name_view before.now)
        (name_view name.now) }
{
    match table_at(name) {
        None => Err(PlanFault::UnknownName { at: name.offset }),
        Some(_) if has_name(before, &name.text) => Err(PlanFault::TableTwice { at: name.offset }),
        Some(_) => Ok(()),
    }
}

#[tactic(auto, using(crate::proofs::Viewed::beside_passed, crate::proofs::Viewed::beside_whole))]
fn check_tables(tables: &[Name]) -> Result<(), PlanFault>
    ensures { result_err result ≡ first_beside faults.from_table_fault (map name_view tables.now) }
{
    for index in 0..tables.len() {
        check_table(&tables[..index], &tables[index])?;
    }
    Ok(())
}

/// Whether FROM names lineorder and other tables, each once.
pub(crate) fn check_from(tables: &[Name]) -> Result<(), PlanFault>
    ensures { result_err result ≡ stages.from_fault (map name_view tables.now) }
{
    check_tables(tables)?;
    if has_name(tables, name_of(TableId::Lineorder).as_bytes()) {
        Ok(())
    } else {
        Err(PlanFault::NoFactTable)
    }
}

fn check_group(before: &[Name], name: &Name) -> Result<(), PlanFault>
    ensures { result_err result ≡ faults.group_fault (map name_view before.now)
        (name_view name.now) }
{
    if has_name(before, &name.text) {
        Err(PlanFault::DuplicateGroup { at: name.offset })
    } else {
        Ok(())
    }
}

/// Whether each group column is named once.
#[tactic(auto, using(crate::proofs::Viewed::beside_passed, crate::proofs::Viewed::beside_whole))]
pub(crate) fn check_groups(groups: &[Name]) -> Result<(), PlanFault>
    ensures { result_err result ≡ first_beside faults.group_fault (map name_view groups.now) }
{
    for index in 0..groups.len() {
        check_group(&groups[..index], &groups[index])?;
    }
    Ok(())
}

fn any_named(aggregates: &[Aggregate], name: &[u8]) -> bool
    ensures { result ≡ list_any (λ a. pointwise nat_eq a.name.items name.now) aggregates.now }
{
    aggregates
        .iter()
        .any(|aggregate| aggregate.name.as_slice() == name)
}

// Whether one of the aggregates has this name.
fn has_aggregate(aggregates: &[Aggregate], name: &[u8]) -> bool
    ensures { result ≡ spec.has_text (names_view aggregates.now) name.now }
{
    any_named(aggregates, name)
}

fn name_offset(aggregate: &query::Aggregate) -> usize
    ensures { result ≡ spec.name_offset (aggregate_view aggregate.now) }
{
    match &aggregate.name {
        Some(name) => name.offset,
        None => aggregate.offset,
    }
}

fn is_taken(groups: &[Name], earlier: &[Aggregate], name: &[u8]) -> bool
    ensures { result ≡ (spec.has_text (names_view earlier.now) name.now
        || has_name (map name_view groups.now) name.now) }
{
    has_aggregate(earlier, name) || has_name(groups, name)
}

// Whether no aggregate before this position, and no group column, has the name of the aggregate there.
fn check_alias(
    groups: &[Name],
    aggregates: &[Aggregate],
    index: u16,
    aggregate: &query::Aggregate,
) -> Result<(), PlanFault>
    requires there { index < length aggregates.now }
    requires named { get_or (names_view aggregates.now) index []
        ≡ spec.name_of_aggregate (index + 1) (aggregate_view aggregate.now) }
    ensures { result_err result ≡ stages.alias_fault (map name_view groups.now)
        (take index (names_view aggregates.now)) (aggregate_view aggregate.now) }
{
    let index = index as usize;
    let name = aggregates[index].name.as_slice();
    if is_taken(groups, &aggregates[..index], name) {
        let at = name_offset(aggregate);
        Err(PlanFault::DuplicateAlias { at })
    } else {
        Ok(())
    }
}

// The cell of an item, after `before` aggregates.
fn show_item(
    groups: &[Name],
    aggregates: &[Aggregate],
    before: u16,
    item: &Item,
) -> Result<GroupColumn, PlanFault>
    requires groups { length groups.now ≤ most_columns }
    requires named { IsNamedAt (names_view aggregates.now) before (item_view item.now) }
    ensures reported { result_err result ≡ faults.item_fault_after (map name_view groups.now)
        (take before (names_view aggregates.now)) (item_view item.now) }
    ensures shown { Resolves (λ column. column) (stages.item_column (map name_view groups.now)
        before (item_view item.now)) result }
{
    match item {
        Item::Column(name) => match key_column(groups, &name.text) {
            Some(column) => Ok(column),
            None => Err(PlanFault::NotGrouped { at: name.offset }),
        },
        Item::Aggregate(aggregate) => {
            check_alias(groups, aggregates, before, aggregate)?;
            Ok(GroupColumn::Aggregate(before))
        }
    }
}

fn aggregates_in(item: &Item) -> u16
    ensures count { result ≡ aggregates_in (item_view item.now) }
    ensures few { result ≤ 1 }
{
    match item {
        Item::Column(_) => 0,
        Item::Aggregate(_) => 1,
    }
}

// The cells of the items, if each plain column is grouped and each aggregate has a new name.
fn show_items(
    alloc: Global,
    groups: &[Name],
    aggregates: &[Aggregate],
    items: &[Item],
) -> Result<Vec<GroupColumn>, PlanFault>
    requires groups { length groups.now ≤ most_columns }
    requires few { length items.now ≤ most_items }
    requires named { names_view aggregates.now ≡ spec.aggregate_names (map item_view items.now) }
    ensures reported { Reports (first_beside (faults.item_fault (map name_view groups.now))
        (map item_view items.now)) result }
    ensures shown { Resolves (λ columns. columns.items)
        (items_from (map name_view groups.now) 0 (map item_view items.now)) result }
{
    let mut columns = Vec::new(alloc);
    let mut before = 0;
    for item in items {
        columns.push(show_item(groups, aggregates, before, item)?)?;
        before += aggregates_in(item);
    }
    Ok(columns)
}

/// What SELECT shows, if there is an aggregate and the items are right.
pub(crate) fn select(
    alloc: Global,
    groups: &[Name],
    aggregates: &[Aggregate],
    items: &[Item],
) -> Result<Vec<GroupColumn>, PlanFault>
    requires groups { length groups.now ≤ most_columns }
    requires few { length items.now ≤ most_items }
    requires named { names_view aggregates.now ≡ spec.aggregate_names (map item_view items.now) }
    ensures reported { Reports (stages.select_fault (map name_view groups.now) (map item_view items.now))
        result }
    ensures shown { Resolves (λ columns. columns.items)
        (items_from (map name_view groups.now) 0 (map item_view items.now)) result }
{
    let columns = show_items(alloc, groups, aggregates, items)?;
    if aggregates.is_empty() {
        return Err(PlanFault::NoAggregate);
    }
    Ok(columns)
}
