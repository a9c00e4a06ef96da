// How a plan is made: its names are resolved, and its faults reported in their order.

ghost use Rattle.std.specs.Prelude.{◌≡◌, ◌≤◌, Some, IfErr, IfOk, length, map};
ghost use Rattle.star_common.specs.Memory.{UnlessMemory};
ghost use Rattle.star_query.specs.{Maxima.most_columns, Maxima.most_items, Views.name_view, Views.tree_view};
ghost use Rattle.star_plan.specs.{declared.fault.PlanFault.TheVariants.OutOfMemory, Private.Answers.{Resolves, Reports}, Private.Found.{pairs_view, uses_view}, Faults.plan_fault, Private.Stages.{grouping_fault, naming_fault}, Joins.where_pairs, Naming.{aggregate_names, resolved_key}, Uses.uses_of, WellNamed.IsWellNamed, Resolved.{IsResolved, items_from, option_all}, Views.{names_view, plan_view}};
ghost use Rattle.star_plan.specs.Joins as spec;

use crate::fault::PlanFault;
use crate::joins::{Pair, check_joins, joins_of, pairs_of};
use crate::order::sort_keys;
use crate::plans::Plan;
use crate::resolve::{resolve_aggregates, resolve_groups, resolve_where};
use crate::select::{check_from, check_groups, select};
use crate::tree::{Aggregate, Join, PlanTree};
use crate::uses::{Use, check_kinds, check_scope, uses_of};
use star_query::law::meant_trees_are_within_limits;
use star_query::{Name, Query, Tree};
use star_schema::{GroupColumn, SortKey};
use std::alloc::Global;

fn check_naming(tables: &[Name], uses: &[Use], pairs: &[Pair]) -> Result<(), PlanFault>
    ensures { Reports (naming_fault (map name_view tables.now) (uses_view uses.now)
        (pairs_view pairs.now)) result }
{
    check_from(tables)?;
    check_scope(tables, uses)?;
    check_joins(tables, pairs)?;
    check_kinds(uses)
}

// The joins of a query, if nothing is wrong with its names of tables and columns.
fn check_names(alloc: Global, tree: &Tree) -> Result<Vec<Join>, PlanFault>
    ensures reported { Reports (naming_fault (tree_view tree.now).tables (uses_of (tree_view tree.now))
        (where_pairs (tree_view tree.now).condition)) result }
    ensures joins { IfOk result (λ joins. joins.items
        ≡ spec.joins_of (where_pairs (tree_view tree.now).condition)) }
{
    let uses = uses_of(alloc, tree)?;
    let pairs = pairs_of(alloc, &tree.condition)?;
    check_naming(&tree.tables, &uses, &pairs)?;
    Ok(joins_of(alloc, &pairs)?)
}

// The items that are shown of a group, and their order.
#[derive(Drop)]
struct Shown {
    items: Vec<GroupColumn>,
    sorts: Vec<SortKey>,
}

// What SELECT and ORDER BY say, if nothing is wrong with them and GROUP BY.
fn show(alloc: Global, tree: &Tree, aggregates: &[Aggregate]) -> Result<Shown, PlanFault>
    requires items { length tree.now.items.items ≤ most_items }
    requires groups { length tree.now.grouping.columns.items ≤ most_columns }
    requires few { length aggregates.now ≤ length tree.now.items.items }
    requires named { names_view aggregates.now ≡ aggregate_names (tree_view tree.now).items }
    ensures reported { Reports (grouping_fault (tree_view tree.now).grouping.columns
        (tree_view tree.now).items (tree_view tree.now).keys) result }
    ensures items { Resolves (λ shown. shown.items.items)
        (items_from (tree_view tree.now).grouping.columns 0 (tree_view tree.now).items) result }
    ensures sorts { Resolves (λ shown. shown.sorts.items)
        (option_all (resolved_key (tree_view tree.now).grouping.columns
        (aggregate_names (tree_view tree.now).items)) (tree_view tree.now).keys) result }
{
    let groups = &tree.grouping.columns;
    check_groups(groups)?;
    let items = select(alloc, groups, aggregates, &tree.items)?;
    let sorts = sort_keys(alloc, groups, aggregates, &tree.keys)?;
    Ok(Shown { items, sorts })
}

// The query with its names resolved, if nothing is wrong with them.
fn resolve(alloc: Global, tree: &Tree) -> Result<PlanTree, PlanFault>
    requires items { length tree.now.items.items ≤ most_items }
    requires groups { length tree.now.grouping.columns.items ≤ most_columns }
    ensures reported { Reports (plan_fault (tree_view tree.now)) result }
    ensures resolved { IfOk result (λ plan. IsResolved (tree_view tree.now) (plan_view plan)) }
{
    let joins = check_names(alloc, tree)?;
    let aggregates = resolve_aggregates(alloc, &tree.items)?;
    let Shown { items, sorts } = show(alloc, tree, &aggregates)?;
    Ok(PlanTree {
        joins,
        conjuncts: resolve_where(alloc, &tree.condition)?,
        shape: tree.grouping.shape,
        keys: resolve_groups(alloc, &tree.grouping.columns)?,
        aggregates,
        items,
        sorts,
    })
}

/// The plan of a query, exactly if the query is well named; else the first fault. Out of memory
/// may come before it.
pub fn plan(alloc: Global, query: &Query) -> Result<Plan, PlanFault>
    // Only a well named query has one.
    ensures named { IfOk result (λ _. IsWellNamed (tree_view query.now)) }
    // Its tree is the query's, with the names resolved.
    ensures resolved { IfOk result (λ plan. IsResolved (tree_view query.now) (plan_view plan)) }
    // A refusal is the first fault.
    ensures refused { IfErr result (λ fault. UnlessMemory OutOfMemory fault
        (plan_fault (tree_view query.now) ≡ Some fault)) }
{
    meant_trees_are_within_limits();
    let query = query.tree();
    let tree = resolve(alloc, query)?;
    Ok(Plan { tree })
}
