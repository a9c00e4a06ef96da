// The declarations of a program: its group, and the shown columns and their order.

ghost use Rattle.std.specs.{Prelude.{◌≡◌, ◌≤◌, true, length, map, IfOk}, List.list_all};
ghost use Rattle.star_plan.specs.{Meaning.aggregate_of, Views.column_measure_view, Views.measures_view, Views.plan_view, Sound.is_group_column};
ghost use Rattle.star_merge_laws.specs.Plain.{plain_plan};
ghost use Rattle.star_query_meaning.specs.Answers.{shown_name};
ghost use Rattle.star_compile_laws.specs.Compiled as spec;

use star_plan::PlanTree;
use star_program::{GroupDecl, GroupKey, Items, Show};
use star_query::{Fold, Measure};
use star_schema::{Aggregate, ColumnId, GroupColumn, Shape, is_text, name_of};
use std::alloc::{AllocError, Global};

fn key_of(column: ColumnId) -> GroupKey
    ensures { result ≡ spec.key_of_group column }
{
    if is_text(column) {
        GroupKey::Text(column)
    } else {
        GroupKey::Number
    }
}

fn keys(alloc: Global, columns: &[ColumnId]) -> Result<Vec<GroupKey>, AllocError>
    ensures { IfOk result (λ keys. keys.items ≡ map spec.key_of_group columns.now) }
{
    columns.iter().map(|column| key_of(*column)).collect(alloc)
}

fn aggregate(measure: &Measure<ColumnId>) -> Aggregate
    ensures { result ≡ aggregate_of (column_measure_view measure.now) }
{
    match measure {
        Measure::Count => Aggregate::Count,
        Measure::Fold(Fold::Sum, _) => Aggregate::Sum,
        Measure::Fold(Fold::Min, _) => Aggregate::Min,
        Measure::Fold(Fold::Max, _) => Aggregate::Max,
    }
}

fn aggregates(
    alloc: Global,
    aggregates: &[star_plan::Aggregate],
) -> Result<Vec<Aggregate>, AllocError>
    ensures { IfOk result (λ declared.
        declared.items ≡ map aggregate_of (measures_view aggregates.now)) }
{
    let mut declared = Vec::new(alloc);
    for each in aggregates {
        declared.push(aggregate(&each.measure))?;
    }
    Ok(declared)
}

/// Returns the group of a plan with a shape: its keys as texts or numbers, and its aggregates.
pub(crate) fn group(alloc: Global, tree: &PlanTree, shape: Shape) -> Result<GroupDecl, AllocError>
    ensures { IfOk result (λ group. group
        ≡ record {
          shape = shape;
          keys = map spec.key_of_group tree.now.keys.items;
          aggregates =
              map aggregate_of (measures_view tree.now.aggregates.items);
        }) }
{
    Ok(GroupDecl {
        shape,
        keys: Items::from_vec(keys(alloc, &tree.keys)?),
        aggregates: Items::from_vec(aggregates(alloc, &tree.aggregates)?),
    })
}

// Returns the name of a shown column of the group.
fn name(alloc: Global, tree: &PlanTree, column: GroupColumn) -> Result<Vec<u8>, AllocError>
    requires there { is_group_column
        (length tree.now.keys.items) (length tree.now.aggregates.items) column ≡ true }
    ensures { IfOk result (λ name. name.items ≡ shown_name (plan_view tree.now) column) }
{
    match column {
        GroupColumn::Key(index) => {
            Vec::from_slice(alloc, name_of(tree.keys[index as usize]).as_bytes())
        }
        GroupColumn::Aggregate(index) => tree.aggregates[index as usize].name.clone(),
    }
}

/// Returns the shown columns of the group, each with its name.
pub(crate) fn shows(
    alloc: Global,
    tree: &PlanTree,
    items: &[GroupColumn],
) -> Result<Vec<Show>, AllocError>
    requires there { list_all (is_group_column (length tree.now.keys.items)
        (length tree.now.aggregates.items)) items.now ≡ true }
    ensures { IfOk result (λ shows.
        shows.items ≡ map (spec.plan_show (plan_view tree.now)) items.now) }
{
    let mut shows = Vec::new(alloc);
    for column in items {
        let name = Items::from_vec(name(alloc, tree, *column)?);
        let show = Show {
            name,
            column: *column,
        };
        shows.push(show)?;
    }
    Ok(shows)
}

/// Returns the columns of a plan's groups: all keys, and then all aggregates.
pub(crate) fn plain_columns(alloc: Global, tree: &PlanTree) -> Result<Vec<GroupColumn>, AllocError>
    requires keys { length tree.now.keys.items ≤ 6 }
    requires aggregates { length tree.now.aggregates.items ≤ 8 }
    ensures { IfOk result (λ columns. columns.items ≡ (plain_plan (plan_view tree.now)).items) }
{
    let mut columns = Vec::new(alloc);
    for index in 0..tree.keys.len() {
        columns.push(GroupColumn::Key(index as u16))?;
    }
    for index in 0..tree.aggregates.len() {
        columns.push(GroupColumn::Aggregate(index as u16))?;
    }
    Ok(columns)
}
