// The columns of the reports of a query's partials.

ghost use Rattle.std.specs.Prelude.{◌≡◌, ◌++◌, IfOk, OnOk, map};
ghost use Rattle.star_plan.specs.Views.{names_view, plan_view};
ghost use Rattle.star_merger.specs.Columns.{key_column, plan_columns, total_column};

use star_partial::ColumnKind;
use star_plan::{Aggregate, PlanTree};
use star_program::{Items, Name};
use star_schema::{ColumnId, is_text, name_of};
use std::alloc::{AllocError, Global};

/// A column of a partial's report: its name, and the kind of its values.
#[derive(Drop)]
pub(crate) struct PartialColumn {
    pub(crate) name: Name,
    pub(crate) kind: ColumnKind,
}

// Returns the column of a key.
fn key_column(alloc: Global, column: ColumnId) -> Result<PartialColumn, AllocError>
    ensures { IfOk result (λ key. key ≡ key_column column) }
{
    let kind = if is_text(column) {
        ColumnKind::TextKey
    } else {
        ColumnKind::NumberKey
    };
    let name = name_of(column).as_bytes().to_vec(alloc)?;
    Ok(PartialColumn {
        name: Items::from_vec(name),
        kind,
    })
}

fn push_keys(
    alloc: Global,
    keys: &[ColumnId],
    columns: &mut Vec<PartialColumn>,
) -> Result<(), AllocError>
    ensures { OnOk result (columns.new.items ≡ columns.old.items ++ map key_column keys.now) }
{
    for key in keys {
        columns.push(key_column(alloc, *key)?)?;
    }
    Ok(())
}

// Returns the column of an aggregate.
fn total_column(alloc: Global, aggregate: &Aggregate) -> Result<PartialColumn, AllocError>
    ensures { IfOk result (λ total. total ≡ total_column aggregate.now.name.items) }
{
    Ok(PartialColumn {
        name: Items::from_vec(aggregate.name.to_vec(alloc)?),
        kind: ColumnKind::Total,
    })
}

fn push_aggregates(
    alloc: Global,
    aggregates: &[Aggregate],
    columns: &mut Vec<PartialColumn>,
) -> Result<(), AllocError>
    ensures { OnOk result
        (columns.new.items ≡ columns.old.items ++ map total_column (names_view aggregates.now)) }
{
    for aggregate in aggregates {
        columns.push(total_column(alloc, aggregate)?)?;
    }
    Ok(())
}

/// Returns the columns of the reports of a query's partials: all keys, and then all aggregates.
pub(crate) fn columns_of(alloc: Global, tree: &PlanTree) -> Result<Vec<PartialColumn>, AllocError>
    ensures { IfOk result (λ columns. columns.items ≡ plan_columns (plan_view tree.now)) }
{
    let mut columns = Vec::new(alloc);
    push_keys(alloc, &tree.keys, &mut columns)?;
    push_aggregates(alloc, &tree.aggregates, &mut columns)?;
    Ok(columns)
}
