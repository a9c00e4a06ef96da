// The row counts and column bounds that the check of a program needs.

ghost use Rattle.std.specs.Prelude.{◌≡◌, IfOk, None, slice_index_or};
ghost use Rattle.star_schema.specs.Schema.{index_of};
ghost use Rattle.star_interval.specs.Interval.{range_of};
ghost use Rattle.star_world.specs.WorldOf.{world_of};
ghost use Rattle.star_program.specs.World.{World};
ghost use Rattle.star_verify.specs.{Facts.AreFacts, Private.Views.known_view, Private.Views.reach_view};
ghost use Rattle.star_program.specs.World as world;
ghost use Rattle.star_safety.specs.Ranges as ranges;
ghost use Rattle.star_safety.specs.Refusals as refusals;

use crate::known::Known;
use crate::reach::Reach;
use star_catalogue::Catalogue;
use star_interval::Interval;
use star_safety::{Reached, ReachedColumns};
use star_schema::{COLUMNS, ColumnId, Sizes, TableId, is_table, is_text, references};
use std::alloc::{AllocError, Global};

/// Row counts and column bounds of some tables. Over tables with equal facts the same programs are
/// accepted, with the same quotes, and the same refusals are returned.
#[derive(Clone, Copy)]
pub struct Facts {
    /// The row counts.
    pub sizes: Sizes,
    /// The least and the greatest number of each of the 58 columns, in order. They are 0 and 0 for
    /// text columns, and for columns without rows.
    pub bounds: [Interval; 58],
}

// Returns the least and the greatest number of a column, 0 and 0 for a text column.
fn column_bounds(catalogue: &Catalogue, column: ColumnId) -> Interval
    ensures { range_of result ≡ (world_of catalogue.now).bounds column }
{
    catalogue.law();
    if is_text(column) {
        Interval::point(0)
    } else {
        catalogue.bounds(column)
    }
}

impl Facts {
    /// Returns the facts of a catalogue.
    pub fn of(catalogue: &Catalogue) -> Facts
        ensures { AreFacts (world_of catalogue.now) result }
    {
        let mut bounds = [Interval::point(0); 58];
        for column in &COLUMNS {
            bounds[*column as usize] = column_bounds(catalogue, *column);
        }
        Facts {
            sizes: catalogue.sizes(),
            bounds,
        }
    }

    // Returns the least and the greatest number of a column.
    pub(crate) fn bounds(&self, column: ColumnId) -> Interval
        ensures { result ≡ slice_index_or self.now.bounds (index_of column) result }
    {
        self.bounds[column as usize]
    }

    fn with_bounds(&self, column: ColumnId) -> Reached
        ensures { (w : World) → AreFacts w self.now → result ≡ refusals.with_bounds w column }
    {
        let bounds = self.bounds(column);
        Reached {
            column,
            low: bounds.low,
            high: bounds.high,
        }
    }

    // Returns the register fact of a column's value.
    pub(crate) fn loaded(&self, column: ColumnId) -> Known
        ensures { (w : World) → AreFacts w self.now
            → (known_view result ≡ ranges.loaded_known w column (world.is_text column))
            × (refusals.overflow_of w (ranges.loaded_known w column (world.is_text column))
            ≡ None) }
    {
        if is_text(column) {
            return Known::Text(column);
        }
        Known::Number {
            range: self.bounds(column),
            reach: Reach::only(column),
            origin: Some(column),
        }
    }

    // Returns the columns of a set in order, each with its bounds.
    pub(crate) fn reached(&self, alloc: Global, reach: Reach) -> Result<ReachedColumns, AllocError>
        ensures { (w : World) → AreFacts w self.now
            → IfOk result (λ columns. columns ≡ refusals.reached w (reach_view reach)) }
    {
        let mut columns = Vec::new(alloc);
        for column in &COLUMNS {
            if reach.has(*column) {
                columns.push(self.with_bounds(*column))?;
            }
        }
        Ok(ReachedColumns::from_vec(columns))
    }
}

fn is_some_table(table: TableId, other: Option<TableId>) -> bool
    ensures { result ≡ refusals.is_some_table table other }
{
    match other {
        Some(other) => is_table(table, other),
        None => false,
    }
}

// Tests whether a column is a foreign key to the table.
pub(crate) fn refers_to(table: TableId, column: Option<ColumnId>) -> bool
    ensures { result ≡ refusals.refers_to table column }
{
    match column {
        Some(column) => is_some_table(table, references(column)),
        None => false,
    }
}
