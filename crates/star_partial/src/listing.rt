// The listing of five tables.

ghost use Rattle.std.specs.{Prelude.{◌≡◌, ◌++◌, IfOk, OnOk, string_bytes}, List.flat_map};
ghost use Rattle.star_interval.specs.Interval.{range_of};
ghost use Rattle.star_schema.specs.{Schema.columns_of, Schema.kind_of, Sizes.size_of};
ghost use Rattle.star_partial.specs.{Contents.bounds_at, Listing.column_text, Listing.listing_text, Listing.table_text};

use star_interval::Interval;
use star_schema::{ColumnId, Kind, Sizes, TABLES, TableId, column_at, kind_of, width};
use std::alloc::{AllocError, Global};
use std::fmt::Write;

/// Returns the bounds of a column, from those of all 58 in order.
pub fn bounds_of(bounds: &[Interval; 58], column: ColumnId) -> Interval
    ensures { range_of result ≡ bounds_at bounds.now column }
{
    bounds[column as usize]
}

// Appends the line of a numeric column; a text column has none.
#[tactic(auto, unfolding(crate::specs::Listing::bounds_line))]
fn push_column(
    text: &mut String,
    bounds: &[Interval; 58],
    column: ColumnId,
) -> Result<(), AllocError>
    ensures { OnOk result (string_bytes text.new
        ≡ string_bytes text.old ++ column_text (bounds_at bounds.now) column (kind_of column)) }
{
    match kind_of(column) {
        Kind::Number => {
            let bounds = bounds_of(bounds, column);
            let low = bounds.low;
            let high = bounds.high;
            writeln!(text, "{column} {low}..{high}")
        }
        Kind::Text => Ok(()),
    }
}

fn push_columns(
    text: &mut String,
    bounds: &[Interval; 58],
    table: TableId,
) -> Result<(), AllocError>
    ensures { OnOk result (string_bytes text.new ≡ string_bytes text.old
        ++ flat_map (λ column. column_text (bounds_at bounds.now) column (kind_of column))
        (columns_of table)) }
{
    for index in 0..width(table) {
        push_column(text, bounds, column_at(table, index))?;
    }
    Ok(())
}

#[tactic(auto, unfolding(crate::specs::Listing::table_line, crate::specs::Listing::table_text))]
fn push_table(
    text: &mut String,
    sizes: Sizes,
    bounds: &[Interval; 58],
    table: TableId,
) -> Result<(), AllocError>
    ensures { OnOk result (string_bytes text.new
        ≡ string_bytes text.old ++ table_text (size_of sizes) (bounds_at bounds.now) table) }
{
    let rows = sizes.of(table);
    writeln!(text, "table {table} rows {rows}")?;
    push_columns(text, bounds, table)
}

/// Returns the listing: the row count of each table and the bounds of its numeric columns, one line
/// each. `bounds` are those of all 58 columns in order.
pub fn list_tables(
    alloc: Global,
    sizes: Sizes,
    bounds: &[Interval; 58],
) -> Result<String, AllocError>
    ensures { IfOk result (λ text.
        string_bytes text ≡ listing_text (size_of sizes) (bounds_at bounds.now)) }
{
    let mut text = String::new(alloc);
    for table in &TABLES {
        push_table(&mut text, sizes, bounds, *table)?;
    }
    Ok(text)
}
