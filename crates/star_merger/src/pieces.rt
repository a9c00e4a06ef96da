// The pieces of a partial's text, read.

ghost use Rattle.std.specs.Prelude.{◌≡◌, ◌+◌, OnOk, length};

use crate::columns::PartialColumn;
use crate::fields::{FieldFault, Fields};
use crate::partial::{Partial, Run};
use star_interval::Interval;
use star_merge::FlatRows;
use star_partial::{LineKey, Span};
use star_program::{Items, KeptCell, Name};
use star_schema::{ColumnId, Kind, Sizes, TABLES, TableId, column_at, kind_of, width};
use std::alloc::Global;

// Reads the line of the span.
fn span_of(fields: &mut Fields<'_>) -> Result<Option<Span>, FieldFault> {
    fields.skip(b"keys ")?;
    if fields.skip(b"none\n").is_ok() {
        return Ok(None);
    }
    let low = LineKey {
        order: fields.number(b' ')?,
        line: fields.number(b' ')?,
    };
    let high = LineKey {
        order: fields.number(b' ')?,
        line: fields.number(b'\n')?,
    };
    Ok(Some(Span { low, high }))
}

// Reads the line of a numeric column. A text column has none.
fn bounds_of(
    alloc: Global,
    fields: &mut Fields<'_>,
    column: ColumnId,
) -> Result<Interval, FieldFault> {
    match kind_of(column) {
        Kind::Text => Ok(Interval::point(0)),
        Kind::Number => {
            let name = format!(in alloc; "{column} ")?;
            fields.skip(name.as_bytes())?;
            let low = fields.number(b'.')?;
            fields.skip(b".")?;
            let high = fields.number(b'\n')?;
            if low <= high {
                Ok(Interval { low, high })
            } else {
                Err(FieldFault::Unreadable)
            }
        }
    }
}

// Reads the lines of a table's columns.
fn read_columns(
    alloc: Global,
    fields: &mut Fields<'_>,
    table: TableId,
    bounds: &mut [Interval; 58],
) -> Result<(), FieldFault> {
    for index in 0..width(table) {
        let column = column_at(table, index);
        bounds[column as usize] = bounds_of(alloc, fields, column)?;
    }
    Ok(())
}

// Reads the lines of a table, and returns its row count.
fn read_table(
    alloc: Global,
    fields: &mut Fields<'_>,
    table: TableId,
    bounds: &mut [Interval; 58],
) -> Result<u32, FieldFault> {
    let head = format!(in alloc; "table {table} rows ")?;
    fields.skip(head.as_bytes())?;
    let Ok(rows) = u32::try_from(fields.count(b'\n')?) else {
        return Err(FieldFault::Unreadable);
    };
    read_columns(alloc, fields, table, bounds)?;
    Ok(rows)
}

// Reads the listing of five tables: their row counts and bounds.
fn read_listing(
    alloc: Global,
    fields: &mut Fields<'_>,
    bounds: &mut [Interval; 58],
) -> Result<Sizes, FieldFault> {
    Ok(Sizes {
        date: read_table(alloc, fields, TableId::Date, bounds)?,
        customer: read_table(alloc, fields, TableId::Customer, bounds)?,
        supplier: read_table(alloc, fields, TableId::Supplier, bounds)?,
        part: read_table(alloc, fields, TableId::Part, bounds)?,
        lineorder: read_table(alloc, fields, TableId::Lineorder, bounds)?,
    })
}

// Reads the line of a run's counts: visits, look-ups and updates.
fn read_counts(fields: &mut Fields<'_>) -> Result<(u64, u64, u64), FieldFault> {
    fields.skip(b"visits ")?;
    let visits = fields.count(b' ')?;
    fields.skip(b"lookups ")?;
    let lookups = fields.count(b' ')?;
    fields.skip(b"updates ")?;
    let updates = fields.count(b'\n')?;
    Ok((visits, lookups, updates))
}

// Returns the byte after a field of a line with `width` fields.
fn end_of(index: usize, width: usize) -> u8 {
    if width.saturating_sub(index) == 1 {
        b'\n'
    } else {
        b'|'
    }
}

// Reads the line of the columns' names.
fn read_names(
    alloc: Global,
    fields: &mut Fields<'_>,
    columns: &[PartialColumn],
) -> Result<Items<Name>, FieldFault> {
    let mut names = Vec::with_capacity(alloc, columns.len())?;
    for index in 0..columns.len() {
        let name = &columns[index].name;
        fields.skip(name.as_slice())?;
        fields.skip(&[end_of(index, columns.len())])?;
        names.push(Items::from_vec(name.as_slice().to_vec(alloc)?))?;
    }
    Ok(Items::from_vec(names))
}

// Reads a row, and appends its cells.
fn read_row(
    alloc: Global,
    fields: &mut Fields<'_>,
    columns: &[PartialColumn],
    cells: &mut Vec<KeptCell>,
) -> Result<(), FieldFault>
    ensures { OnOk result (length cells.new.items ≡ length cells.old.items + length columns.now) }
{
    for index in 0..columns.len() {
        let end = end_of(index, columns.len());
        let cell = fields.cell(alloc, columns[index].kind, end)?;
        cells.push(KeptCell::new(alloc, cell)?)?;
    }
    Ok(())
}

// Reads the rows of a report.
fn read_rows(
    alloc: Global,
    fields: &mut Fields<'_>,
    columns: &[PartialColumn],
    count: usize,
) -> Result<FlatRows, FieldFault> {
    let mut cells = Vec::new(alloc);
    for _ in 0..count {
        if fields.rest.is_empty() {
            return Err(FieldFault::Unreadable);
        }
        read_row(alloc, fields, columns, &mut cells)?;
    }
    Ok(FlatRows::of_cells(alloc, columns.len(), count, &cells)?)
}

// Reads the outcome of the plain program, and the line before its rows.
fn read_outcome(
    alloc: Global,
    fields: &mut Fields<'_>,
    columns: &[PartialColumn],
) -> Result<Run, FieldFault> {
    let (visits, lookups, updates) = read_counts(fields)?;
    fields.skip(b"rows ")?;
    let Ok(count) = usize::try_from(fields.count(b'\n')?) else {
        return Err(FieldFault::Unreadable);
    };
    let names = read_names(alloc, fields, columns)?;
    let rows = read_rows(alloc, fields, columns, count)?;
    Ok(Run {
        names,
        rows,
        visits,
        lookups,
        updates,
    })
}

fn read_run(
    alloc: Global,
    fields: &mut Fields<'_>,
    columns: &[PartialColumn],
) -> Result<Option<Run>, FieldFault> {
    if fields.skip(b"refused\n").is_ok() {
        Ok(None)
    } else {
        Ok(Some(read_outcome(alloc, fields, columns)?))
    }
}

/// Reads a partial after its query, up to the end of the text.
pub(crate) fn read_contents(
    alloc: Global,
    fields: &mut Fields<'_>,
    columns: &[PartialColumn],
) -> Result<Partial, FieldFault> {
    fields.skip(b"dimensions ")?;
    let digest = fields.digest()?;
    let span = span_of(fields)?;
    let mut bounds = [Interval::point(0); 58];
    let sizes = read_listing(alloc, fields, &mut bounds)?;
    let run = read_run(alloc, fields, columns)?;
    if fields.rest.is_empty() {
        Ok(Partial {
            digest,
            span,
            sizes,
            bounds,
            run,
        })
    } else {
        Err(FieldFault::Unreadable)
    }
}
