// Whether a partial that was read is well-formed.

ghost use Rattle.std.specs.{Prelude.{◌≡◌, ◌<◌, ◌^◌, ℕ, All, IfSome, List, length, true}, List.AllZip};
ghost use Rattle.star_schema.specs.{Database.Database, declared.column.ColumnId.ColumnId as Column, declared.table.TableId.TableId, Sizes.size_of};
ghost use Rattle.star_report.specs.Columns.{AreRowsOf, HasDigits, IsCellOfKind, is_field};
ghost use Rattle.star_partial.specs.Contents.{bounds_at, contents_of};
ghost use Rattle.star_engine.specs.{Loads.AreLoadedRows, Loads.AreOfLoadableTexts, Partials.IsPartialOver};
ghost use Rattle.star_merger.specs.{Columns.column_kinds, Columns.column_names, Columns.kind_view, Columns.plan_columns, Private.Digits.HasCellDigits, Spelled.HasBounds, Spelled.HasCounts, Spelled.IsSpelled, Spelled.IsSpelledKey, Spelled.IsSpelledRun, Spelled.IsSpelledSpan};

use crate::columns::PartialColumn;
use star_interval::Interval;
use star_partial::{ColumnKind, LineKey, Partial, Span, bounds_of};
use star_program::{CellRows, CellView, KeptCell, Name, Outcome};
use star_schema::{COLUMNS, ColumnId, Sizes, is_text};

fn count_law(count: u64)
    ensures { count < 10 ^ 64 }
{}

fn counts_law(outcome: &Outcome)
    ensures { HasCounts outcome.now }
{
    count_law(outcome.rows.len() as u64);
    count_law(outcome.visits);
    count_law(outcome.lookups);
    count_law(outcome.updates);
}

fn cell_law(cell: &KeptCell)
    ensures { HasCellDigits cell.now }
{
    if let CellView::Number(number) = cell.as_view() {
        let _size = number.unsigned_abs();
    }
}

fn row_law(row: &[KeptCell])
    ensures { All HasCellDigits row.now }
{
    for cell in row {
        cell_law(cell);
    }
}

fn rows_law(rows: &CellRows)
    ensures { All (All HasCellDigits) rows.now }
{
    for number in 0..rows.len() {
        row_law(rows.row(number));
    }
}

// States that the numbers of an outcome have at most 64 digits.
fn run_law(run: &Option<Outcome>)
    ensures counts { IfSome run.now HasCounts }
    ensures cells { IfSome run.now (λ outcome. All (All HasCellDigits) outcome.rows) }
{
    if let Some(outcome) = run {
        counts_law(outcome);
        rows_law(&outcome.rows);
    }
}

fn digits_law(number: i64)
    ensures { HasDigits number }
{
    let _size = number.unsigned_abs();
}

fn key_law(key: LineKey)
    ensures { IsSpelledKey key }
{
    digits_law(key.order);
    digits_law(key.line);
}

fn span_law(span: &Option<Span>)
    ensures { IfSome span.now IsSpelledSpan }
{
    if let Some(span) = span {
        key_law(span.low);
        key_law(span.high);
    }
}

fn bytes_law(digest: &[u8; 32])
    ensures bytes { All (λ b. b < 2 ^ 8) digest.now }
    ensures count { length digest.now ≡ 32 }
{
    for byte in digest {
        let _byte = *byte;
    }
}

fn sizes_law(sizes: Sizes)
    ensures { (t : TableId) → size_of sizes t < 10 ^ 64 }
{
    let _sizes = (
        sizes.date,
        sizes.customer,
        sizes.supplier,
        sizes.part,
        sizes.lineorder,
    );
}

// Tests whether the bounds of a column are 0 and 0, if it is a text column.
fn is_spelled_column(bounds: &[Interval; 58], column: ColumnId) -> bool
    ensures { result ≡ true → HasBounds column (bounds_at bounds.now column) }
{
    let bounds = bounds_of(bounds, column);
    digits_law(bounds.low);
    digits_law(bounds.high);
    !is_text(column) || (bounds.low == 0 && bounds.high == 0)
}

fn are_spelled_bounds(bounds: &[Interval; 58]) -> bool
    ensures { result ≡ true → (c : Column) → HasBounds c (bounds_at bounds.now c) }
{
    for column in &COLUMNS {
        if !is_spelled_column(bounds, *column) {
            return false;
        }
    }
    true
}

/// Tests whether a text has no bar and no line end.
pub(crate) fn is_field(text: &[u8]) -> bool
    ensures { result ≡ is_field text.now }
{
    text.iter().all(|byte| !(*byte == b'|' || *byte == b'\r' || *byte == b'\n'))
}

// Tests whether a cell is of a column's kind, and is not ALL.
fn is_spelled_cell(cell: &KeptCell, kind: ColumnKind) -> bool
    ensures { result ≡ true → IsCellOfKind (kind_view kind) cell.now }
{
    cell_law(cell);
    match (kind, cell.as_view()) {
        (ColumnKind::NumberKey, CellView::Number(_)) => true,
        (ColumnKind::TextKey, CellView::Text(text)) => is_field(text),
        (ColumnKind::Total, CellView::Number(_)) => true,
        (ColumnKind::Total, CellView::Null) => true,
        _ => false,
    }
}

fn is_spelled_row(row: &[KeptCell], columns: &[PartialColumn]) -> bool
    ensures { result ≡ true → AllZip IsCellOfKind (column_kinds columns.now) row.now }
{
    match (columns.split_first(), row.split_first()) {
        (None, None) => true,
        (Some((column, columns)), Some((cell, row))) => {
            is_spelled_cell(cell, column.kind) && is_spelled_row(row, columns)
        }
        _ => false,
    }
}

fn are_spelled_rows(rows: &CellRows, columns: &[PartialColumn]) -> bool
    ensures { result ≡ true → AreRowsOf (column_kinds columns.now) rows.now }
{
    for number in 0..rows.len() {
        if !is_spelled_row(rows.row(number), columns) {
            return false;
        }
    }
    true
}

fn are_names(names: &[Name], columns: &[PartialColumn]) -> bool
    ensures { result ≡ true → names.now ≡ column_names columns.now }
{
    match (columns.split_first(), names.split_first()) {
        (None, None) => true,
        (Some((column, columns)), Some((name, names))) => {
            name.as_slice() == column.name.as_slice() && are_names(names, columns)
        }
        _ => false,
    }
}

fn is_spelled_run(outcome: &Outcome, columns: &[PartialColumn]) -> bool
    ensures { result ≡ true
        → IsSpelledRun (column_names columns.now) (column_kinds columns.now) outcome.now }
{
    counts_law(outcome);
    if !are_names(outcome.names.as_slice(), columns) {
        return false;
    }
    are_spelled_rows(&outcome.rows, columns)
}

fn has_spelled_run(run: &Option<Outcome>, columns: &[PartialColumn]) -> bool
    ensures { result ≡ true
        → IfSome run.now (IsSpelledRun (column_names columns.now) (column_kinds columns.now)) }
{
    match run {
        None => true,
        Some(outcome) => is_spelled_run(outcome, columns),
    }
}

/// Tests whether a partial is well-formed, if its report has these columns.
pub(crate) fn is_spelled(partial: &Partial, columns: &[PartialColumn]) -> bool
    ensures { result ≡ true → IsSpelled (column_names columns.now) (column_kinds columns.now)
        (contents_of partial.now) }
{
    bytes_law(&partial.digest);
    span_law(&partial.span);
    sizes_law(partial.sizes);
    if !are_spelled_bounds(&partial.bounds) {
        return false;
    }
    has_spelled_run(&partial.run, columns)
}

/// States that the partial of a query over loaded tables is well-formed.
pub(crate) fn spelled_law(partial: &Partial)
    ensures { (rows most : ℕ) (database : Database) (query : List ℕ)
        → AreOfLoadableTexts rows database → AreLoadedRows database
        → (is : IsPartialOver most database query (contents_of partial.now))
        → let columns = plan_columns is.p in
        IsSpelled (column_names columns) (column_kinds columns) (contents_of partial.now) }
{
    bytes_law(&partial.digest);
    span_law(&partial.span);
    sizes_law(partial.sizes);
    run_law(&partial.run);
}
