// The dimensions of partials, compared as far as a digest, row counts and bounds show.

ghost use Rattle.std.specs.Prelude.{◌≡◌, All, ℕ, List, None, true};
ghost use Rattle.star_schema.specs.Database.{Database};
ghost use Rattle.star_merger.specs.{Partials.contents_of, Private.Checked.HasDimensions};

use crate::partial::Partial;
use star_partial::bounds_of;
use star_schema::{COLUMNS, ColumnId, TABLES, TableId, is_table, table_of};

// Tests whether two partials have the same bounds of a column, if it is one of a dimension.
fn have_equal_column(a: &Partial, b: &Partial, column: ColumnId) -> bool
    ensures { (hash : List ℕ) (database : Database)
        → HasDimensions hash database (contents_of a.now)
        → HasDimensions hash database (contents_of b.now) → result ≡ true }
{
    if is_table(table_of(column), TableId::Lineorder) {
        return true;
    }
    let x = bounds_of(&a.bounds, column);
    let y = bounds_of(&b.bounds, column);
    x.low == y.low && x.high == y.high
}

// Tests whether two partials have the same bounds of the dimensions' columns.
fn have_equal_bounds(a: &Partial, b: &Partial) -> bool
    ensures { (hash : List ℕ) (database : Database)
        → HasDimensions hash database (contents_of a.now)
        → HasDimensions hash database (contents_of b.now) → result ≡ true }
{
    for column in &COLUMNS {
        if !have_equal_column(a, b, *column) {
            return false;
        }
    }
    true
}

// Tests whether two partials have the same row count of a table, if it is a dimension.
fn have_equal_size(a: &Partial, b: &Partial, table: TableId) -> bool
    ensures { (hash : List ℕ) (database : Database)
        → HasDimensions hash database (contents_of a.now)
        → HasDimensions hash database (contents_of b.now) → result ≡ true }
{
    if is_table(table, TableId::Lineorder) {
        return true;
    }
    a.sizes.of(table) == b.sizes.of(table)
}

// Tests whether two partials have the same row counts of the dimensions.
fn have_equal_sizes(a: &Partial, b: &Partial) -> bool
    ensures { (hash : List ℕ) (database : Database)
        → HasDimensions hash database (contents_of a.now)
        → HasDimensions hash database (contents_of b.now) → result ≡ true }
{
    for table in &TABLES {
        if !have_equal_size(a, b, *table) {
            return false;
        }
    }
    true
}

fn have_equal_digests(a: &Partial, b: &Partial) -> bool
    ensures { a.now.digest ≡ b.now.digest → result ≡ true }
{
    a.digest == b.digest
}

fn have_equal_dimensions(a: &Partial, b: &Partial) -> bool
    ensures { (hash : List ℕ) (database : Database)
        → HasDimensions hash database (contents_of a.now)
        → HasDimensions hash database (contents_of b.now) → result ≡ true }
{
    if !have_equal_digests(a, b) {
        return false;
    }
    if !have_equal_sizes(a, b) {
        return false;
    }
    have_equal_bounds(a, b)
}

/// Returns the position of the first partial whose dimensions are not those of the first.
pub(crate) fn other_dimensions(partials: &[Partial]) -> Option<usize>
    ensures { (hash : List ℕ) (database : Database)
        → All (λ partial. HasDimensions hash database (contents_of partial)) partials.now
        → result ≡ None }
{
    for index in 0..partials.len() {
        if !have_equal_dimensions(&partials[0], &partials[index]) {
            return Some(index);
        }
    }
    None
}
