// The foreign keys of lineorder.

ghost use Rattle.std.specs.Prelude.{◌≡◌, ◌+◌, ◌<◌, ◌^◌, [], None, Some, MatchResult, length, slice_index_or};
ghost use Rattle.star_schema.specs.{Database.rows_in, Loadable.RefersTo, Loadable.foreign_keys, Schema.references, declared.column.ColumnId.ColumnId, declared.table.TableId.TableId};
ghost use Rattle.star_catalogue.specs.Load.{absent_fault, foreign_key_fault, row_fault};

use crate::fault::LoadFault;
use crate::tables::Tables;
use star_column::ColumnData;
use star_schema::{ColumnId, TableId, references};

/// The foreign keys, in the order of columns.
static FOREIGN_KEYS: [ColumnId; 5] = [
    ColumnId::LoCustkey,
    ColumnId::LoPartkey,
    ColumnId::LoSuppkey,
    ColumnId::LoOrderdate,
    ColumnId::LoCommitdate,
];

#[tactic(auto, unfolding(star_schema::specs::Schema::column_of, star_schema::specs::Loadable::foreign_keys))]
fn foreign_key_columns() -> &'static [ColumnId]
    ensures { result.now ≡ foreign_keys }
{
    &FOREIGN_KEYS
}

/// Checks that the foreign key of a row of lineorder, in a column, refers to a row.
fn check_cell(tables: &Tables, row: u32, column: ColumnId) -> Result<(), LoadFault>
    requires row { row < length (rows_in tables.now TableId.Lineorder) }
    requires few { row + 1 < 2 ^ 32 }
    ensures { let values = slice_index_or (rows_in tables.now TableId.Lineorder) row [] in
        MatchResult result (λ _. foreign_key_fault tables.now (row + 1) values column ≡ None)
        (λ fault. foreign_key_fault tables.now (row + 1) values column ≡ Some fault) }
{
    let Some(table) = references(column) else {
        return Ok(());
    };
    let number = tables.numbers(column).at(row);
    match tables.table(table).find(number) {
        Some(_) => Ok(()),
        None => Err(LoadFault::AbsentKey {
            at_row: row + 1,
            column,
        }),
    }
}

/// Checks the foreign keys of a row of lineorder, in the order of columns.
fn check_row(tables: &Tables, row: u32) -> Result<(), LoadFault>
    requires row { row < length (rows_in tables.now TableId.Lineorder) }
    requires few { row + 1 < 2 ^ 32 }
    ensures { let values = slice_index_or (rows_in tables.now TableId.Lineorder) row [] in
        MatchResult result (λ _. row_fault tables.now (row + 1) values ≡ None)
        (λ fault. row_fault tables.now (row + 1) values ≡ Some fault) }
{
    for column in foreign_key_columns() {
        check_cell(tables, row, *column)?;
    }
    Ok(())
}

/// Checks the foreign keys of all rows of lineorder, row by row.
fn check_references(tables: &Tables) -> Result<(), LoadFault>
    ensures { MatchResult result (λ _. absent_fault tables.now ≡ None)
        (λ fault. absent_fault tables.now ≡ Some fault) }
{
    for row in 0..tables.table(TableId::Lineorder).rows() {
        check_row(tables, row)?;
    }
    Ok(())
}

// A load finds the rows of foreign keys column by column. The records are only checked again if a
// key is absent.
/// Returns the first foreign key that refers to no row, by record and column, if there is one.
pub(crate) fn absent_key(tables: &Tables) -> LoadFault
    requires { ¬ ((column : ColumnId) (table : TableId) → references column ≡ Some table
        → RefersTo tables.now column table) }
    ensures { absent_fault tables.now ≡ Some result }
{
    match check_references(tables) {
        Ok(()) => unreachable!(),
        Err(fault) => fault,
    }
}
