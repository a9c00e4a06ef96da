// The rows that the foreign keys of lineorder refer to.

ghost use Rattle.std.specs.Prelude.{◌≡◌, ◌<◌, ◌≤◌, ◌^◌, ◌∷◌, ◌↔◌, [], ℕ, ℤ, All, Contains, IfOk, MatchOption, Some, length, map, slice_get};
ghost use Rattle.star_schema.specs.{Loadable.RefersTo, Loadable.keys_of, Schema.index_of, Schema.references, declared.column.ColumnId.ColumnId, declared.table.TableId.TableId};
ghost use Rattle.star_catalogue.specs.{Private.Indexed.lent_row, Private.Referred.AreFound, Private.Referred.AreReferred, Private.Referred.AreRowsReferredTo, Private.Referred.rows_view};

use crate::dimension::LentKeys;
use crate::table::LoadedTable;
use crate::tables::Tables;
use star_column::{ColumnData, JoinIndex, PackedColumn};
use star_schema::{COLUMNS, ColumnId, references};
use std::alloc::{AllocError, Global};

/// The join index of each column, in order. A column that is not a foreign key has an empty one.
#[derive(Drop)]
pub struct Referred {
    rows: Vec<JoinIndex>,
}

/// A word of some width that holds a row number.
trait RowWord: Copy + Drop {
    // Every row below it fits.
    ghost limit: { ℕ };

    ghost number: { Self → ℕ };

    /// Returns the word of a row number that fits.
    fn of(row: u32) -> Self
        requires { row < limit }
        ensures { number result ≡ row };

    /// Makes a join index of these rows.
    fn index(rows: Vec<Self>) -> JoinIndex
        ensures { result ≡ map number rows.items };
}

impl RowWord for u8 {
    ghost limit = { 2 ^ 8 };

    ghost number = { λ word. word };

    fn of(row: u32) -> u8 {
        row as u8
    }

    fn index(rows: Vec<u8>) -> JoinIndex
        ensures { result ≡ rows.items }
    {
        JoinIndex::from(rows)
    }
}

impl RowWord for u16 {
    ghost limit = { 2 ^ 16 };

    ghost number = { λ word. word };

    fn of(row: u32) -> u16 {
        row as u16
    }

    fn index(rows: Vec<u16>) -> JoinIndex
        ensures { result ≡ rows.items }
    {
        JoinIndex::from(rows)
    }
}

impl RowWord for u32 {
    ghost limit = { 2 ^ 32 };

    ghost number = { λ word. word };

    fn of(row: u32) -> u32 {
        row
    }

    fn index(rows: Vec<u32>) -> JoinIndex
        ensures { result ≡ rows.items }
    {
        JoinIndex::from(rows)
    }
}

/// Returns the rows of a table that have these numbers as their keys, in words that fit each row of
/// the table, if each number is a key.
#[inline(always)]
fn find_all<W: RowWord>(
    alloc: Global,
    table: &LoadedTable,
    keys: LentKeys<'_>,
    numbers: &PackedColumn,
) -> Result<Option<Vec<W>>, AllocError>
    requires few { length table.now.rows ≤ W.limit }
    requires keys { (key : ℤ) (row : ℕ) → (lent_row keys key ≡ Some row)
        ↔ (slice_get (keys_of table.now.table table.now.rows) row ≡ Some (key ∷ [])) }
    ensures { let keys = keys_of table.now.table table.now.rows in IfOk result
        (λ found. MatchOption found
        (¬ All (λ number. Contains keys (number ∷ [])) numbers.now)
        (λ rows. AreFound keys numbers.now (map W.number rows.items))) }
{
    let mut rows = Vec::with_capacity(alloc, numbers.len() as usize)?;
    let lent = numbers.view();
    for row in 0..numbers.len() {
        match keys.find(lent.at(row)) {
            Some(found) => rows.push_reserved(W::of(found)),
            None => return Ok(None),
        }
    }
    Ok(Some(rows))
}

/// Returns the join index of numbers, in words that fit each row of a table, if each number is a
/// key of the table. A loop of its own for dense keys is so short that the compiler looks at the
/// width of the numbers once and not in each turn.
#[inline(never)]
fn index_in<W: RowWord>(
    alloc: Global,
    table: &LoadedTable,
    numbers: &PackedColumn,
) -> Result<Option<JoinIndex>, AllocError>
    requires { length table.now.rows ≤ W.limit }
    ensures { let keys = keys_of table.now.table table.now.rows in IfOk result
        (λ found. MatchOption found
        (¬ All (λ number. Contains keys (number ∷ [])) numbers.now)
        (λ rows. AreFound keys numbers.now rows)) }
{
    let found = match table.lend_keys() {
        LentKeys::Dense(least, rows) => {
            find_all::<W>(alloc, table, LentKeys::Dense(least, rows), numbers)?
        }
        keys => find_all::<W>(alloc, table, keys, numbers)?,
    };
    match found {
        Some(rows) => Ok(Some(W::index(rows))),
        None => Ok(None),
    }
}

/// Returns the join index of numbers, if each is a key of a table, in words of the least width that
/// fits each row of the table.
fn join_index(
    alloc: Global,
    table: &LoadedTable,
    numbers: &PackedColumn,
) -> Result<Option<JoinIndex>, AllocError>
    ensures { let keys = keys_of table.now.table table.now.rows in IfOk result
        (λ found. MatchOption found
        (¬ All (λ number. Contains keys (number ∷ [])) numbers.now)
        (λ rows. AreFound keys numbers.now rows)) }
{
    let last = table.rows().saturating_sub(1);
    if last <= u32::from(u8::MAX) {
        index_in::<u8>(alloc, table, numbers)
    } else if last <= u32::from(u16::MAX) {
        index_in::<u16>(alloc, table, numbers)
    } else {
        index_in::<u32>(alloc, table, numbers)
    }
}

/// Returns the join index of a column, if it is not a foreign key or each of its numbers is a key
/// of the table that it refers to.
fn rows_of(
    alloc: Global,
    tables: &Tables,
    column: ColumnId,
) -> Result<Option<JoinIndex>, AllocError>
    ensures { IfOk result (λ found. MatchOption found
        (¬ ((table : TableId) → references column ≡ Some table → RefersTo tables.now column table))
        (λ rows. AreRowsReferredTo tables.now column rows)) }
{
    match references(column) {
        Some(table) => join_index(alloc, tables.table(table), tables.numbers(column)),
        None => Ok(Some(JoinIndex::from(Vec::<u8>::new(alloc)))),
    }
}

impl Referred {
    /// Finds the rows that the foreign keys of lineorder refer to, if all of them are keys. It goes
    /// column by column, so that column and table are determined once for all rows.
    pub(crate) fn build(alloc: Global, tables: &Tables) -> Result<Option<Referred>, AllocError>
        ensures { IfOk result (λ found. MatchOption found
            (¬ ((column : ColumnId) (table : TableId) → references column ≡ Some table
            → RefersTo tables.now column table)) (AreReferred tables.now)) }
    {
        let mut rows = Vec::with_capacity(alloc, COLUMNS.len())?;
        for column in &COLUMNS {
            match rows_of(alloc, tables, *column)? {
                Some(found) => rows.push(found)?,
                None => return Ok(None),
            }
        }
        Ok(Some(Referred { rows }))
    }

    /// Returns the join index of a column.
    pub(crate) fn rows(&self, column: ColumnId) -> &JoinIndex
        requires { index_of column < length self.now.rows.items }
        ensures { result.now ≡ rows_view self.now column }
    {
        &self.rows[column as usize]
    }
}
