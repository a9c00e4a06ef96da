// A table in memory.

ghost use Rattle.std.specs.{Prelude.{◌≡◌, ◌↔◌, ◌<◌, ◌∷◌, [], ℕ, ℤ, List, Some, MatchResult, length, slice_get}, Option.option_map};
ghost use Rattle.star_common.specs.Memory.{UnlessMemory};
ghost use Rattle.star_schema.specs.{Bounds.numbers_of, Loadable.HasDistinctKeys, Loadable.keys_of, Schema.kind_of, Schema.table_of, Tables.IsTable, Tables.rows_of, Texts.texts_of};
ghost use Rattle.star_reader.specs.{Faults.text_fault, Partway.HasReadText};
ghost use Rattle.star_catalogue.specs.{Private.Indexed.lent_row, Load.fault_of_read, Load.repeated_key_fault, Load.table_fault};

use crate::columns::{Column, build_columns};
use crate::dimension::LentKeys;
use crate::fault::LoadFault;
use crate::keys::KeyIndex;
use star_column::{PackedColumn, TextColumn};
use star_reader::{RawTable, TableReader};
use star_schema::{ColumnId, Kind, TableId, position_of};
use std::alloc::Global;
use std::marker::Model;

/// A table in memory, by columns, with an index of its keys. A contract sees which table it is, and
/// the list of its rows.
pub struct LoadedTable {
    table: TableId,
    rows: u32,
    columns: Vec<Column>,
    keys: KeyIndex,
}

impl Drop for LoadedTable {
    fn drop(self) {
        let Self {
            table,
            rows,
            columns,
            keys,
        } = self;
    }
}

impl Model for LoadedTable {
    ghost use Rattle.star_reader.specs.Columns.{Table};

    ghost Value = { Table };

    ghost use Rattle.star_catalogue.specs.Private.Kept.{table_view, IsKept};

    ghost view = { table_view };

    ghost invariant = { IsKept };
}

/// Returns the table that a reader was given, or its first error.
fn answer_of(alloc: Global, reader: Box<TableReader>, table: TableId) -> Result<RawTable, LoadFault>
    ensures { (most : ℕ) (text : List (List ℕ)) → HasReadText reader.value table most text
        → MatchResult result
        (λ raw. IsTable table most text × (raw.table ≡ table) × (raw.rows ≡ rows_of table text))
        (λ fault. UnlessMemory LoadFault.OutOfMemory fault
        (option_map (fault_of_read table) (text_fault table most text) ≡ Some fault)) }
{
    match Box::into_inner(reader).finish(alloc) {
        Ok(raw) => Ok(raw),
        Err(fault) => Err(LoadFault::of_read(table, fault)),
    }
}

/// Makes a table of the values that were read, if its keys are distinct, otherwise returns the
/// first record whose key an earlier one has.
fn keep(alloc: Global, raw: RawTable) -> Result<LoadedTable, LoadFault>
    ensures { MatchResult result (λ loaded. (loaded ≡ raw) × HasDistinctKeys raw.table raw.rows)
        (λ fault. UnlessMemory LoadFault.OutOfMemory fault
        (repeated_key_fault raw.table raw.rows ≡ Some fault)) }
{
    let table = raw.table();
    let rows = raw.rows();
    let keys = KeyIndex::build(alloc, &raw)?;
    let columns = build_columns(alloc, raw.into_columns())?;
    Ok(LoadedTable {
        table,
        rows,
        columns,
        keys,
    })
}

impl LoadedTable {
    /// Returns the table that a reader was given, or its first error: of its text, then of its
    /// keys. The reader is boxed, which makes dropping it one call.
    pub(crate) fn finish(
        alloc: Global,
        reader: Box<TableReader>,
        table: TableId,
    ) -> Result<Box<LoadedTable>, LoadFault>
        ensures { (most : ℕ) (text : List (List ℕ)) → HasReadText reader.value table most text
            → MatchResult result (λ loaded. IsTable table most text × (loaded.value.table ≡ table)
            × (loaded.value.rows ≡ rows_of table text) × HasDistinctKeys table (rows_of table text))
            (λ fault. UnlessMemory LoadFault.OutOfMemory fault
            (table_fault table most text ≡ Some fault)) }
    {
        let raw = answer_of(alloc, reader, table)?;
        let loaded = keep(alloc, raw)?;
        Ok(Box::new(alloc, loaded)?)
    }

    /// Returns the number of rows.
    pub(crate) fn rows(&self) -> u32
        ensures { result ≡ length self.now.rows }
    {
        self.rows
    }

    /// Returns a numeric column.
    pub(crate) fn numbers(&self, column: ColumnId) -> &PackedColumn
        requires table { table_of column ≡ self.now.table }
        requires kind { kind_of column ≡ Kind.Number }
        ensures { result.now ≡ numbers_of column self.now.rows }
    {
        match &self.columns[position_of(column)] {
            Column::Numbers(numbers) => numbers,
            Column::Texts(_) => unreachable!(),
        }
    }

    /// Returns a text column.
    pub(crate) fn texts(&self, column: ColumnId) -> &TextColumn
        requires table { table_of column ≡ self.now.table }
        requires kind { kind_of column ≡ Kind.Text }
        ensures { result.now ≡ texts_of column self.now.rows }
    {
        match &self.columns[position_of(column)] {
            Column::Texts(texts) => texts,
            Column::Numbers(_) => unreachable!(),
        }
    }

    /// Borrows the rows by their keys of one number.
    pub(crate) fn lend_keys(&self) -> LentKeys<'_>
        ensures { (key : ℤ) (row : ℕ) → (lent_row result key ≡ Some row)
            ↔ (slice_get (keys_of self.now.table self.now.rows) row ≡ Some (key ∷ [])) }
    {
        self.keys.lend()
    }

    /// Returns the row with a key of one number, if there is one.
    pub(crate) fn find(&self, key: i64) -> Option<u32>
        ensures { (row : ℕ) → (result ≡ Some row)
            ↔ (slice_get (keys_of self.now.table self.now.rows) row ≡ Some (key ∷ [])) }
    {
        self.lend_keys().find(key)
    }
}
