// A table as it was read.

ghost use Rattle.std.specs.{Prelude.{◌≡◌, ◌<◌, ◌∷◌, ℕ, [], Some, IfOk, IfErr, length, map, slice_get}, Option.option_map};
ghost use Rattle.star_common.specs.Memory.{UnlessMemory};
ghost use Rattle.star_schema.specs.{Tables.{IsTable, Number, Text, rows_of, value_at}, Bounds.numbers_at, Schema.kinds_of, declared.table.TableId.TableId, Texts.texts_at};
ghost use Rattle.star_reader.specs.{Columns.AreColumnsOf, Columns.first_rows, Columns.values, Faults.text_fault};

use crate::column::RawColumn;
use crate::fault::ReadFault;
use crate::table_reader::TableReader;
use star_flat::{FlatNumbers, RepeatedTexts};
use star_schema::{Kind, Limits, TableId};
use std::alloc::Global;
use std::marker::Model;

/// The rows of a table, kept by columns. A contract sees which table it is, and the list of its
/// rows, each the list of its values.
#[derive(Drop)]
pub struct RawTable {
    table: TableId,
    rows: u32,
    columns: Vec<RawColumn>,
}

impl Model for RawTable {
    ghost use Rattle.std.specs.Prelude.{map};
    ghost use Rattle.star_reader.specs.Columns.{AreColumnsOf, Table, first_rows, values};

    ghost Value = { Table };

    ghost view = { λ raw. record {
      table = raw.table;
      rows = first_rows raw.rows (map values raw.columns.items);
    } };

    ghost invariant = { λ raw. AreColumnsOf raw.table raw.rows raw.columns.items };
}

impl RawTable {
    /// Makes a table of these columns, which have `rows` rows.
    pub(crate) fn of(table: TableId, rows: u32, columns: Vec<RawColumn>) -> RawTable
        requires { AreColumnsOf table rows columns.items }
        ensures table { result.table ≡ table }
        ensures rows { result.rows ≡ first_rows rows (map values columns.items) }
    {
        RawTable {
            table,
            rows,
            columns,
        }
    }

    /// Which table it is.
    pub fn table(&self) -> TableId
        ensures { result ≡ self.now.table }
    {
        self.table
    }

    /// How many rows there are.
    pub fn rows(&self) -> u32
        ensures { result ≡ length self.now.rows }
    {
        self.rows
    }

    /// The number at a row and a position, both from 0, of a column of numbers.
    pub fn number(&self, row: u32, index: usize) -> i64
        requires row { row < length self.now.rows }
        requires index { slice_get (kinds_of self.now.table) index ≡ Some Kind.Number }
        ensures { value_at self.now.rows row index ≡ Some (Number result) }
    {
        self.numbers(index).get(row as usize)
    }

    /// The numbers of a column of numbers, in the order of the rows.
    pub fn numbers(&self, index: usize) -> &FlatNumbers
        requires { slice_get (kinds_of self.now.table) index ≡ Some Kind.Number }
        ensures numbers { result.now ≡ numbers_at index self.now.rows }
        ensures values { (row : ℕ)
            → value_at self.now.rows row index ≡ option_map Number (slice_get result.now row) }
    {
        match &self.columns[index] {
            RawColumn::Numbers(numbers) => numbers,
            RawColumn::Texts(_) => unreachable!(),
        }
    }

    /// The text at a row and a position, both from 0, of a column of texts.
    pub fn text(&self, row: u32, index: usize) -> &[u8]
        requires row { row < length self.now.rows }
        requires index { slice_get (kinds_of self.now.table) index ≡ Some Kind.Text }
        ensures { value_at self.now.rows row index ≡ Some (Text result.now) }
    {
        self.texts(index).get(row as usize)
    }

    fn texts(&self, index: usize) -> &RepeatedTexts
        requires { slice_get (kinds_of self.now.table) index ≡ Some Kind.Text }
        ensures texts { result.now ≡ texts_at index self.now.rows }
        ensures values { (row : ℕ)
            → value_at self.now.rows row index ≡ option_map Text (slice_get result.now row) }
    {
        match &self.columns[index] {
            RawColumn::Texts(texts) => texts,
            RawColumn::Numbers(_) => unreachable!(),
        }
    }

    /// The columns, in the order of a record's fields. The table is let go.
    pub fn into_columns(self) -> Vec<RawColumn>
        ensures columns { AreColumnsOf self.table (length self.rows) result.items }
        ensures rows { self.rows ≡ first_rows (length self.rows) (map values result.items) }
    {
        self.columns
    }
}

/// Reads the table that `parts` are, one after another, with a row for each record, at most
/// `limits.rows`; else answers the first fault: part by part, in a part 2 before all, then by
/// record, and in a record 3, 4, and then cell by cell from the left 5, 6, 7. A record ends with its
/// part, and records count on through the parts. No parts are a table without rows.
pub fn read_parts(
    alloc: Global,
    parts: &[&[u8]],
    table: TableId,
    limits: Limits,
) -> Result<RawTable, ReadFault>
    ensures read { IfOk result (λ raw. IsTable table limits.rows (map (λ part. part.now) parts.now)
        × (raw.table ≡ table) × (raw.rows ≡ rows_of table (map (λ part. part.now) parts.now))) }
    ensures refused { IfErr result
        (λ fault. UnlessMemory ReadFault.OutOfMemory fault
        ((text_fault table limits.rows (map (λ part. part.now) parts.now) ≡ Some fault)
        × ¬ IsTable table limits.rows (map (λ part. part.now) parts.now))) }
{
    TableReader::of_parts(alloc, parts, table, limits)?.finish(alloc)
}

/// Reads the table that `text` is, at most `limits.rows` rows, or answers its first fault, as
/// `read_parts` does of this one part.
pub fn read_table(
    alloc: Global,
    text: &[u8],
    table: TableId,
    limits: Limits,
) -> Result<RawTable, ReadFault>
    ensures read { IfOk result (λ raw. IsTable table limits.rows (text.now ∷ [])
        × (raw.table ≡ table) × (raw.rows ≡ rows_of table (text.now ∷ []))) }
    ensures refused { IfErr result (λ fault.
        UnlessMemory ReadFault.OutOfMemory fault ((text_fault table limits.rows (text.now ∷ [])
        ≡ Some fault) × ¬ IsTable table limits.rows (text.now ∷ []))) }
{
    read_parts(alloc, &[text], table, limits)
}
