// The catalogue: five loaded tables.

ghost use Rattle.std.specs.Prelude.{◌≡◌, ◌↔◌, ◌≤◌, ◌<◌, ◌∷◌, [], ℕ, ℤ, All, Some, IfErr, IfOk, IsSome, List, length, slice_get};
ghost use Rattle.star_common.specs.Memory.{UnlessMemory};
ghost use Rattle.star_schema.specs.{Columns.{AreBoundsI64, bounds_in, column_dictionary, column_numbers, column_texts}, Bounds.{greatest, least}, Database.{TableTexts, rows_in}, Loadable.{IsLoadable, IsSound, database_of, keys_of}, Schema.{kind_of, references, table_of}, Sizes.size_of, Tables.IsRowOf, declared.table.TableId.TableId, Dictionary.{HasCode, codes_of, high_in, low_in}};
ghost use Rattle.star_column.specs.{Masks.lies, Masks.mask_of, Width.bits_of};
ghost use Rattle.star_catalogue.specs.{ReferredRows.AreReferredRows, Load.load_fault, Load.texts_view, Pieces.AreRead, Pieces.AreReadSome, Pieces.IsReadNextTo, Pieces.with_lineorder_text, Private.FiveTables.AreRowsOfTables};

use crate::fault::LoadFault;
use crate::read_tables::ReadTables;
use crate::references::absent_key;
use crate::referred::Referred;
use crate::tables::Tables;
use crate::texts::Texts;
use star_column::{ColumnData, ColumnView, JoinIndex};
use star_interval::Interval;
use star_reader::TableReader;
use star_schema::{ColumnId, Kind, Limits, Sizes, TableId, kind_of};
use std::alloc::Global;
use std::marker::Model;

/// Five sound tables. A contract sees the rows of each. No look-up allocates.
pub struct Catalogue {
    tables: Box<Tables>,
    referred: Box<Referred>,
}

impl Drop for Catalogue {
    fn drop(self) {
        let Self { tables, referred } = self;
    }
}

impl Model for Catalogue {
    ghost use Rattle.std.specs.Prelude.{All};
    ghost use Rattle.star_schema.specs.{Database.{Database, rows_in}, Loadable.IsSound, Tables.IsRowOf, declared.table.TableId.TableId, Columns.{AreBoundsI64, bounds_in}};
    ghost use Rattle.star_catalogue.specs.Private.Referred.{AreReferred};

    ghost Value = { Database };

    ghost view = { λ catalogue. catalogue.tables.value };

    ghost invariant = { λ catalogue. IsSound catalogue.tables.value
        × ((table : TableId) → All (IsRowOf table) (rows_in catalogue.tables.value table))
        × AreBoundsI64 (bounds_in (rows_in catalogue.tables.value))
        × AreReferred catalogue.tables.value catalogue.referred.value };
}

impl Catalogue {
    /// Loads the tables of five texts, or returns the first error: of the tables in order, then of
    /// the foreign keys by record and column.
    pub fn load(alloc: Global, texts: &Texts<'_>, limits: Limits) -> Result<Catalogue, LoadFault>
        ensures loadable { IfOk result (λ catalogue. IsLoadable limits.rows (texts_view texts.now)) }
        ensures rows { IfOk result (λ catalogue. catalogue ≡ database_of (texts_view texts.now)) }
        ensures refused { IfErr result
            (λ fault. UnlessMemory LoadFault.OutOfMemory fault
            ((load_fault limits.rows (texts_view texts.now) ≡ Some fault)
            × ¬ IsLoadable limits.rows (texts_view texts.now))) }
    {
        let read = ReadTables::of_texts(alloc, texts, limits)?;
        Catalogue::finish(alloc, read)
    }

    /// Loads the tables that five readers were given in pieces, or returns the first error, as
    /// `load` does.
    pub fn finish(alloc: Global, read: ReadTables) -> Result<Catalogue, LoadFault>
        requires { AreReadSome read }
        ensures loadable { (most : ℕ) (texts : TableTexts) → AreRead read most texts
            → IfOk result (λ catalogue. IsLoadable most texts) }
        ensures rows { (most : ℕ) (texts : TableTexts) → AreRead read most texts
            → IfOk result (λ catalogue. catalogue ≡ database_of texts) }
        ensures refused { (most : ℕ) (texts : TableTexts) → AreRead read most texts
            → IfErr result (λ fault. UnlessMemory LoadFault.OutOfMemory fault
            ((load_fault most texts ≡ Some fault) × ¬ IsLoadable most texts)) }
    {
        let loaded = Tables::finish(alloc, read)?;
        Catalogue::of_tables(alloc, loaded)
    }

    /// Returns the catalogue of the same dimensions and the lineorder that a reader was given, or the
    /// first error, as `load` does.
    pub fn with_lineorder(
        self,
        alloc: Global,
        reader: Box<TableReader>,
    ) -> Result<Catalogue, LoadFault>
        requires { (most : ℕ) × (texts : TableTexts) × (text : List (List ℕ))
            × IsReadNextTo self reader.value most texts text }
        ensures loadable { (most : ℕ) (texts : TableTexts) (text : List (List ℕ))
            → IsReadNextTo self reader.value most texts text
            → IfOk result (λ catalogue. IsLoadable most (with_lineorder_text texts text)) }
        ensures rows { (most : ℕ) (texts : TableTexts) (text : List (List ℕ))
            → IsReadNextTo self reader.value most texts text → IfOk result
            (λ catalogue. catalogue ≡ database_of (with_lineorder_text texts text)) }
        ensures refused { (most : ℕ) (texts : TableTexts) (text : List (List ℕ))
            → IsReadNextTo self reader.value most texts text
            → let all = with_lineorder_text texts text in
            IfErr result (λ fault. UnlessMemory LoadFault.OutOfMemory fault
            ((load_fault most all ≡ Some fault) × ¬ IsLoadable most all)) }
    {
        let Self {
            tables,
            referred: _referred,
        } = self;
        let loaded = Box::into_inner(tables).with_lineorder(alloc, reader)?;
        Catalogue::of_tables(alloc, loaded)
    }

    // Finds the rows that the foreign keys of five tables refer to.
    fn of_tables(alloc: Global, loaded: Tables) -> Result<Catalogue, LoadFault>
        requires { (most : ℕ) × (texts : TableTexts) × AreRowsOfTables most texts loaded }
        ensures loadable { (most : ℕ) (texts : TableTexts) → AreRowsOfTables most texts loaded
            → IfOk result (λ catalogue. IsLoadable most texts) }
        ensures rows { (most : ℕ) (texts : TableTexts) → AreRowsOfTables most texts loaded
            → IfOk result (λ catalogue. catalogue ≡ database_of texts) }
        ensures refused { (most : ℕ) (texts : TableTexts) → AreRowsOfTables most texts loaded
            → IfErr result (λ fault. UnlessMemory LoadFault.OutOfMemory fault
            ((load_fault most texts ≡ Some fault) × ¬ IsLoadable most texts)) }
    {
        let tables = Box::new(alloc, loaded)?;
        match Referred::build(alloc, &tables)? {
            Some(referred) => Ok(Catalogue {
                tables,
                referred: Box::new(alloc, referred)?,
            }),
            None => Err(absent_key(&tables)),
        }
    }

    /// States the properties of every catalogue: each row has a value of the right type for each
    /// column of its table, the keys of each table are distinct, and each foreign key refers to a
    /// row. The bounds of each numeric column, 0 and 0 without rows, have 64 bits.
    pub fn law(&self)
        ensures sound { IsSound self.now }
        ensures rows { (table : TableId) → All (IsRowOf table) (rows_in self.now table) }
        ensures bounds { AreBoundsI64 (bounds_in (rows_in self.now)) }
    {
        let _tables = &self.tables;
    }

    /// Returns the number of rows of a table.
    pub fn rows(&self, table: TableId) -> u32
        ensures { result ≡ length (rows_in self.now table) }
    {
        self.tables.table(table).rows()
    }

    /// Returns the number of rows of each table.
    pub fn sizes(&self) -> Sizes
        ensures { (table : TableId) → size_of result table ≡ length (rows_in self.now table) }
    {
        Sizes {
            date: self.rows(TableId::Date),
            customer: self.rows(TableId::Customer),
            supplier: self.rows(TableId::Supplier),
            part: self.rows(TableId::Part),
            lineorder: self.rows(TableId::Lineorder),
        }
    }

    /// Returns the number of a row, from 0, in a numeric column.
    pub fn number(&self, column: ColumnId, row: u32) -> i64
        requires kind { kind_of column ≡ Kind.Number }
        requires row { row < length (rows_in self.now (table_of column)) }
        ensures { slice_get (column_numbers self.now column) row ≡ Some result }
    {
        self.tables.numbers(column).at(row)
    }

    /// Returns the code of a row, from 0, in a text column: the index of its text in the
    /// dictionary.
    pub fn code(&self, column: ColumnId, row: u32) -> u32
        requires kind { kind_of column ≡ Kind.Text }
        requires row { row < length (rows_in self.now (table_of column)) }
        ensures stands { slice_get (column_dictionary self.now column) result
            ≡ slice_get (column_texts self.now column) row }
        ensures within { result < length (column_dictionary self.now column) }
    {
        self.tables.texts(column).code_at(row)
    }

    /// Returns the text with a code in a text column.
    pub fn text(&self, column: ColumnId, code: u32) -> &[u8]
        requires kind { kind_of column ≡ Kind.Text }
        requires code { code < length (column_dictionary self.now column) }
        ensures { HasCode (column_texts self.now column) result.now code }
    {
        self.tables.texts(column).text_of(code)
    }

    /// Returns the number of smaller texts in a column's dictionary.
    pub fn low(&self, column: ColumnId, text: &[u8]) -> u32
        requires { kind_of column ≡ Kind.Text }
        ensures { result ≡ low_in (column_dictionary self.now column) text.now }
    {
        self.tables.texts(column).low(text)
    }

    /// Returns the number of smaller and equal texts in a column's dictionary.
    pub fn high(&self, column: ColumnId, text: &[u8]) -> u32
        requires { kind_of column ≡ Kind.Text }
        ensures { result ≡ high_in (column_dictionary self.now column) text.now }
    {
        self.tables.texts(column).high(text)
    }

    /// Returns the number of texts in a column's dictionary, the distinct texts of the column.
    pub fn entries(&self, column: ColumnId) -> u32
        requires { kind_of column ≡ Kind.Text }
        ensures { result ≡ length (column_dictionary self.now column) }
    {
        self.tables.texts(column).entries()
    }

    /// Returns the least and the greatest number of a numeric column, 0 and 0 without rows.
    pub fn bounds(&self, column: ColumnId) -> Interval
        requires { kind_of column ≡ Kind.Number }
        ensures low { result.low ≡ least (column_numbers self.now column) }
        ensures high { result.high ≡ greatest (column_numbers self.now column) }
    {
        self.tables.numbers(column).bounds()
    }

    /// Returns the width of a column's words in bits, for numbers or for codes: the least of 8, 16,
    /// 32 and 64 in which the difference of the bounds fits, 8 without rows.
    pub fn bits(&self, column: ColumnId) -> u32
        ensures numbers { kind_of column ≡ Kind.Number
            → result ≡ bits_of (column_numbers self.now column) }
        ensures texts { kind_of column ≡ Kind.Text
            → result ≡ bits_of (codes_of (column_texts self.now column)) }
    {
        match kind_of(column) {
            Kind::Number => self.tables.numbers(column).bits(),
            Kind::Text => self.tables.texts(column).bits(),
        }
    }

    /// Borrows a column from which many rows are read: its numbers, or the codes of its texts.
    pub fn column(&self, column: ColumnId) -> ColumnView<'_>
        ensures numbers { kind_of column ≡ Kind.Number → result ≡ column_numbers self.now column }
        ensures texts { kind_of column ≡ Kind.Text
            → result ≡ codes_of (column_texts self.now column) }
    {
        match kind_of(column) {
            Kind::Number => self.tables.numbers(column).view(),
            Kind::Text => self.tables.texts(column).view(),
        }
    }

    /// Returns which of 64 rows of a column have a number, or a code, between `low` and `high`,
    /// both included: bit i is set exactly if the column has the row `first + i` and its value lies
    /// there.
    pub fn mask(&self, column: ColumnId, first: u32, low: i64, high: i64) -> u64
        requires { first ≤ length (rows_in self.now (table_of column)) }
        ensures numbers { kind_of column ≡ Kind.Number
            → result ≡ mask_of (lies low high) (column_numbers self.now column) first }
        ensures texts { kind_of column ≡ Kind.Text
            → result ≡ mask_of (lies low high) (codes_of (column_texts self.now column)) first }
    {
        self.column(column).mask(first, low, high)
    }

    /// Returns the row of a table, from 0, with this key, if there is one. The keys of lineorder
    /// are pairs; it has no such row.
    pub fn find(&self, table: TableId, key: i64) -> Option<u32>
        ensures { (row : ℕ) → (result ≡ Some row)
            ↔ (slice_get (keys_of table (rows_in self.now table)) row ≡ Some (key ∷ [])) }
    {
        self.tables.table(table).find(key)
    }

    /// Returns the row, from 0, that a foreign key refers to in a row, from 0, of its column. It
    /// was found at the load.
    pub fn referred(&self, column: ColumnId, row: u32) -> u32
        requires refers { IsSome (references column) }
        requires row { row < length (rows_in self.now (table_of column)) }
        ensures { (table : TableId) (number : ℤ) → references column ≡ Some table
            → slice_get (column_numbers self.now column) row ≡ Some number
            → slice_get (keys_of table (rows_in self.now table)) result ≡ Some (number ∷ []) }
    {
        self.referred_rows(column).row(row)
    }

    /// Borrows the join index of a foreign key, made at the load: for each row of the column the
    /// row, from 0, of the table that it refers to.
    pub fn referred_rows(&self, column: ColumnId) -> &JoinIndex
        requires { IsSome (references column) }
        ensures { AreReferredRows self.now column result.now }
    {
        self.referred.rows(column)
    }
}
