// The five tables: their columns and keys.

ghost use Rattle.std.specs.Prelude.{◌≡◌, ◌≤◌, ◌<◌, ◌↔◌, Some, length, slice_get};
ghost use Rattle.star_schema.specs.{declared.table.TableId.TableId, Words.named, declared.table.TheConstants.TABLES};
ghost use Rattle.star_schema.specs.Schema as spec;

use crate::column::{COLUMNS, ColumnId};
use crate::name::{Named, first_named};
use std::fmt;

/// The tables of the Star Schema Benchmark (revision 3), in the order in which they are read,
/// checked and listed.
#[derive(Clone, Copy, Debug, PartialEq, Eq)]
pub enum TableId {
    Date,
    Customer,
    Supplier,
    Part,
    Lineorder,
}

/// All tables in order.
pub static TABLES: [TableId; 5] = [
    TableId::Date,
    TableId::Customer,
    TableId::Supplier,
    TableId::Part,
    TableId::Lineorder,
];

/// The key of a table: one column or two.
#[derive(Clone, Copy, PartialEq, Eq)]
pub enum Key {
    One(ColumnId),
    Two(ColumnId, ColumnId),
}

impl Named for TableId {
    ghost name = { spec.table_name };

    #[tactic(auto, unfolding(crate::specs::Schema::table_name))]
    fn name(self) -> &'static str {
        match self {
            TableId::Date => "date",
            TableId::Customer => "customer",
            TableId::Supplier => "supplier",
            TableId::Part => "part",
            TableId::Lineorder => "lineorder",
        }
    }
}

impl fmt::Display for TableId {
    ghost output = { λ table. Some (spec.table_name table) };

    fn fmt<W: fmt::Write>(&self, f: &mut fmt::Formatter<W>) -> fmt::Result {
        f.write_str(self.name())
    }
}

/// Returns the table with a name, in lower case, if there is one.
pub fn table_named(name: &[u8]) -> Option<TableId>
    ensures first { result ≡ named spec.table_name TABLES name.now }
    ensures exactly { (table : TableId) → (result ≡ Some table) ↔ (spec.table_name table ≡ name.now) }
{
    first_named(&TABLES, name)
}

/// Returns the table's columns in the order of a record's fields.
#[tactic(auto, unfolding(crate::specs::Schema::column_of, crate::specs::Schema::columns_of))]
pub fn columns(table: TableId) -> &'static [ColumnId]
    ensures columns { result.now ≡ spec.columns_of table }
    ensures some { 1 ≤ length result.now }
    ensures few { length result.now ≤ 17 }
{
    match table {
        TableId::Date => &COLUMNS[ColumnId::DDatekey as usize..ColumnId::CCustkey as usize],
        TableId::Customer => &COLUMNS[ColumnId::CCustkey as usize..ColumnId::SSuppkey as usize],
        TableId::Supplier => &COLUMNS[ColumnId::SSuppkey as usize..ColumnId::PPartkey as usize],
        TableId::Part => &COLUMNS[ColumnId::PPartkey as usize..ColumnId::LoOrderkey as usize],
        TableId::Lineorder => &COLUMNS[ColumnId::LoOrderkey as usize..],
    }
}

/// Tests whether two tables are equal.
pub fn is_table(table: TableId, other: TableId) -> bool
    ensures { result ≡ spec.is_table table other }
{
    table == other
}

/// Returns the number of the table's columns.
pub fn width(table: TableId) -> usize
    ensures { result ≡ spec.width_of table }
{
    columns(table).len()
}

/// Returns the table's column at a position, from 0.
pub fn column_at(table: TableId, index: usize) -> ColumnId
    requires { index < spec.width_of table }
    ensures at { slice_get (spec.columns_of table) index ≡ Some result }
    ensures table { spec.table_of result ≡ table }
{
    columns(table)[index]
}

/// Returns the table's key. No two rows of a loaded table have equal keys.
pub fn key_of(table: TableId) -> Key
    ensures { result ≡ spec.key_of table }
{
    match table {
        TableId::Date => Key::One(ColumnId::DDatekey),
        TableId::Customer => Key::One(ColumnId::CCustkey),
        TableId::Supplier => Key::One(ColumnId::SSuppkey),
        TableId::Part => Key::One(ColumnId::PPartkey),
        TableId::Lineorder => Key::Two(ColumnId::LoOrderkey, ColumnId::LoLinenumber),
    }
}
