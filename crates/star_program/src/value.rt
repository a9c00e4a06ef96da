// The values of registers, and their kinds.

use star_schema::{ColumnId, TableId};

/// The value of a register.
#[derive(Clone, Copy)]
pub enum Value {
    Number(i64),
    /// A text of a column, by its code: its index in the column's dictionary.
    Text(ColumnId, u32),
    /// A position among the texts of a column: the number of texts before it.
    Place(ColumnId, u32),
    /// A row of a table, from 0.
    Row(TableId, u32),
    Flag(bool),
}

/// The kind of a register's value.
#[derive(Clone, Copy)]
pub enum Kind {
    Number,
    Text(ColumnId),
    Place(ColumnId),
    Row(TableId),
    Flag,
}
