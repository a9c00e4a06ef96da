// The errors of a load.

ghost use Rattle.std.specs.Prelude.{◌≡◌};
ghost use Rattle.star_common.specs.Memory.{TellsMemory};
ghost use Rattle.star_catalogue.specs.{Load.fault_of_read, declared.fault.LoadFault.TheVariants.OutOfMemory};

use star_reader::ReadFault;
use star_schema::{ColumnId, TableId};
use std::alloc::{AllocError, AllocFailed};
use std::fmt;

/// Why five texts could not be loaded. Records and fields count from 1.
#[derive(Clone, Copy, Debug, PartialEq, Eq)]
pub enum LoadFault {
    /// Out of memory.
    OutOfMemory,
    /// A text begins with a byte order mark.
    ByteOrderMark {
        table: TableId,
    },
    /// A text has more records than the limit allows.
    TooManyRows {
        table: TableId,
    },
    /// A record has another number of fields than its table has columns.
    FieldCount {
        table: TableId,
        at_row: u32,
    },
    /// A cell is longer than 255 bytes.
    CellTooLong {
        table: TableId,
        at_row: u32,
        field: usize,
    },
    /// A cell has a byte that is not printable ASCII.
    BadByte {
        table: TableId,
        at_row: u32,
        field: usize,
    },
    /// A cell of a numeric column is not an optional minus and 1 to 18 digits.
    BadNumber {
        table: TableId,
        at_row: u32,
        field: usize,
    },
    /// A record's key occurs in an earlier record of its table.
    DuplicateKey {
        table: TableId,
        at_row: u32,
    },
    /// A record of lineorder has a foreign key that refers to no row.
    AbsentKey {
        at_row: u32,
        column: ColumnId,
    },
}

impl LoadFault {
    /// Returns the load error of a text that is not a table within the limit.
    pub(crate) fn of_read(table: TableId, fault: ReadFault) -> LoadFault
        ensures { result ≡ fault_of_read table fault }
    {
        match fault {
            ReadFault::OutOfMemory => LoadFault::OutOfMemory,
            ReadFault::ByteOrderMark => LoadFault::ByteOrderMark { table },
            ReadFault::TooManyRows => LoadFault::TooManyRows { table },
            ReadFault::FieldCount { at_row } => LoadFault::FieldCount { table, at_row },
            ReadFault::CellTooLong { at_row, field } => LoadFault::CellTooLong {
                table,
                at_row,
                field,
            },
            ReadFault::BadByte { at_row, field } => LoadFault::BadByte {
                table,
                at_row,
                field,
            },
            ReadFault::BadNumber { at_row, field } => LoadFault::BadNumber {
                table,
                at_row,
                field,
            },
        }
    }
}

impl From<AllocError> for LoadFault {
    ghost from_gives = { TellsMemory OutOfMemory };

    fn from(_error: AllocError) -> LoadFault {
        LoadFault::OutOfMemory
    }
}

impl<T: Drop> From<AllocFailed<T>> for LoadFault {
    ghost from_gives = { TellsMemory OutOfMemory };

    fn from(_error: AllocFailed<T>) -> LoadFault {
        LoadFault::OutOfMemory
    }
}

impl fmt::Display for LoadFault {
    ghost use Rattle.std.specs.Prelude.{Some};
    ghost use Rattle.star_catalogue.specs.FaultTexts.{load_fault_text};

    ghost output = { λ fault. Some (load_fault_text fault) };

    #[tactic(auto, unfolding(crate::specs::FaultTexts::cell_fault_text, crate::specs::FaultTexts::record_fault_text, crate::specs::FaultTexts::table_fault_text))]
    fn fmt<W: fmt::Write>(&self, f: &mut fmt::Formatter<W>) -> fmt::Result {
        match self {
            LoadFault::OutOfMemory => write!(f, "1 OutOfMemory"),
            LoadFault::ByteOrderMark { table } => write!(f, "2 ByteOrderMark table {table}"),
            LoadFault::TooManyRows { table } => write!(f, "3 TooManyRows table {table}"),
            LoadFault::FieldCount { table, at_row } => {
                write!(f, "4 FieldCount table {table} record {at_row}")
            }
            LoadFault::CellTooLong {
                table,
                at_row,
                field,
            } => {
                write!(
                    f,
                    "5 CellTooLong table {table} record {at_row} field {field}"
                )
            }
            LoadFault::BadByte {
                table,
                at_row,
                field,
            } => { write!(f, "6 BadByte table {table} record {at_row} field {field}") }
            LoadFault::BadNumber {
                table,
                at_row,
                field,
            } => { write!(f, "7 BadNumber table {table} record {at_row} field {field}") }
            LoadFault::DuplicateKey { table, at_row } => {
                write!(f, "8 DuplicateKey table {table} record {at_row}")
            }
            LoadFault::AbsentKey { at_row, column } => {
                write!(
                    f,
                    "9 AbsentKey table {} record {at_row} column {column}",
                    TableId::Lineorder
                )
            }
        }
    }
}
