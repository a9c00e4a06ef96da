// Why a text is no table.

ghost use Rattle.star_common.specs.Memory.{TellsMemory};
ghost use Rattle.star_reader.specs.declared.fault.ReadFault.TheVariants.{OutOfMemory};

use std::alloc::{AllocError, AllocFailed};

/// Why a text was not read as a table. Records and fields count from 1.
#[derive(Clone, Copy, Debug, PartialEq, Eq)]
pub enum ReadFault {
    /// Memory was refused.
    OutOfMemory,
    /// The text begins with a byte order mark.
    ByteOrderMark,
    /// There are more records than the limit allows.
    TooManyRows,
    /// A record has another number of fields than its table has columns.
    FieldCount { at_row: u32 },
    /// A cell has more than 255 bytes.
    CellTooLong { at_row: u32, field: usize },
    /// A cell has a byte that is not printable ASCII.
    BadByte { at_row: u32, field: usize },
    /// A cell of a column of numbers is not an optional minus and 1 to 18 digits.
    BadNumber { at_row: u32, field: usize },
}

impl From<AllocError> for ReadFault {
    ghost from_gives = { TellsMemory OutOfMemory };

    fn from(_error: AllocError) -> ReadFault {
        ReadFault::OutOfMemory
    }
}

impl<T: Drop> From<AllocFailed<T>> for ReadFault {
    ghost from_gives = { TellsMemory OutOfMemory };

    fn from(_error: AllocFailed<T>) -> ReadFault {
        ReadFault::OutOfMemory
    }
}
