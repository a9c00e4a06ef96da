// The columns of a table.

ghost use Rattle.std.specs.Prelude.{◌≡◌, ◌<◌, ◌^◌, All, IfOk, length, map};
ghost use Rattle.star_reader.specs.Columns.{values};
ghost use Rattle.star_catalogue.specs.Private.Columns.{as_read};

use star_column::{PackedColumn, TextColumn};
use star_reader::RawColumn;
use std::alloc::{AllocError, Global};

/// A column of a table.
#[derive(Drop)]
pub enum Column {
    Numbers(PackedColumn),
    Texts(TextColumn),
}

impl Column {
    /// Packs the values that were read, at most 4,294,967,295, into a column, and frees their
    /// buffers.
    pub(crate) fn build(alloc: Global, raw: RawColumn) -> Result<Column, AllocError>
        requires { length (values raw) < 2 ^ 32 }
        ensures { IfOk result (λ column. as_read column ≡ raw) }
    {
        match raw {
            RawColumn::Numbers(numbers) => {
                Ok(Column::Numbers(PackedColumn::from_flat(alloc, numbers)?))
            }
            RawColumn::Texts(texts) => Ok(Column::Texts(TextColumn::from_flat(alloc, texts)?)),
        }
    }
}

/// Makes the columns of the values that were read. The buffers of each are freed before the next is
/// made.
pub(crate) fn build_columns(alloc: Global, raw: Vec<RawColumn>) -> Result<Vec<Column>, AllocError>
    requires { All (λ raw. length (values raw) < 2 ^ 32) raw.items }
    ensures { IfOk result (λ columns. map as_read columns.items ≡ raw.items) }
{
    let mut columns = Vec::with_capacity(alloc, raw.len())?;
    for column in raw {
        columns.push(Column::build(alloc, column)?)?;
    }
    Ok(columns)
}
