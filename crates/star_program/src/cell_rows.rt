// The rows of a report in flat storage.

ghost use Rattle.std.specs.Prelude.{◌≡◌, ◌*◌, [], length, slice_index_or};
ghost use Rattle.star_program.specs.Rows.{cut};

use crate::outcome::KeptCell;
use std::marker::Model;

/// The rows of a report, with the same number of cells each, in one buffer. A contract sees the
/// list of the rows.
#[derive(Drop)]
pub struct CellRows {
    width: usize,
    len: usize,
    cells: Vec<KeptCell>,
}

impl Model for CellRows {
    ghost use Rattle.std.specs.Prelude.{◌≡◌, ◌*◌, List, length};
    ghost use Rattle.star_program.specs.Rows.{cut};
    ghost use Rattle.star_program.specs.declared.outcome.Cell.{Cell as Shown};

    ghost Value = { List (List Shown) };

    ghost view = { λ rows. cut rows.width rows.len rows.cells.items };

    ghost invariant = { λ rows. length rows.cells.items ≡ rows.len * rows.width };
}

/// Returns row `number`, from 0, of `len` rows of `width` items each in one buffer, or an empty
/// slice if there is no such row.
pub fn row_of<T>(items: &[T], width: usize, len: usize, number: usize) -> &[T]
    requires { length items.now ≡ len * width }
    ensures { result.now ≡ slice_index_or (cut width len items.now) number [] }
{
    if number < len {
        let start = number * width;
        &items[start..start + width]
    } else {
        &[]
    }
}

impl CellRows {
    /// Makes `len` rows of `width` cells each from one buffer.
    pub fn from_cells(width: usize, len: usize, cells: Vec<KeptCell>) -> CellRows
        requires { length cells.items ≡ len * width }
        ensures { result ≡ cut width len cells.items }
    {
        CellRows { width, len, cells }
    }

    /// Returns the number of rows.
    pub fn len(&self) -> usize
        ensures { result ≡ length self.now }
    {
        self.len
    }

    /// Returns the cells of the row with a number, from 0, or an empty slice if there is no such
    /// row.
    pub fn row(&self, number: usize) -> &[KeptCell]
        ensures { result.now ≡ slice_index_or self.now number [] }
    {
        row_of(&self.cells, self.width, self.len, number)
    }
}
