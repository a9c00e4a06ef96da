// The outcome of a run: named columns, rows of cells, and counts.

ghost use Rattle.std.specs.Prelude.{◌≡◌, IfOk};
ghost use Rattle.star_program.specs.{CellViews.cell_viewed, Private.Kept.cell_view};

use crate::cell_rows::CellRows;
use crate::op::Text;
use crate::program::Name;
use star_common::Items;
use std::alloc::{AllocError, Global};
use std::marker::Model;

/// A text of a report, boxed so that a cell of a number is small. A contract sees its bytes.
#[derive(Drop)]
pub struct CellText {
    text: Box<Text>,
}

impl Model for CellText {
    ghost use Rattle.std.specs.Prelude.{List, ℕ};

    ghost Value = { List ℕ };

    ghost view = { λ cell. cell.text.value };
}

impl CellText {
    /// Makes the cell of a text.
    pub fn new(alloc: Global, text: Text) -> Result<CellText, AllocError>
        ensures { IfOk result (λ cell. cell ≡ text) }
    {
        let text = Box::new(alloc, text)?;
        Ok(CellText { text })
    }

    /// Returns its bytes.
    pub fn as_slice(&self) -> &[u8]
        ensures { result.now ≡ self.now }
    {
        self.text.as_slice()
    }
}

/// A cell of a report.
#[derive(Drop)]
pub enum Cell {
    /// A key or an aggregate.
    Number(i128),
    /// A key that is a text.
    Text(CellText),
    /// The value ALL: a key that this row of a cube does not group by (Gray et al. 1997).
    All,
    /// NULL: an aggregate other than a count, over no rows.
    Null,
}

/// A borrowed cell of a report.
#[derive(Clone, Copy)]
pub enum CellView<'a> {
    Number(i128),
    Text(&'a [u8]),
    All,
    Null,
}

// The storage of a cell: a number of 64 bits directly, a larger one in a box.
#[derive(Drop)]
enum Kept {
    Number(i64),
    Wide(Box<i128>),
    Text(CellText),
    All,
    Null,
}

// Returns the storage of a number.
fn kept_number(alloc: Global, number: i128) -> Result<Kept, AllocError>
    ensures { IfOk result (λ kept. cell_view kept ≡ Cell.Number number) }
{
    match i64::try_from(number) {
        Ok(number) => Ok(Kept::Number(number)),
        Err(_) => Ok(Kept::Wide(Box::new(alloc, number)?)),
    }
}

/// A cell of a report in storage. If its number has 64 bits it takes no more memory than such a
/// number and a tag. A contract sees the cell.
#[derive(Drop)]
pub struct KeptCell {
    kept: Kept,
}

impl Model for KeptCell {
    ghost use Rattle.star_program.specs.declared.outcome.Cell.{Cell as Shown};
    ghost use Rattle.star_program.specs.Private.Kept.{cell_view};

    ghost Value = { Shown };

    ghost view = { λ cell. cell_view cell.kept };
}

impl KeptCell {
    /// Stores a cell.
    pub fn new(alloc: Global, cell: Cell) -> Result<KeptCell, AllocError>
        ensures { IfOk result (λ kept. kept ≡ cell) }
    {
        let kept = match cell {
            Cell::Number(number) => kept_number(alloc, number)?,
            Cell::Text(text) => Kept::Text(text),
            Cell::All => Kept::All,
            Cell::Null => Kept::Null,
        };
        Ok(KeptCell { kept })
    }

    /// Borrows the cell.
    pub fn as_view(&self) -> CellView<'_>
        ensures { cell_viewed result ≡ self.now }
    {
        match &self.kept {
            Kept::Number(number) => CellView::Number(i128::from(*number)),
            Kept::Wide(number) => CellView::Number(**number),
            Kept::Text(text) => CellView::Text(text.as_slice()),
            Kept::All => CellView::All,
            Kept::Null => CellView::Null,
        }
    }
}

/// The outcome of a run: a name for each show line, the rows in order, each with a cell for each
/// name, and three counts.
#[derive(Drop)]
pub struct Outcome {
    pub names: Items<Name>,
    pub rows: CellRows,
    /// The number of visits.
    pub visits: u64,
    /// The number of look-ups.
    pub lookups: u64,
    /// The number of updates.
    pub updates: u64,
}
