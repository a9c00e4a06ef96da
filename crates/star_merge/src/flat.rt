// The rows of a partial's report in little memory.

ghost use Rattle.std.specs.Prelude.{◌≡◌, ◌++◌, ◌≤◌, ◌*◌, [], IfOk, IfSome, OnOk, length, take};
ghost use Rattle.star_program.specs.{CellViews.cell_viewed, Rows.cut};
ghost use Rattle.star_merge.specs.{Private.Flat.AreFlattened, Private.Flat.flat_cell, Private.Flat.flat_cells};

use star_flat::{FlatNumbers, FlatTexts};
use star_program::{Cell, CellRows, CellText, CellView, Items, KeptCell};
use std::alloc::{AllocError, Global};
use std::marker::Model;

/// The rows of a report with the same number of cells each, in little memory. Up to the first cell that
/// is neither a number of 64 bits nor a nonempty text, a number takes as many bytes as the widest of
/// them, and a text its own. A contract sees the list of the rows.
#[derive(Drop)]
pub struct FlatRows {
    width: usize,
    len: usize,
    numbers: FlatNumbers,
    texts: FlatTexts,
    others: Vec<KeptCell>,
}

impl Model for FlatRows {
    ghost use Rattle.std.specs.Prelude.{◌≡◌, ◌++◌, ◌*◌, List, length};
    ghost use Rattle.star_program.specs.Rows.{cut};
    ghost use Rattle.star_program.specs.declared.outcome.Cell.{Cell as Shown};
    ghost use Rattle.star_merge.specs.Private.Flat.{flat_cells};

    ghost Value = { List (List Shown) };

    ghost view = { λ rows. cut rows.width rows.len
        (flat_cells rows.numbers rows.texts ++ rows.others.items) };

    ghost invariant = { λ rows. (length rows.numbers ≡ length rows.texts)
        × (length (flat_cells rows.numbers rows.texts ++ rows.others.items)
        ≡ rows.len * rows.width) };
}

// Returns the number and the text of a flat cell.
fn flat_of(cell: &KeptCell) -> Option<(i64, &[u8])>
    ensures { IfSome result (λ flat. flat_cell flat.0 flat.1.now ≡ cell.now) }
{
    match cell.as_view() {
        CellView::Number(number) => match i64::try_from(number) {
            Ok(number) => Some((number, &[])),
            Err(_) => None,
        },
        CellView::Text([]) => None,
        CellView::Text(text) => Some((0, text)),
        CellView::All | CellView::Null => None,
    }
}

// Flattens the cells before the first that is not flat, and returns their number.
fn flatten(
    cells: &[KeptCell],
    numbers: &mut FlatNumbers,
    texts: &mut FlatTexts,
) -> Result<usize, AllocError>
    requires numbers { numbers.old ≡ [] }
    requires texts { texts.old ≡ [] }
    ensures { IfOk result (AreFlattened cells.now numbers.new texts.new) }
{
    for index in 0..cells.len() {
        let Some((number, text)) = flat_of(&cells[index]) else {
            return Ok(index);
        };
        numbers.push(number)?;
        texts.push(text)?;
    }
    Ok(cells.len())
}

fn shown(alloc: Global, cell: CellView<'_>) -> Result<Cell, AllocError>
    ensures { IfOk result (λ shown. shown ≡ cell_viewed cell.entry) }
{
    match cell {
        CellView::Number(number) => Ok(Cell::Number(number)),
        CellView::Text(text) => {
            let text = Items::from_vec(text.to_vec(alloc)?);
            Ok(Cell::Text(CellText::new(alloc, text)?))
        }
        CellView::All => Ok(Cell::All),
        CellView::Null => Ok(Cell::Null),
    }
}

// Adds copies of some cells.
fn push_copies(
    alloc: Global,
    others: &[KeptCell],
    cells: &mut Vec<KeptCell>,
) -> Result<(), AllocError>
    ensures { OnOk result (cells.new.items ≡ cells.old.items ++ others.now) }
{
    for other in others {
        let cell = shown(alloc, other.as_view())?;
        cells.push(KeptCell::new(alloc, cell)?)?;
    }
    Ok(())
}

// Returns a flat cell as it is shown.
fn flat_shown(alloc: Global, number: i64, text: &[u8]) -> Result<Cell, AllocError>
    ensures { IfOk result (λ shown. shown ≡ flat_cell number text.now) }
{
    match text {
        [] => Ok(Cell::Number(i128::from(number))),
        _ => shown(alloc, CellView::Text(text)),
    }
}

// Returns flat cells as they are shown.
fn unflattened(
    alloc: Global,
    numbers: &FlatNumbers,
    texts: &FlatTexts,
) -> Result<Vec<KeptCell>, AllocError>
    requires { length numbers.now ≡ length texts.now }
    ensures { IfOk result (λ cells. cells.items ≡ flat_cells numbers.now texts.now) }
{
    let mut cells = Vec::with_capacity(alloc, numbers.len())?;
    for index in 0..numbers.len() {
        let cell = flat_shown(alloc, numbers.get(index), texts.get(index))?;
        cells.push(KeptCell::new(alloc, cell)?)?;
    }
    Ok(cells)
}

impl FlatRows {
    /// Returns `len` rows of `width` cells each.
    pub fn of_cells(
        alloc: Global,
        width: usize,
        len: usize,
        cells: &[KeptCell],
    ) -> Result<FlatRows, AllocError>
        requires { length cells.now ≡ len * width }
        ensures { IfOk result (λ rows. rows ≡ cut width len cells.now) }
    {
        let mut numbers = FlatNumbers::new(alloc);
        let mut texts = FlatTexts::new(alloc);
        let count = flatten(cells, &mut numbers, &mut texts)?;
        let mut others = Vec::new(alloc);
        push_copies(alloc, &cells[count..], &mut others)?;
        Ok(FlatRows {
            width,
            len,
            numbers,
            texts,
            others,
        })
    }

    /// Returns the rows by cells.
    pub fn unpacked(&self, alloc: Global) -> Result<CellRows, AllocError>
        ensures { IfOk result (λ rows. rows ≡ self.now) }
    {
        let mut cells = unflattened(alloc, &self.numbers, &self.texts)?;
        push_copies(alloc, &self.others, &mut cells)?;
        Ok(CellRows::from_cells(self.width, self.len, cells))
    }
}
