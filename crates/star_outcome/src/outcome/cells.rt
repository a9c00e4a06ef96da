// The cells of a report: rows with texts for codes, cut to the show lines.

ghost use Rattle.std.specs.{Prelude.{◌≡◌, ◌<◌, ◌++◌, IfOk, OnOk, All, length, map, true}, List.flat_map, Option.option_map};
ghost use Rattle.star_schema.specs.{Schema.kind_of, Columns.column_dictionary};
ghost use Rattle.star_group.specs.StoreRows.{row_at};
ghost use Rattle.star_program.specs.{Outcome.decoded, Outcome.decoded_row, RowCells.cell_of, ShowLines.has_column};
ghost use Rattle.star_outcome.specs.Private.Decoded.{AreDecodable, IsDecodable, row_cells};
ghost use Rattle.star_world.specs.WorldOf.{world_of};
ghost use Rattle.star_schema.specs.declared.column.Kind.TheVariants as kind;
ghost use Rattle.star_program.specs.RowCells as row_cells;

use super::ahead::Ahead;
use star_catalogue::Catalogue;
use star_group::{GroupRows, KeyValue};
use star_program::{Cell, CellRows, CellText, GroupDecl, GroupKey, Items, KeptCell, Name, Show};
use star_schema::{ColumnId, GroupColumn};
use std::alloc::{AllocError, Global};

// The text of a code.
fn text_cell(
    alloc: Global,
    catalogue: &Catalogue,
    column: ColumnId,
    code: u32,
) -> Result<Cell, AllocError>
    requires kind { kind_of column ≡ kind.Text }
    requires code { code < length (column_dictionary catalogue.now column) }
    ensures { IfOk result (λ cell. cell ≡ Cell.Text ((world_of catalogue.now).text column code)) }
{
    let text = catalogue.text(column, code).to_vec(alloc)?;
    Ok(Cell::Text(CellText::new(alloc, Items::from_vec(text))?))
}

// A key, as a report shows it.
fn key_cell(
    alloc: Global,
    catalogue: &Catalogue,
    declared: GroupKey,
    key: Option<KeyValue>,
) -> Result<Cell, AllocError>
    requires { IsDecodable catalogue.now declared key }
    ensures { IfOk result (λ cell. cell
        ≡ row_cells.key_cell (option_map (decoded (world_of catalogue.now) declared) key)) }
{
    match (key, declared) {
        (None, _) => Ok(Cell::All),
        (Some(KeyValue::Number(number)), _) => Ok(Cell::Number(i128::from(number))),
        (Some(KeyValue::Code(code)), GroupKey::Text(column)) => {
            text_cell(alloc, catalogue, column, code)
        }
        (Some(KeyValue::Code(_)), GroupKey::Number) => unreachable!(),
    }
}

// An aggregate, as a report shows it.
fn total_cell(total: Option<i128>) -> Cell
    ensures { result ≡ row_cells.total_cell total }
{
    match total {
        Some(number) => Cell::Number(number),
        None => Cell::Null,
    }
}

// The cell of a row in a column.
fn cell(
    alloc: Global,
    catalogue: &Catalogue,
    declared: &GroupDecl,
    rows: &GroupRows,
    number: usize,
    column: GroupColumn,
) -> Result<Cell, AllocError>
    requires keys { AreDecodable catalogue.now declared.now.keys (row_at rows.now number).keys }
    requires column { has_column declared.now column ≡ true }
    ensures { IfOk result (λ cell. cell
        ≡ cell_of (decoded_row (world_of catalogue.now) declared.now
        (row_at rows.now number)) column) }
{
    match column {
        GroupColumn::Key(index) => key_cell(
            alloc,
            catalogue,
            declared.keys.as_slice()[index as usize],
            rows.key(number, index as usize),
        ),
        GroupColumn::Aggregate(index) => Ok(total_cell(rows.aggregate(number, index as usize))),
    }
}

// Adds the cells of a row, one for each show line.
fn push_cells(
    alloc: Global,
    catalogue: &Catalogue,
    declared: &GroupDecl,
    rows: &GroupRows,
    number: usize,
    shows: &[Show],
    cells: &mut Vec<KeptCell>,
) -> Result<(), AllocError>
    requires keys { AreDecodable catalogue.now declared.now.keys (row_at rows.now number).keys }
    requires columns { All (λ show. has_column declared.now show.column ≡ true) shows.now }
    ensures { OnOk result (cells.new.items ≡ cells.old.items
        ++ row_cells (world_of catalogue.now) declared.now shows.now (row_at rows.now number)) }
{
    for show in shows {
        let shown = cell(alloc, catalogue, declared, rows, number, show.column)?;
        cells.push(KeptCell::new(alloc, shown)?)?;
    }
    Ok(())
}

// The cells of the rows of these numbers, one row after another.
fn all_cells(
    alloc: Global,
    catalogue: &Catalogue,
    declared: &GroupDecl,
    rows: &GroupRows,
    numbers: &[usize],
    shows: &[Show],
) -> Result<Vec<KeptCell>, AllocError>
    requires keys { All (λ number. AreDecodable catalogue.now declared.now.keys
        (row_at rows.now number).keys) numbers.now }
    requires columns { All (λ show. has_column declared.now show.column ≡ true) shows.now }
    ensures { IfOk result (λ cells. cells.items
        ≡ flat_map (λ number. row_cells (world_of catalogue.now) declared.now shows.now
        (row_at rows.now number)) numbers.now) }
{
    let count = numbers.len().checked_mul(shows.len()).ok_or(AllocError)?;
    let mut cells = Vec::with_capacity(alloc, count)?;
    let mut ahead = Ahead::new(alloc, numbers)?;
    for number in numbers {
        ahead.turn(rows)?;
        push_cells(alloc, catalogue, declared, rows, *number, shows, &mut cells)?;
    }
    Ok(cells)
}

// The rows of these numbers, cut to the show lines.
pub(super) fn cell_rows(
    alloc: Global,
    catalogue: &Catalogue,
    declared: &GroupDecl,
    rows: &GroupRows,
    numbers: &[usize],
    shows: &[Show],
) -> Result<CellRows, AllocError>
    requires keys { All (λ number. AreDecodable catalogue.now declared.now.keys
        (row_at rows.now number).keys) numbers.now }
    requires columns { All (λ show. has_column declared.now show.column ≡ true) shows.now }
    ensures { IfOk result (λ table. table
        ≡ map (λ number. row_cells (world_of catalogue.now) declared.now shows.now
        (row_at rows.now number)) numbers.now) }
{
    let cells = all_cells(alloc, catalogue, declared, rows, numbers, shows)?;
    Ok(CellRows::from_cells(shows.len(), numbers.len(), cells))
}

// The names of the show lines.
pub(crate) fn names(alloc: Global, shows: &[Show]) -> Result<Items<Name>, AllocError>
    ensures { IfOk result (λ names. names ≡ map (λ show. show.name) shows.now) }
{
    let mut names = Vec::with_capacity(alloc, shows.len())?;
    for show in shows {
        names.push(Items::from_vec(show.name.as_slice().to_vec(alloc)?))?;
    }
    Ok(Items::from_vec(names))
}
