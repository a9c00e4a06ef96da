// A column as it was read.

ghost use Rattle.std.specs.Prelude.{◌≡◌, ◌++◌, ◌∷◌, [], ℕ, None, Some, IfOk, MatchOption, MatchResult, false, true, take};
ghost use Rattle.star_common.specs.Memory.{UnlessMemory};
ghost use Rattle.star_reader.specs.{Columns.raw_kind, Columns.values, Faults.cell_fault, Private.Fronts.IsEndOf, Private.Fronts.IsFront};
ghost use Rattle.star_schema.specs.Tables as spec;

use crate::cell::parse_number;
use crate::fault::ReadFault;
use crate::front::{number_front, text_front};
use star_common::are_printable;
use star_flat::{FlatNumbers, RepeatedTexts};
use star_schema::Kind;
use std::alloc::{AllocError, Global};

/// The values of a column, in the order of the rows.
#[derive(Drop)]
pub enum RawColumn {
    Numbers(FlatNumbers),
    Texts(RepeatedTexts),
}

// The fault of a cell of a column of texts, if it has one.
fn check_text(at_row: u32, field: usize, cell: &[u8]) -> Result<(), ReadFault>
    ensures { MatchResult result (λ _. cell_fault at_row field Kind.Text cell.now ≡ None)
        (λ fault. cell_fault at_row field Kind.Text cell.now ≡ Some fault) }
{
    if cell.len() > 255 {
        return Err(ReadFault::CellTooLong { at_row, field });
    }
    if !are_printable(cell) {
        return Err(ReadFault::BadByte { at_row, field });
    }
    Ok(())
}

// The fault of a cell of a column of numbers that writes none.
fn number_fault(at_row: u32, field: usize, cell: &[u8]) -> ReadFault
    requires { spec.is_number cell.now ≡ false }
    ensures { cell_fault at_row field Kind.Number cell.now ≡ Some result }
{
    match check_text(at_row, field, cell) {
        Ok(()) => ReadFault::BadNumber { at_row, field },
        Err(fault) => fault,
    }
}

impl RawColumn {
    /// A column without values.
    pub(crate) fn new(alloc: Global, kind: Kind) -> RawColumn
        ensures kind { raw_kind result ≡ kind }
        ensures values { values result ≡ [] }
    {
        match kind {
            Kind::Number => RawColumn::Numbers(FlatNumbers::new(alloc)),
            Kind::Text => RawColumn::Texts(RepeatedTexts::new(alloc)),
        }
    }

    /// Adds the value of a cell, by the numbers of its record and its field.
    pub(crate) fn push_cell(
        &mut self,
        at_row: u32,
        field: usize,
        cell: &[u8],
    ) -> Result<(), ReadFault>
        ensures pushed { MatchResult result
            (λ _. (cell_fault at_row field (raw_kind self.old) cell.now ≡ None)
            × (values self.new ≡ values self.old ++ spec.value_of (raw_kind self.old) cell.now ∷ []))
            (λ fault. UnlessMemory ReadFault.OutOfMemory fault
            (cell_fault at_row field (raw_kind self.old) cell.now ≡ Some fault)) }
        ensures kind { raw_kind self.new ≡ raw_kind self.old }
    {
        match self {
            RawColumn::Numbers(numbers) => match parse_number(cell) {
                Some(number) => numbers.push(number)?,
                None => return Err(number_fault(at_row, field, cell)),
            },
            RawColumn::Texts(texts) => {
                check_text(at_row, field, cell)?;
                texts.push(cell)?;
            }
        }
        Ok(())
    }

    /// Adds the value of the first field of a text, the end of a line, and gives how many bytes that
    /// field has; none if it is no cell of the column.
    #[inline(always)]
    pub(crate) fn push_front(
        &mut self,
        line: &[u8],
        text: &[u8],
    ) -> Result<Option<usize>, AllocError>
        requires { IsEndOf line.now text.now }
        ensures pushed { IfOk result (λ found. MatchOption found
            ((count : ℕ) → IsFront text.now count
            → spec.is_cell (raw_kind self.old) (take count text.now) ≡ false)
            (λ count. IsFront text.now count
            × (spec.is_cell (raw_kind self.old) (take count text.now) ≡ true)
            × (values self.new
            ≡ values self.old ++ spec.value_of (raw_kind self.old) (take count text.now) ∷ []))) }
        ensures kind { raw_kind self.new ≡ raw_kind self.old }
    {
        match self {
            RawColumn::Numbers(numbers) => match number_front(text) {
                Some(number) => {
                    numbers.push(number.value)?;
                    Ok(Some(number.count))
                }
                None => Ok(None),
            },
            RawColumn::Texts(texts) => match text_front(line, text) {
                Some(count) => {
                    texts.push_front(text, count)?;
                    Ok(Some(count))
                }
                None => Ok(None),
            },
        }
    }
}
