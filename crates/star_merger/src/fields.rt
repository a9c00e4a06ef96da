// The fields of a partial's text, read one after another.

use crate::spelled::is_field;
use itoa::Buffer;
use star_partial::ColumnKind;
use star_program::{Cell, CellText, Items};
use std::alloc::{AllocError, AllocFailed, Global};
use std::str;

/// Why a field was not read.
#[derive(Clone, Copy)]
pub(crate) enum FieldFault {
    OutOfMemory,
    Unreadable,
}

impl From<AllocError> for FieldFault {
    fn from(_error: AllocError) -> FieldFault {
        FieldFault::OutOfMemory
    }
}

impl<T: Drop> From<AllocFailed<T>> for FieldFault {
    fn from(_error: AllocFailed<T>) -> FieldFault {
        FieldFault::OutOfMemory
    }
}

/// The rest of a text. A field that cannot be read is not removed from it.
#[derive(Drop)]
pub(crate) struct Fields<'a> {
    pub(crate) rest: &'a [u8],
}

// Returns the bytes before the next `end` and those after it, or all and none.
fn cut(text: &[u8], end: u8) -> (&[u8], &[u8]) {
    match text.iter().position(|byte| *byte == end) {
        Some(index) => (&text[..index], &text[index + 1..]),
        None => (text, &[]),
    }
}

// Returns the number of at most 38 digits that a text writes in its one form.
fn number_of(digits: &[u8]) -> Result<i128, FieldFault> {
    let Ok(text) = str::from_utf8(digits) else {
        return Err(FieldFault::Unreadable);
    };
    let Ok(number) = text.parse::<i128>() else {
        return Err(FieldFault::Unreadable);
    };
    if Buffer::new().format(number).as_bytes() == digits
        && number.unsigned_abs() < 100_000_000_000_000_000_000_000_000_000_000_000_000
    {
        Ok(number)
    } else {
        Err(FieldFault::Unreadable)
    }
}

// Returns a text between quotes, each doubled quote once.
fn unquoted(alloc: Global, quoted: &[u8]) -> Result<Vec<u8>, AllocError> {
    let mut text = Vec::with_capacity(alloc, quoted.len())?;
    let mut is_first = false;
    for byte in quoted {
        is_first = *byte == b'\'' && !is_first;
        if *byte != b'\'' || is_first {
            text.push(*byte)?;
        }
    }
    Ok(text)
}

// Returns the text of a field.
fn text_of(alloc: Global, field: &[u8]) -> Result<Vec<u8>, AllocError> {
    match field {
        [b'\'', quoted @ .., b'\''] => unquoted(alloc, quoted),
        _ => field.to_vec(alloc),
    }
}

fn total_of(field: &[u8]) -> Result<Cell, FieldFault> {
    if field == b"NULL".as_slice() {
        Ok(Cell::Null)
    } else {
        Ok(Cell::Number(number_of(field)?))
    }
}

fn cell_of(alloc: Global, kind: ColumnKind, field: &[u8]) -> Result<Cell, FieldFault> {
    match kind {
        ColumnKind::NumberKey => Ok(Cell::Number(number_of(field)?)),
        ColumnKind::TextKey => {
            let text = text_of(alloc, field)?;
            if !is_field(&text) {
                return Err(FieldFault::Unreadable);
            }
            Ok(Cell::Text(CellText::new(alloc, Items::from_vec(text))?))
        }
        ColumnKind::Total => total_of(field),
    }
}

impl<'a> Fields<'a> {
    /// Removes a text from the front.
    pub(crate) fn skip(&mut self, text: &[u8]) -> Result<(), FieldFault> {
        match self.rest.strip_prefix(text) {
            Some(rest) => {
                self.rest = rest;
                Ok(())
            }
            None => Err(FieldFault::Unreadable),
        }
    }

    /// Removes a number of 64 bits and the byte that ends it.
    pub(crate) fn number(&mut self, end: u8) -> Result<i64, FieldFault> {
        let (field, rest) = cut(self.rest, end);
        match i64::try_from(number_of(field)?) {
            Ok(number) => {
                self.rest = rest;
                Ok(number)
            }
            Err(_) => Err(FieldFault::Unreadable),
        }
    }

    /// The same of a number that is not negative.
    pub(crate) fn count(&mut self, end: u8) -> Result<u64, FieldFault> {
        let (field, rest) = cut(self.rest, end);
        match u64::try_from(number_of(field)?) {
            Ok(number) => {
                self.rest = rest;
                Ok(number)
            }
            Err(_) => Err(FieldFault::Unreadable),
        }
    }

    /// Removes the digits of a digest and the line's end.
    pub(crate) fn digest(&mut self) -> Result<[u8; 32], FieldFault> {
        let (field, rest) = cut(self.rest, b'\n');
        let mut digest = [0u8; 32];
        match hex::decode_to_slice(field, &mut digest[..]) {
            Ok(()) => {
                self.rest = rest;
                Ok(digest)
            }
            Err(_) => Err(FieldFault::Unreadable),
        }
    }

    /// Removes a cell and the byte that ends it.
    pub(crate) fn cell(
        &mut self,
        alloc: Global,
        kind: ColumnKind,
        end: u8,
    ) -> Result<Cell, FieldFault> {
        let (field, rest) = cut(self.rest, end);
        let cell = cell_of(alloc, kind, field)?;
        self.rest = rest;
        Ok(cell)
    }
}
