// The text of a partial, read.

ghost use Rattle.std.specs.Prelude.{◌≡◌, IfOk, OnOk};
ghost use Rattle.star_partial.specs.Text.{partial_text};
ghost use Rattle.star_merger.specs.{Columns.column_kinds, Columns.column_names, Partials.contents_of, Spelled.IsSpelled};

use crate::columns::PartialColumn;
use crate::fault::PartialFault;
use crate::fields::{FieldFault, Fields};
use crate::order::first_misplaced;
use crate::partial::Partial;
use crate::pieces::read_contents;
use crate::spelled::is_spelled;
use star_partial::{ColumnKind, Partial as Whole};
use std::alloc::{AllocError, Global};

// Returns the number of the line, from 1, that has the byte at a position.
fn line_at(text: &[u8], index: usize) -> usize {
    text.iter()
        .take(index)
        .filter(|byte| **byte == b'\n')
        .count()
        .saturating_add(1)
}

/// Returns the number of the line `dimensions ..` in the partials of a query. The line of the span
/// follows, and then 35 lines of listing and the line of the run.
pub(crate) fn dimensions_line(query: &[u8]) -> usize {
    line_at(query, query.len()).saturating_add(3)
}

// Returns the number of bytes before the first that differs.
fn common_bytes(text: &[u8], other: &[u8]) -> usize {
    text.iter()
        .zip(other.iter())
        .take_while(|(a, b)| **a == **b)
        .count()
}

// Returns why a text does not begin as the partials of a query do, with `head`.
fn fault_of_head(text: &[u8], head: &[u8]) -> PartialFault {
    match line_at(text, common_bytes(text, head)) {
        1 => PartialFault::BadHeader,
        line => PartialFault::OtherQuery { line },
    }
}

// Returns the beginning of the partials of a query.
fn head_of(alloc: Global, query: &[u8]) -> Result<Vec<u8>, AllocError> {
    let count = query.len();
    let line = format!(in alloc; "star partial 1\nquery {count}\n")?;
    let mut head = line.as_bytes().to_vec(alloc)?;
    head.extend_from_slice(query)?;
    head.extend_from_slice(b"\n")?;
    Ok(head)
}

// Returns the number of the columns that are keys.
fn keys_in(columns: &[PartialColumn]) -> usize {
    columns
        .iter()
        .filter(|column| !matches!(column.kind, ColumnKind::Total))
        .count()
}

// Returns the line of the first row that does not come after the row before it.
fn misplaced_line(text: &[u8], columns: &[PartialColumn], partial: &Whole) -> Option<usize> {
    let Some(outcome) = &partial.run else {
        return None;
    };
    let number = first_misplaced(keys_in(columns), &outcome.rows)?;
    // The rows are the last lines.
    let behind = outcome.rows.len().saturating_sub(number);
    Some(line_at(text, text.len()).saturating_sub(behind))
}

// Reads the text of a partial up to its order.
fn read_text(
    alloc: Global,
    head: &[u8],
    columns: &[PartialColumn],
    text: &[u8],
) -> Result<Partial, PartialFault> {
    let Some(rest) = text.strip_prefix(head) else {
        return Err(fault_of_head(text, head));
    };
    let mut fields = Fields { rest };
    match read_contents(alloc, &mut fields, columns) {
        Ok(partial) => Ok(partial),
        Err(FieldFault::OutOfMemory) => Err(PartialFault::OutOfMemory),
        Err(FieldFault::Unreadable) => {
            let index = text.len().saturating_sub(fields.rest.len());
            let line = line_at(text, index);
            Err(PartialFault::BadLine { line })
        }
    }
}

// Fails if a text is not the one that was written again.
fn compare(text: &[u8], written: &[u8]) -> Result<(), PartialFault>
    ensures { OnOk result (text.now ≡ written.now) }
{
    if written != text {
        let line = line_at(text, common_bytes(text, written));
        return Err(PartialFault::BadLine { line });
    }
    Ok(())
}

/// Reads the text of a partial of a query, whose report has these columns. It is exactly the text
/// that `to_text` returns for the partial.
///
/// The error names the first line that is wrong. A row must come after the row before it.
pub(crate) fn read_partial(
    alloc: Global,
    query: &[u8],
    columns: &[PartialColumn],
    text: &[u8],
) -> Result<Partial, PartialFault>
    ensures text { IfOk result
        (λ partial. text.now ≡ partial_text query.now (contents_of partial)) }
    ensures spelled { IfOk result (λ partial. IsSpelled (column_names columns.now)
        (column_kinds columns.now) (contents_of partial)) }
{
    let head = head_of(alloc, query)?;
    let partial = read_text(alloc, &head, columns, text)?;
    let whole = partial.unpacked(alloc)?;
    let written = whole.to_text(alloc, query)?;
    compare(text, &written)?;
    if !is_spelled(&whole, columns) {
        let line = line_at(text, text.len());
        return Err(PartialFault::BadLine { line });
    }
    match misplaced_line(text, columns, &whole) {
        Some(line) => Err(PartialFault::BadOrder { line }),
        None => Ok(partial),
    }
}
