// The text of an outcome: a line of names and a line for each row.

ghost use Rattle.std.specs.{Prelude.{◌≡◌, ◌++◌, ◌∷◌, ℕ, List, IfOk, OnOk, map}, Fmt.signed_decimal, List.{flat_map, join_with_byte}};
ghost use Rattle.star_report.specs.Report.{cell_text, field_of_text, is_ambiguous, line_text, report_text};

use itoa::Buffer;
use star_common::push_quoted;
use star_program::{CellView, Items, KeptCell, Outcome};
use std::alloc::{AllocError, Global};

/// The content of a field of a line.
trait Field {
    // Its printed form.
    ghost printed: { Self → List ℕ };

    /// Appends its printed form to a text.
    fn push_to(&self, text: &mut Vec<u8>) -> Result<(), AllocError>
        ensures { OnOk result (text.new.items ≡ text.old.items ++ printed self.now) };
}

// A name is printed without change.
impl Field for Items<u8> {
    ghost printed = { λ name. name };

    fn push_to(&self, text: &mut Vec<u8>) -> Result<(), AllocError> {
        text.extend_from_slice(self.as_slice())
    }
}

impl Field for KeptCell {
    ghost printed = { cell_text };

    #[tactic(auto, unfolding(crate::specs::Report::cell_text))]
    fn push_to(&self, text: &mut Vec<u8>) -> Result<(), AllocError> {
        match self.as_view() {
            CellView::Number(number) => push_number(text, number),
            CellView::Text(bytes) => push_text(text, bytes),
            CellView::All => text.extend_from_slice(b"ALL"),
            CellView::Null => text.extend_from_slice(b"NULL"),
        }
    }
}

fn push_number(text: &mut Vec<u8>, number: i128) -> Result<(), AllocError>
    ensures { OnOk result (text.new.items ≡ text.old.items ++ signed_decimal number) }
{
    text.extend_from_slice(Buffer::new().format(number).as_bytes())
}

/// Tests whether a text could be read as ALL or as a quoted text.
fn is_ambiguous(bytes: &[u8]) -> bool
    ensures { result ≡ is_ambiguous bytes.now }
{
    bytes == b"ALL".as_slice() || bytes.starts_with(b"'")
}

fn push_text(text: &mut Vec<u8>, bytes: &[u8]) -> Result<(), AllocError>
    ensures { OnOk result (text.new.items ≡ text.old.items ++ field_of_text bytes.now) }
{
    if is_ambiguous(bytes) {
        push_quoted(text, bytes)
    } else {
        text.extend_from_slice(bytes)
    }
}

/// Appends each field after a bar.
fn push_after_bars<F: Field>(text: &mut Vec<u8>, fields: &[F]) -> Result<(), AllocError>
    ensures { OnOk result
        (text.new.items ≡ text.old.items ++ flat_map (λ field. 124 ∷ F.printed field) fields.now) }
{
    for field in fields {
        text.push(b'|')?;
        field.push_to(text)?;
    }
    Ok(())
}

/// Appends fields with a bar between each two.
fn push_fields<F: Field>(text: &mut Vec<u8>, fields: &[F]) -> Result<(), AllocError>
    ensures { OnOk result
        (text.new.items ≡ text.old.items ++ join_with_byte 124 (map F.printed fields.now)) }
{
    match fields {
        [] => Ok(()),
        [first, others @ ..] => {
            first.push_to(text)?;
            push_after_bars(text, others)
        }
    }
}

#[tactic(auto, unfolding(crate::specs::Report::line_text))]
fn push_line<F: Field>(text: &mut Vec<u8>, fields: &[F]) -> Result<(), AllocError>
    ensures { OnOk result
        (text.new.items ≡ text.old.items ++ line_text (map F.printed fields.now)) }
{
    push_fields(text, fields)?;
    text.push(b'\n')?;
    Ok(())
}

/// Returns the printed report of an outcome: a line of names and a line for each row, in order.
/// Bars separate the fields, and a line feed ends each line. Among keys ALL is printed as `ALL`,
/// among aggregates NULL as `NULL`. A text that is `ALL` or begins with a quote is printed in
/// single quotes, with each quote inside doubled. The only error is out of memory.
pub fn report_text(alloc: Global, outcome: &Outcome) -> Result<Vec<u8>, AllocError>
    ensures { IfOk result (λ text. text.items ≡ report_text outcome.now.names outcome.now.rows) }
{
    let mut text = Vec::new(alloc);
    push_line(&mut text, outcome.names.as_slice())?;
    for number in 0..outcome.rows.len() {
        push_line(&mut text, outcome.rows.row(number))?;
    }
    Ok(text)
}
