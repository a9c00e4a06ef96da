// The text of a partial, written.

ghost use Rattle.std.specs.Prelude.{◌≡◌, ◌++◌, Some, IfOk, OnOk, string_bytes};
ghost use Rattle.star_partial.specs.{Contents.contents_of, Text.{digest_line, head_text, partial_text, query_text, rows_line, run_text, span_line}};

use crate::counts::counts_text;
use crate::listing::list_tables;
use crate::partial::{Partial, Span};
use star_program::Outcome;
use star_report::report_text;
use std::alloc::{AllocError, Global};

#[tactic(auto, unfolding(crate::specs::Text::head_text))]
fn head_text(alloc: Global, count: usize) -> Result<String, AllocError>
    ensures { IfOk result (λ text. string_bytes text ≡ head_text count) }
{
    format!(in alloc; "star partial 1\nquery {count}\n")
}

#[tactic(auto, unfolding(crate::specs::Text::query_text))]
fn push_query(text: &mut Vec<u8>, alloc: Global, query: &[u8]) -> Result<(), AllocError>
    ensures { OnOk result (text.new.items ≡ text.old.items ++ query_text query.now) }
{
    let head = head_text(alloc, query.len())?;
    text.extend_from_slice(head.as_bytes())?;
    text.extend_from_slice(query)?;
    text.push(b'\n')?;
    Ok(())
}

#[tactic(auto, unfolding(crate::specs::Text::digest_line))]
fn push_digest(text: &mut Vec<u8>, alloc: Global, digest: &[u8; 32]) -> Result<(), AllocError>
    ensures { OnOk result (text.new.items ≡ text.old.items ++ digest_line digest.now) }
{
    let digits = hex::encode(alloc, &digest[..])?;
    text.extend_from_slice(b"dimensions ")?;
    text.extend_from_slice(digits.as_bytes())?;
    text.push(b'\n')?;
    Ok(())
}

#[tactic(auto, unfolding(crate::specs::Text::span_line))]
fn span_text(alloc: Global, span: &Span) -> Result<String, AllocError>
    ensures { IfOk result (λ text. string_bytes text ≡ span_line (Some span.now)) }
{
    let a = span.low.order;
    let b = span.low.line;
    let c = span.high.order;
    let d = span.high.line;
    format!(in alloc; "keys {a} {b} {c} {d}\n")
}

#[tactic(auto, unfolding(crate::specs::Text::span_line))]
fn push_span(text: &mut Vec<u8>, alloc: Global, span: &Option<Span>) -> Result<(), AllocError>
    ensures { OnOk result (text.new.items ≡ text.old.items ++ span_line span.now) }
{
    match span {
        Some(span) => {
            let line = span_text(alloc, span)?;
            text.extend_from_slice(line.as_bytes())
        }
        None => text.extend_from_slice(b"keys none\n"),
    }
}

#[tactic(auto, unfolding(crate::specs::Text::rows_line))]
fn rows_text(alloc: Global, rows: usize) -> Result<String, AllocError>
    ensures { IfOk result (λ text. string_bytes text ≡ rows_line rows) }
{
    format!(in alloc; "rows {rows}\n")
}

#[tactic(auto, unfolding(crate::specs::Text::run_text))]
fn push_outcome(text: &mut Vec<u8>, alloc: Global, outcome: &Outcome) -> Result<(), AllocError>
    ensures { OnOk result (text.new.items ≡ text.old.items ++ run_text (Some outcome.now)) }
{
    let counts = counts_text(alloc, outcome)?;
    let rows = rows_text(alloc, outcome.rows.len())?;
    let report = report_text(alloc, outcome)?;
    text.extend_from_slice(counts.as_bytes())?;
    text.extend_from_slice(rows.as_bytes())?;
    text.extend_from_slice(report.as_slice())
}

#[tactic(auto, unfolding(crate::specs::Text::run_text))]
fn push_run(text: &mut Vec<u8>, alloc: Global, run: &Option<Outcome>) -> Result<(), AllocError>
    ensures { OnOk result (text.new.items ≡ text.old.items ++ run_text run.now) }
{
    match run {
        Some(outcome) => push_outcome(text, alloc, outcome),
        None => text.extend_from_slice(b"refused\n"),
    }
}

impl Partial {
    /// Returns the text of the partial of a query.
    #[tactic(auto, unfolding(crate::specs::Text::partial_text))]
    pub fn to_text(&self, alloc: Global, query: &[u8]) -> Result<Vec<u8>, AllocError>
        ensures { IfOk result (λ text. text.items ≡ partial_text query.now (contents_of self.now)) }
    {
        let mut text = Vec::new(alloc);
        push_query(&mut text, alloc, query)?;
        push_digest(&mut text, alloc, &self.digest)?;
        push_span(&mut text, alloc, &self.span)?;
        let listing = list_tables(alloc, self.sizes, &self.bounds)?;
        text.extend_from_slice(listing.as_bytes())?;
        push_run(&mut text, alloc, &self.run)?;
        Ok(text)
    }
}
