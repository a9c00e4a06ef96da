// The notes of a run.

ghost use Rattle.std.specs.Prelude.{◌≡◌, IfOk, string_bytes};
ghost use Rattle.star_engine.specs.{Executions.IsQuote, Executions.quote_over, Notes.forecast_line, Notes.quote_line, RunTexts.most_rows_over};

use star_catalogue::Catalogue;
use star_program::Program;
use star_verify::{Verified, quote};
use std::alloc::{AllocError, Global};

// Returns the note of a quote.
#[tactic(auto, unfolding(crate::specs::Notes::quote_line))]
pub(crate) fn quote_note(alloc: Global, visits: u128) -> Result<String, AllocError>
    ensures { IfOk result (λ note. string_bytes note ≡ quote_line visits) }
{
    format!(in alloc; "quote {visits}\n")
}

// Returns the note of a program's quote over loaded tables.
pub(crate) fn program_note(
    alloc: Global,
    catalogue: &Catalogue,
    program: &Program,
) -> Result<String, AllocError>
    ensures { IfOk result (λ note. IsQuote catalogue.now program.now (string_bytes note)) }
{
    quote_note(alloc, quote(program, &catalogue.sizes()))
}

// Returns the line of an accepted program: its quote, and the maximum number of rows of its report.
#[tactic(auto, unfolding(crate::specs::Notes::forecast_line))]
pub(crate) fn forecast_note(alloc: Global, verified: &Verified<'_>) -> Result<String, AllocError>
    ensures { IfOk result (λ note. string_bytes note
        ≡ forecast_line (quote_over verified.now.database verified.now.program)
        (most_rows_over verified.now.database verified.now.program)) }
{
    let visits = verified.quote();
    let rows = verified.most_rows();
    format!(in alloc; "quote {visits} rows {rows}\n")
}
