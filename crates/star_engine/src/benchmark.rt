// The thirteen queries of the benchmark over one load.

ghost use Rattle.std.specs.Prelude.{◌≡◌, ◌↔◌, IfOk, IsTrue, MatchResult, false};
ghost use Rattle.star_engine.specs.{Bench.AllFit, Bench.IsBenchOver, Bench.IsSection, Executions.quote_over, Private.BenchSteps.IsRunFound, Private.Steps.IsMemory, Queries.FitsRows, Questions.Asks, Thirteen.query_text};
ghost use Rattle.star_engine.specs.Bench as spec;

use crate::executions::run_checked;
use crate::fault::EngineFault;
use crate::notes::program_note;
use crate::query_laws::{each_query_has_laws, the_thirteen_are_queries};
use crate::question::Question;
use crate::thirteen::{BenchmarkQuery, THIRTEEN};
use star_catalogue::Catalogue;
use star_schema::Limits;
use std::alloc::{AllocError, Global};

// A section of the benchmark's text, and whether each of its queries fits.
#[derive(Drop)]
pub(crate) struct Finding {
    pub(crate) text: Vec<u8>,
    pub(crate) fits: bool,
}

// Returns the question of a benchmark query.
fn question_of(alloc: Global, query: BenchmarkQuery) -> Result<Question, EngineFault>
    ensures { MatchResult result (Asks false (query_text query)) IsMemory }
{
    the_thirteen_are_queries();
    Question::query(alloc, query.text().as_bytes())
}

// Answers a question over loaded tables. A refusal is a line here, not an error.
fn find(
    alloc: Global,
    catalogue: &Catalogue,
    question: Question,
    limits: Limits,
) -> Result<Finding, AllocError>
    ensures { IfOk result (λ finding.
        IsRunFound catalogue.now limits.visits question.program finding.fits finding.text.items) }
{
    match run_checked(alloc, catalogue, question.program, limits) {
        Ok(ran) => Ok(Finding {
            text: ran.report,
            fits: true,
        }),
        Err(EngineFault::Refused(refusal)) => {
            let line = format!(in alloc; "{refusal}\n")?;
            let text = line.into_bytes();
            Ok(Finding { text, fits: false })
        }
        Err(EngineFault::OutOfMemory) => Err(AllocError),
        Err(_) => unreachable!(),
    }
}

// Returns the quote of a query's program, with the query's name.
fn named_quote(
    alloc: Global,
    catalogue: &Catalogue,
    query: BenchmarkQuery,
    question: &Question,
) -> Result<Vec<u8>, AllocError>
    ensures { IfOk result (λ text. text.items
        ≡ spec.named_quote query (quote_over catalogue.now question.now.program)) }
{
    let name = query.name();
    let note = program_note(alloc, catalogue, &question.program)?;
    let text = format!(in alloc; "{name} {note}")?;
    Ok(text.into_bytes())
}

// Returns the section of a query, and whether the query fits.
fn section_of(
    alloc: Global,
    catalogue: &Catalogue,
    query: BenchmarkQuery,
    limits: Limits,
) -> Result<Finding, EngineFault>
    ensures { MatchResult result (λ found.
        IsSection limits.visits catalogue.now query found.text.items
        × (IsTrue found.fits ↔ FitsRows limits.visits catalogue.now (query_text query))) IsMemory }
{
    each_query_has_laws(catalogue);
    let question = question_of(alloc, query)?;
    let mut text = named_quote(alloc, catalogue, query, &question)?;
    let found = find(alloc, catalogue, question, limits)?;
    text.extend_from_slice(found.text.as_slice())?;
    let fits = found.fits;
    Ok(Finding { text, fits })
}

// Returns the text of the thirteen queries over loaded tables, and whether all of them fit.
pub(crate) fn bench_of(
    alloc: Global,
    catalogue: &Catalogue,
    limits: Limits,
) -> Result<Finding, EngineFault>
    ensures { MatchResult result (λ found. IsBenchOver limits.visits catalogue.now found.text.items
        × (IsTrue found.fits ↔ AllFit limits.visits catalogue.now)) IsMemory }
{
    let mut text = Vec::new(alloc);
    let mut fits = true;
    for query in &THIRTEEN {
        let section = section_of(alloc, catalogue, *query, limits)?;
        text.extend_from_slice(section.text.as_slice())?;
        fits &= section.fits;
    }
    Ok(Finding { text, fits })
}
