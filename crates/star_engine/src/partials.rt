// The partial of a query over loaded tables.

ghost use Rattle.std.specs.Prelude.{ℕ, List, MatchResult};
ghost use Rattle.star_plan.specs.Meaning.{Plan};
ghost use Rattle.star_partial.specs.Contents.{contents_of};
ghost use Rattle.star_engine.specs.{Answered.OrMemory, Partials.IsPartialOver, Private.PartialSteps.HasPlainProgramLaws, Private.PartialSteps.IsPlainProgram, Private.PartialSteps.IsRunIfAccepted, Private.Steps.IsMemory, Queries.IsPlanOf, Queries.IsQueryError};

use crate::digest::digest_of;
use crate::executions::checked;
use crate::fault::EngineFault;
use crate::spans::span_of;
use star_catalogue::Catalogue;
use star_compile::compile_plain;
use star_compile_laws::acceptance::compiled_programs_are_accepted_where_they_fit_the_tables;
use star_machine::run;
use star_partial::Partial;
use star_plan::plan;
use star_program::{Outcome, Program};
use star_query::Query;
use star_query_meaning::law::plans_fit_where_their_queries_do;
use star_safety::law::admissible_programs_within_the_limit_are_not_refused;
use star_schema::Limits;
use star_verify::Facts;
use star_world::law::sound_rows_have_a_world;
use std::alloc::Global;

// What the laws say of the plain program of each query over loaded tables.
fn each_plain_query_has_laws(catalogue: &Catalogue)
    ensures { (most : ℕ) (query : List ℕ) (p : Plan) (meant : IsPlanOf query p)
        → HasPlainProgramLaws most catalogue.now query p meant }
{
    compiled_programs_are_accepted_where_they_fit_the_tables();
    plans_fit_where_their_queries_do();
    admissible_programs_within_the_limit_are_not_refused();
    sound_rows_have_a_world();
    catalogue.law();
}

fn plain_program(alloc: Global, text: &[u8]) -> Result<Program, EngineFault>
    ensures { MatchResult result (λ program. IsPlainProgram text.now program)
        (OrMemory (IsQueryError text.now)) }
{
    let query = Query::parse(alloc, text)?;
    let plan = plan(alloc, &query)?;
    Ok(compile_plain(alloc, &plan)?)
}

// Runs a program over loaded tables, unless it is refused.
fn run_if_accepted(
    alloc: Global,
    catalogue: &Catalogue,
    program: Program,
    limits: Limits,
) -> Result<Option<Outcome>, EngineFault>
    ensures { MatchResult result (IsRunIfAccepted limits.visits catalogue.now program) IsMemory }
{
    match checked(alloc, catalogue, program, limits) {
        Ok(verified) => Ok(Some(run(alloc, &verified)?)),
        Err(EngineFault::Refused(_)) => Ok(None),
        Err(_) => Err(EngineFault::OutOfMemory),
    }
}

/// Returns the partial of the query that a text means over loaded tables.
pub(crate) fn partial_of(
    alloc: Global,
    catalogue: &Catalogue,
    query: &[u8],
    limits: Limits,
) -> Result<Partial, EngineFault>
    ensures { MatchResult result (λ partial.
        IsPartialOver limits.visits catalogue.now query.now (contents_of partial))
        (OrMemory (IsQueryError query.now)) }
{
    each_plain_query_has_laws(catalogue);
    let program = plain_program(alloc, query)?;
    let run = run_if_accepted(alloc, catalogue, program, limits)?;
    let facts = Facts::of(catalogue);
    let bounds = facts.bounds;
    let digest = digest_of(catalogue);
    let span = span_of(catalogue);
    Ok(Partial {
        digest,
        span,
        sizes: facts.sizes,
        bounds,
        run,
    })
}
