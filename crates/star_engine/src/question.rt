// Questions: queries and programs that were read.

ghost use Rattle.std.specs.Prelude.{◌≡◌, ℕ, List, true, false, MatchResult};
ghost use Rattle.star_engine.specs.{Answered.OrMemory, Loads.IsProgramError, Queries.IsExplained, Queries.IsQueryError, Questions.Asks, QuoteTexts.IsQuoteErrorOver, QuoteTexts.is_program_file, Private.Steps.IsMemory};

use crate::fault::EngineFault;
use crate::query_laws::programs_of_queries_report_them;
use star_compile::compile;
use star_plan::plan;
use star_program::Program;
use star_query::Query;
use std::alloc::Global;

/// A query that was parsed, planned and compiled, or a program. It is read before any table.
#[derive(Drop)]
pub struct Question {
    pub(crate) program: Program,
}

// Tests whether a file is taken for a program.
fn is_program(file: &[u8]) -> bool
    ensures { result ≡ is_program_file file.now }
{
    file.starts_with(b"star program ")
}

impl Question {
    /// Reads a query, or returns its first error.
    pub fn query(alloc: Global, text: &[u8]) -> Result<Question, EngineFault>
        ensures { MatchResult result (Asks false text.now) (OrMemory (IsQueryError text.now)) }
    {
        let query = Query::parse(alloc, text)?;
        let plan = plan(alloc, &query)?;
        let program = compile(alloc, &plan)?;
        Ok(Question { program })
    }

    /// Reads a program, or returns its first error.
    pub fn program(alloc: Global, file: &[u8]) -> Result<Question, EngineFault>
        ensures { MatchResult result (Asks true file.now) (OrMemory (IsProgramError file.now)) }
    {
        let program = Program::parse(alloc, file)?;
        Ok(Question { program })
    }

    /// Reads a file as a program if it begins with `star program `, otherwise as a query, or
    /// returns its first error.
    pub fn of_file(alloc: Global, file: &[u8]) -> Result<Question, EngineFault>
        ensures { MatchResult result (Asks (is_program_file file.now) file.now)
            (OrMemory (IsQuoteErrorOver file.now)) }
    {
        if is_program(file) {
            Question::program(alloc, file)
        } else {
            Question::query(alloc, file)
        }
    }

    /// Returns the text of the program of a query.
    pub(crate) fn to_text(&self) -> Result<Vec<u8>, EngineFault>
        ensures { (query : List ℕ) → Asks false query self.now
            → MatchResult result (λ text. IsExplained query text.items) IsMemory }
    {
        programs_of_queries_report_them();
        Ok(self.program.to_text()?)
    }
}
