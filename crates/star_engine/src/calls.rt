// The engine's calls over the texts of five tables.

ghost use Rattle.std.specs.Prelude.{◌≡◌, ◌≤◌, ◌^◌, ◌↔◌, ℕ, Bool, List, Err, IfErr, IfOk, IsTrue, MatchResult, OnOk};
ghost use Rattle.star_schema.specs.Loadable.{database_of};
ghost use Rattle.star_catalogue.specs.Load.{texts_view};
ghost use Rattle.star_engine.specs.{Answered.{HasWritten, IsBrokenOff, IsRefused, IsUntouched, OrMemory, change}, WithNotes.{HasWrittenRun, IsAnsweredWithNotes, IsRunBrokenOff, IsRunRefused, IsRunUnwritten}, Queries.{IsExplained, IsQueryError, IsQueryQuote, IsQueryRun, IsQueryRunError, IsReportOf}, Bench.{AllFit, IsBench}, Executions.{IsFileReport, IsQuoteOf, IsRunError, IsRunOf}, Listing.IsListing, Loads.IsLoadError, Questions.Asks, QuoteTexts.{IsErrorOfKind, IsQuoteError, IsQuoteText}, Trials.{IsTrialError, IsTrialReport}, Private.TextSteps.{IsQuoteOfTexts, IsRunOfTexts, IsRunErrorOfTexts}};

use crate::engine::Engine;
use crate::executions::write_text;
use crate::fault::EngineFault;
use crate::question::Question;
use star_catalogue::Texts;
use star_common::Sink;
use star_schema::Limits;
use std::alloc::Global;

/// Writes the row count of each table and the bounds of its numeric columns to `out`.
pub fn check<S: Sink>(
    alloc: Global,
    texts: &Texts<'_>,
    limits: Limits,
    out: &mut S,
) -> Result<(), EngineFault>
    ensures written { OnOk result (HasWritten (change S.contents S.is_failed out.old out.new)
        (IsListing limits.rows (texts_view texts.now))) }
    ensures broken { IfErr result (IsBrokenOff (change S.contents S.is_failed out.old out.new)
        (IsListing limits.rows (texts_view texts.now))) }
    ensures refused { IfErr result (IsRefused (change S.contents S.is_failed out.old out.new)
        (IsLoadError limits.rows (texts_view texts.now))) }
    ensures memory { result ≡ Err EngineFault.OutOfMemory
        → IsUntouched (change S.contents S.is_failed out.old out.new) }
{
    let engine = Engine::load(alloc, texts, limits)?;
    engine.check(alloc, out)
}

// Answers a question, or returns its error, over the texts of five tables.
fn answer<S: Sink, N: Sink>(
    alloc: Global,
    texts: &Texts<'_>,
    question: Result<Question, EngineFault>,
    limits: Limits,
    out: &mut S,
    notes: &mut N,
) -> Result<(), EngineFault>
    ensures { (is_program : Bool) (file : List ℕ)
        → MatchResult question (Asks is_program file) (OrMemory (IsErrorOfKind is_program file))
        → IsAnsweredWithNotes (change S.contents S.is_failed out.old out.new)
        (change N.contents N.is_failed notes.old notes.new)
        (IsQuoteOfTexts is_program limits.rows (texts_view texts.now) file)
        (IsRunOfTexts is_program limits.rows limits.visits (texts_view texts.now) file)
        (IsRunErrorOfTexts is_program limits.rows limits.visits (texts_view texts.now) file) result }
{
    let question = question?;
    let engine = Engine::load(alloc, texts, limits)?;
    engine.answer(alloc, question, out, notes)
}

/// Answers a query over the texts of five tables: writes its report to `out`.
///
/// The note of the quote, which is lineorder's row count, goes to `notes` before the query is
/// checked. The note of the run's counts follows the report. A query that does not fit the tables
/// is refused. The query's errors come before those of the tables.
pub fn answer_query<S: Sink, N: Sink>(
    alloc: Global,
    texts: &Texts<'_>,
    query: &[u8],
    limits: Limits,
    out: &mut S,
    notes: &mut N,
) -> Result<(), EngineFault>
    // The report, then the report with its notes.
    ensures reported { OnOk result (HasWritten (change S.contents S.is_failed out.old out.new)
        (IsReportOf limits.rows (texts_view texts.now) query.now)) }
    ensures noted { OnOk result (HasWrittenRun (change S.contents S.is_failed out.old out.new)
        (change N.contents N.is_failed notes.old notes.new)
        (IsQueryRun limits.rows limits.visits (texts_view texts.now) query.now)) }
    ensures broken { IfErr result (IsRunBrokenOff (change S.contents S.is_failed out.old out.new)
        (change N.contents N.is_failed notes.old notes.new)
        (IsQueryQuote limits.rows (texts_view texts.now) query.now)
        (IsQueryRun limits.rows limits.visits (texts_view texts.now) query.now)) }
    ensures refused { IfErr result (IsRunRefused (change S.contents S.is_failed out.old out.new)
        (change N.contents N.is_failed notes.old notes.new)
        (IsQueryQuote limits.rows (texts_view texts.now) query.now)
        (IsQueryRunError limits.rows limits.visits (texts_view texts.now) query.now)) }
    ensures memory { result ≡ Err EngineFault.OutOfMemory
        → IsRunUnwritten (change S.contents S.is_failed out.old out.new)
        (change N.contents N.is_failed notes.old notes.new)
        (IsQueryQuote limits.rows (texts_view texts.now) query.now) }
{
    let question = Question::query(alloc, query);
    answer(alloc, texts, question, limits, out, notes)
}

/// Verifies and runs the program in a file over the tables, and writes its report to `out`.
///
/// The note of the quote goes to `notes` before the check. The note of the run's counts follows the
/// report. A program is refused if it is not admissible over the tables, or if its quote exceeds
/// the limit. The file's errors come before those of the tables.
pub fn answer_program<S: Sink, N: Sink>(
    alloc: Global,
    texts: &Texts<'_>,
    file: &[u8],
    limits: Limits,
    out: &mut S,
    notes: &mut N,
) -> Result<(), EngineFault>
    // The report, then the report with its notes.
    ensures reported { OnOk result (HasWritten (change S.contents S.is_failed out.old out.new)
        (IsFileReport limits.rows (texts_view texts.now) file.now)) }
    ensures noted { OnOk result (HasWrittenRun (change S.contents S.is_failed out.old out.new)
        (change N.contents N.is_failed notes.old notes.new)
        (IsRunOf limits.rows limits.visits (texts_view texts.now) file.now)) }
    ensures broken { IfErr result (IsRunBrokenOff (change S.contents S.is_failed out.old out.new)
        (change N.contents N.is_failed notes.old notes.new)
        (IsQuoteOf limits.rows (texts_view texts.now) file.now)
        (IsRunOf limits.rows limits.visits (texts_view texts.now) file.now)) }
    ensures refused { IfErr result (IsRunRefused (change S.contents S.is_failed out.old out.new)
        (change N.contents N.is_failed notes.old notes.new)
        (IsQuoteOf limits.rows (texts_view texts.now) file.now)
        (IsRunError limits.rows limits.visits (texts_view texts.now) file.now)) }
    ensures memory { result ≡ Err EngineFault.OutOfMemory
        → IsRunUnwritten (change S.contents S.is_failed out.old out.new)
        (change N.contents N.is_failed notes.old notes.new)
        (IsQuoteOf limits.rows (texts_view texts.now) file.now) }
{
    let question = Question::program(alloc, file);
    answer(alloc, texts, question, limits, out, notes)
}

/// Writes the quote of a file over the tables to `out`. A file that begins with `star program ` is
/// a program, any other a query, whose program is quoted. Nothing is checked against the tables.
/// The file's errors come before those of the tables.
pub fn quote_text<S: Sink>(
    alloc: Global,
    texts: &Texts<'_>,
    file: &[u8],
    limits: Limits,
    out: &mut S,
) -> Result<(), EngineFault>
    ensures written { OnOk result (HasWritten (change S.contents S.is_failed out.old out.new)
        (IsQuoteText limits.rows (texts_view texts.now) file.now)) }
    ensures broken { IfErr result (IsBrokenOff (change S.contents S.is_failed out.old out.new)
        (IsQuoteText limits.rows (texts_view texts.now) file.now)) }
    ensures refused { IfErr result (IsRefused (change S.contents S.is_failed out.old out.new)
        (IsQuoteError limits.rows (texts_view texts.now) file.now)) }
    ensures memory { result ≡ Err EngineFault.OutOfMemory
        → IsUntouched (change S.contents S.is_failed out.old out.new) }
{
    let question = Question::of_file(alloc, file)?;
    let engine = Engine::load(alloc, texts, limits)?;
    engine.quote(alloc, &question, out)
}

/// Writes the program of a query to `out`, as text that `answer_program` and `trial_program` read.
/// It needs no tables.
pub fn explain_query<S: Sink>(alloc: Global, query: &[u8], out: &mut S) -> Result<(), EngineFault>
    ensures written { OnOk result (HasWritten (change S.contents S.is_failed out.old out.new)
        (IsExplained query.now)) }
    ensures broken { IfErr result (IsBrokenOff (change S.contents S.is_failed out.old out.new)
        (IsExplained query.now)) }
    ensures refused { IfErr result (IsRefused (change S.contents S.is_failed out.old out.new)
        (IsQueryError query.now)) }
    ensures memory { result ≡ Err EngineFault.OutOfMemory
        → IsUntouched (change S.contents S.is_failed out.old out.new) }
{
    let question = Question::query(alloc, query)?;
    let text = question.to_text()?;
    write_text(out, text.as_slice())
}

/// Runs the program in a file over the tables without verifying it, for at most `visits` visits,
/// and writes its report to `out`. The file's errors come before those of the tables.
pub fn trial_program<S: Sink>(
    alloc: Global,
    texts: &Texts<'_>,
    file: &[u8],
    visits: u64,
    limits: Limits,
    out: &mut S,
) -> Result<(), EngineFault>
    requires { visits ≤ 10 ^ 15 }
    ensures written { OnOk result (HasWritten (change S.contents S.is_failed out.old out.new)
        (IsTrialReport limits.rows (texts_view texts.now) file.now visits)) }
    ensures broken { IfErr result (IsBrokenOff (change S.contents S.is_failed out.old out.new)
        (IsTrialReport limits.rows (texts_view texts.now) file.now visits)) }
    ensures refused { IfErr result (IsRefused (change S.contents S.is_failed out.old out.new)
        (IsTrialError limits.rows (texts_view texts.now) file.now visits)) }
    ensures memory { result ≡ Err EngineFault.OutOfMemory
        → IsUntouched (change S.contents S.is_failed out.old out.new) }
{
    let question = Question::program(alloc, file)?;
    let engine = Engine::load(alloc, texts, limits)?;
    engine.trial(alloc, &question, visits, out)
}

/// Answers the thirteen queries of the benchmark over one load of five texts. For each it writes
/// the query's name with its quote, then its report or one line with its refusal. The whole text is
/// made before any of it is written. Returns whether no query was refused. The only errors are
/// those of the tables, out of memory and a failed write.
pub fn bench<S: Sink>(
    alloc: Global,
    texts: &Texts<'_>,
    limits: Limits,
    out: &mut S,
) -> Result<bool, EngineFault>
    ensures written { OnOk result (HasWritten (change S.contents S.is_failed out.old out.new)
        (IsBench limits.rows limits.visits (texts_view texts.now))) }
    ensures broken { IfErr result (IsBrokenOff (change S.contents S.is_failed out.old out.new)
        (IsBench limits.rows limits.visits (texts_view texts.now))) }
    ensures refused { IfErr result (IsRefused (change S.contents S.is_failed out.old out.new)
        (IsLoadError limits.rows (texts_view texts.now))) }
    ensures memory { result ≡ Err EngineFault.OutOfMemory
        → IsUntouched (change S.contents S.is_failed out.old out.new) }
    ensures fits { IfOk result
        (λ fits. IsTrue fits ↔ AllFit limits.visits (database_of (texts_view texts.now))) }
{
    let engine = Engine::load(alloc, texts, limits)?;
    engine.bench(alloc, out)
}
