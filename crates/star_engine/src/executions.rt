// Programs that are verified and then run, with the text of their runs.

ghost use Rattle.std.specs.Prelude.{◌≡◌, ◌<◌, ◌≤◌, ◌^◌, ℕ, List, IfOk, MatchResult, length, string_bytes};
ghost use Rattle.star_engine.specs.{Answered.{HasGained, IsWritten, OrMemory, change}, Executions.{IsAcceptedWithin, IsQuote, IsProgramRun}, Faults.fault_of_refusal, Loads.IsProgramOf, WithNotes.IsAnsweredWithNotes, Private.Steps.{AreBothWritten, IsNotVerified, IsPart}, RunTexts.{IsProgramForecast, run_text_of}, Trials.{IsBoundedReport, IsTrialErrorOver}, declared.fault.EngineFault.TheVariants.Write};

use crate::fault::EngineFault;
use crate::notes::{forecast_note, program_note, quote_note};
use star_catalogue::Catalogue;
use star_common::{Sink, write_whole};
use star_machine::{run, trial};
use star_partial::counts_text;
use star_program::Program;
use star_report::report_text;
use star_safety::law::admissible_programs_within_the_limit_are_not_refused;
use star_schema::Limits;
use star_verify::{Refused, Verified, verify};
use std::alloc::{AllocError, Global};

/// The text of a run.
#[derive(Drop)]
pub struct RunOutput {
    /// The note of the quote.
    pub quoted: String,
    /// The report.
    pub report: Vec<u8>,
    /// The note of the run's counts.
    pub done: String,
}

fn fault_of(refused: Refused) -> EngineFault
    ensures { result ≡ fault_of_refusal refused.refusal }
{
    EngineFault::from(refused.refusal)
}

// Verifies a program.
pub(crate) fn checked<'c>(
    alloc: Global,
    catalogue: &'c Catalogue,
    program: Program,
    limits: Limits,
) -> Result<Verified<'c>, EngineFault>
    ensures { MatchResult result (λ verified. (verified.database ≡ catalogue.now)
        × (verified.program ≡ program) × IsAcceptedWithin catalogue.now limits.visits program)
        (OrMemory (IsNotVerified catalogue.now limits.visits program)) }
{
    admissible_programs_within_the_limit_are_not_refused();
    match verify(alloc, catalogue, program, limits) {
        Ok(verified) => Ok(verified),
        Err(refused) => Err(fault_of(refused)),
    }
}

/// Runs a verified program and returns the text of its run.
pub fn run_text(alloc: Global, verified: &Verified<'_>) -> Result<RunOutput, AllocError>
    ensures { (most : ℕ) → IsAcceptedWithin verified.now.database most verified.now.program
        → IfOk result (λ ran.
        IsProgramRun verified.now.database most verified.now.program (run_text_of ran)) }
{
    let outcome = run(alloc, verified)?;
    let quoted = quote_note(alloc, verified.quote())?;
    let report = report_text(alloc, &outcome)?;
    let done = counts_text(alloc, &outcome)?;
    Ok(RunOutput {
        quoted,
        report,
        done,
    })
}

// Verifies a program over loaded tables and runs it.
pub(crate) fn run_checked(
    alloc: Global,
    catalogue: &Catalogue,
    program: Program,
    limits: Limits,
) -> Result<RunOutput, EngineFault>
    ensures { MatchResult result
        (λ ran. IsProgramRun catalogue.now limits.visits program (run_text_of ran))
        (OrMemory (IsNotVerified catalogue.now limits.visits program)) }
{
    let verified = checked(alloc, catalogue, program, limits)?;
    Ok(run_text(alloc, &verified)?)
}

// Verifies a program over loaded tables, and returns its quote and the maximum number of rows of
// its report.
pub(crate) fn forecast(
    alloc: Global,
    catalogue: &Catalogue,
    program: Program,
    limits: Limits,
) -> Result<String, EngineFault>
    ensures { MatchResult result
        (λ line. IsProgramForecast catalogue.now limits.visits program (string_bytes line))
        (OrMemory (IsNotVerified catalogue.now limits.visits program)) }
{
    let verified = checked(alloc, catalogue, program, limits)?;
    Ok(forecast_note(alloc, &verified)?)
}

// Returns the report of a program over loaded tables, run without verifying it for at most `visits`
// visits.
pub(crate) fn report_of(
    alloc: Global,
    catalogue: &Catalogue,
    program: &Program,
    visits: u64,
) -> Result<Vec<u8>, EngineFault>
    requires { visits ≤ 10 ^ 15 }
    ensures ran { (file : List ℕ) → IsProgramOf file program.now → MatchResult result
        (λ report. IsBoundedReport catalogue.now file visits report.items)
        (OrMemory (IsTrialErrorOver catalogue.now file visits)) }
    ensures some { IfOk result (λ report. 0 < length report.items) }
{
    let outcome = trial(alloc, catalogue, program, visits)?;
    Ok(report_text(alloc, &outcome)?)
}

// Writes a nonempty text.
pub(crate) fn write_text<S: Sink>(out: &mut S, text: &[u8]) -> Result<(), EngineFault>
    requires { 0 < length text.now }
    ensures { IsWritten (change S.contents S.is_failed out.old out.new) text.now result }
{
    Ok(write_whole(out, text)?)
}

// Writes a note, after `sent` bytes of the report.
fn write_note<N: Sink>(notes: &mut N, note: &[u8], sent: u64) -> Result<(), EngineFault>
    requires { 0 < length note.now }
    ensures { MatchResult result
        (λ _. HasGained (change N.contents N.is_failed notes.old notes.new) note.now)
        (λ fault. (fault ≡ Write sent)
        × IsPart (change N.contents N.is_failed notes.old notes.new) note.now) }
{
    match write_whole(notes, note) {
        Ok(()) => Ok(()),
        Err(_) => Err(EngineFault::Write { sent }),
    }
}

// Writes the report of a run, then the note of its counts.
fn write_run<S: Sink, N: Sink>(
    ran: &RunOutput,
    out: &mut S,
    notes: &mut N,
) -> Result<(), EngineFault>
    requires report { 0 < length ran.now.report.items }
    requires done { 0 < length (string_bytes ran.now.done) }
    ensures { AreBothWritten (change S.contents S.is_failed out.old out.new)
        (change N.contents N.is_failed notes.old notes.new)
        ran.now.report.items (string_bytes ran.now.done) result }
{
    write_text(out, ran.report.as_slice())?;
    write_note(notes, ran.done.as_bytes(), ran.report.len() as u64)
}

// Writes the note of a program's quote, verifies the program over loaded tables, runs it, and
// writes its report and the note of the run's counts. Both are made before the report is written.
pub(crate) fn execute<S: Sink, N: Sink>(
    alloc: Global,
    catalogue: &Catalogue,
    program: Program,
    limits: Limits,
    out: &mut S,
    notes: &mut N,
) -> Result<(), EngineFault>
    ensures { IsAnsweredWithNotes (change S.contents S.is_failed out.old out.new)
        (change N.contents N.is_failed notes.old notes.new) (IsQuote catalogue.now program)
        (IsProgramRun catalogue.now limits.visits program)
        (IsNotVerified catalogue.now limits.visits program) result }
{
    let note = program_note(alloc, catalogue, &program)?;
    write_note(notes, note.as_bytes(), 0)?;
    let ran = run_checked(alloc, catalogue, program, limits)?;
    write_run(&ran, out, notes)
}
