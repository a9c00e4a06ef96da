// Reports of many files over tables that are loaded once: each is kept under its name, and a line of
// it is printed. Or the files are checked and not run, and the forecast of each is printed.

ghost use Rattle.std.specs.Prelude.{◌≡◌, ◌<◌, Err, IfOk, MatchResult, length, string_bytes};
ghost use Rattle.star_common.specs.Memory.{TellsMemory};
ghost use Rattle.star_engine.specs.{Answered.OrMemory, Answered.change, RunTexts.IsFileRunOver, RunTexts.IsForecastErrorOver, RunTexts.IsForecastOver, RunTexts.run_text_of};
ghost use Rattle.star_service.specs.{Reports.{AreAllJobsForecast, AreAllJobsRun, IsJobForecast, IsJobRun, run_line}, Private.ReportSteps.{IsLineWritten, IsRefusalPrinted, IsStoredAndPrinted}, ReportSinks.sink_change, declared.reports.Halt.TheVariants.OutOfMemory};
ghost use Rattle.star_service.specs.Reports as spec;

use crate::names::Shown;
use crate::report_sink::{ReportSink, ReportSinkFault};
use star_common::{Sink, write_whole};
use star_engine::{Engine, EngineFault, FaultLine, Question, RunOutput};
use std::alloc::{AllocError, Global};

/// A file, and the name of its report.
#[derive(Clone, Copy)]
pub struct ReportJob<'a> {
    pub name: &'a str,
    pub file: &'a [u8],
}

/// Why not all files were answered or refused.
#[derive(Clone, Copy, Debug, PartialEq, Eq)]
pub enum Halt<'a> {
    /// Memory was refused.
    OutOfMemory,
    /// The report of this name was not kept: a write failed, `sent` bytes into the report.
    Unstored { name: &'a str, sent: u64 },
    /// A line was not printed: a write failed, `sent` bytes into the line.
    Unwritten { sent: u64 },
}

impl<'a> From<AllocError> for Halt<'a> {
    ghost from_gives = { TellsMemory OutOfMemory };

    fn from(_error: AllocError) -> Halt<'a> {
        Halt::OutOfMemory
    }
}

// A text without its last byte.
fn without_end(text: &[u8]) -> &[u8]
    ensures { result.now ≡ spec.without_end text.now }
{
    match text.split_last() {
        Some((_, front)) => front,
        None => text,
    }
}

// A line with a name before it.
fn named(alloc: Global, name: &str, text: &[u8]) -> Result<Vec<u8>, AllocError>
    ensures { IfOk result (λ line. line.items ≡ spec.named_line name.now text.now) }
{
    let shown = format!(in alloc; "{} ", Shown(name))?;
    let mut line = Vec::new(alloc);
    line.extend_from_slice(shown.as_bytes())?;
    line.extend_from_slice(text)?;
    Ok(line)
}

// The line of a file that was answered.
fn line_of(alloc: Global, name: &str, printed: &RunOutput) -> Result<Vec<u8>, AllocError>
    ensures { IfOk result (λ line. line.items ≡ run_line name.now (run_text_of printed.now)) }
{
    let mut line = named(alloc, name, without_end(printed.quoted.as_bytes()))?;
    line.extend_from_slice(b" ")?;
    line.extend_from_slice(printed.done.as_bytes())?;
    Ok(line)
}

// The line of a file that was refused.
#[tactic(auto, unfolding(crate::specs::Lines::fault_line))]
fn refusal_of(alloc: Global, name: &str, fault: &EngineFault) -> Result<Vec<u8>, AllocError>
    ensures { IfOk result (λ line. line.items ≡ spec.refused_line name.now fault.now) }
{
    let printed = format!(in alloc; "{}\n", FaultLine(fault))?;
    named(alloc, name, printed.as_bytes())
}

// Writes a line that has a byte.
fn write_line<'a, S: Sink>(out: &mut S, line: &[u8]) -> Result<(), Halt<'a>>
    requires { 0 < length line.now }
    ensures { IsLineWritten (change S.contents S.is_failed out.old out.new) line.now result }
{
    match write_whole(out, line) {
        Ok(()) => Ok(()),
        Err(fault) => Err(Halt::Unwritten { sent: fault.sent }),
    }
}

// Keeps the report of a file, and prints its line.
fn store_report<'a, K: ReportSink, S: Sink>(
    alloc: Global,
    name: &'a str,
    printed: &RunOutput,
    sink: &mut K,
    out: &mut S,
) -> Result<(), Halt<'a>>
    ensures { IsStoredAndPrinted name.now (run_text_of printed.now)
        (sink_change K.reports K.failed_at sink.old sink.new)
        (change S.contents S.is_failed out.old out.new) result }
{
    match sink.store(alloc, name, printed.report.as_slice()) {
        Ok(()) => {
            let line = line_of(alloc, name, printed)?;
            write_line(out, line.as_slice())
        }
        Err(ReportSinkFault::OutOfMemory) => Err(Halt::OutOfMemory),
        Err(ReportSinkFault::Write { sent }) => Err(Halt::Unstored { name, sent }),
    }
}

// Prints the line of a file that was not answered; out of memory has none.
fn print_refusal<'a, S: Sink>(
    alloc: Global,
    name: &'a str,
    fault: &EngineFault,
    out: &mut S,
) -> Result<bool, Halt<'a>>
    ensures printed { IsRefusalPrinted name.now fault.now
        (change S.contents S.is_failed out.old out.new) result }
    ensures memory { fault.now ≡ EngineFault.OutOfMemory → result ≡ Err Halt.OutOfMemory }
{
    if matches!(fault, EngineFault::OutOfMemory) {
        return Err(Halt::OutOfMemory);
    }
    let line = refusal_of(alloc, name, fault)?;
    write_line(out, line.as_slice())?;
    Ok(false)
}

// The printed counts of a file's run.
fn report_of(alloc: Global, engine: &Engine, file: &[u8]) -> Result<RunOutput, EngineFault>
    ensures { MatchResult result (λ printed.
        IsFileRunOver engine.now.visits engine.now.database file.now (run_text_of printed))
        (OrMemory (IsForecastErrorOver engine.now.visits engine.now.database file.now)) }
{
    match Question::of_file(alloc, file) {
        Ok(question) => engine.report(alloc, question),
        Err(fault) => Err(fault),
    }
}

// The line of its forecast.
fn forecast_of(alloc: Global, engine: &Engine, file: &[u8]) -> Result<String, EngineFault>
    ensures { MatchResult result (λ line.
        IsForecastOver engine.now.visits engine.now.database file.now (string_bytes line))
        (OrMemory (IsForecastErrorOver engine.now.visits engine.now.database file.now)) }
{
    match Question::of_file(alloc, file) {
        Ok(question) => engine.forecast(alloc, question),
        Err(fault) => Err(fault),
    }
}

// Answers a file over loaded tables: keeps its report under its name, and prints a line of it. The
// answer is whether it was not refused.
fn run_job<'a, K: ReportSink, S: Sink>(
    alloc: Global,
    engine: &Engine,
    job: ReportJob<'a>,
    sink: &mut K,
    out: &mut S,
) -> Result<bool, Halt<'a>>
    ensures { IsJobRun engine.now job.entry.name.now job.entry.file.now
        (sink_change K.reports K.failed_at sink.old sink.new)
        (change S.contents S.is_failed out.old out.new) result }
{
    let ReportJob { name, file } = job;
    match report_of(alloc, engine, file) {
        Ok(printed) => {
            store_report(alloc, name, &printed, sink, out)?;
            Ok(true)
        }
        Err(fault) => print_refusal(alloc, name, &fault, out),
    }
}

// Checks a file over loaded tables, and prints its forecast, or why it is refused. The
// answer is whether it was not refused.
fn forecast_job<'a, S: Sink>(
    alloc: Global,
    engine: &Engine,
    job: ReportJob<'a>,
    out: &mut S,
) -> Result<bool, Halt<'a>>
    ensures { IsJobForecast engine.now job.entry.name.now job.entry.file.now
        (change S.contents S.is_failed out.old out.new) result }
{
    let ReportJob { name, file } = job;
    match forecast_of(alloc, engine, file) {
        Ok(forecast) => {
            let line = named(alloc, name, forecast.as_bytes())?;
            write_line(out, line.as_slice())?;
            Ok(true)
        }
        Err(fault) => print_refusal(alloc, name, &fault, out),
    }
}

/// Answers files over loaded tables, one after another: keeps the report of each under its name on
/// `sink`, and prints a line of it on `out`, or one that says why it is refused. The answer is
/// whether none was refused.
pub fn run_jobs<'a, K: ReportSink, S: Sink>(
    alloc: Global,
    engine: &Engine,
    jobs: &[ReportJob<'a>],
    sink: &mut K,
    out: &mut S,
) -> Result<bool, Halt<'a>>
    ensures { AreAllJobsRun engine.now jobs.now
        (sink_change K.reports K.failed_at sink.old sink.new)
        (change S.contents S.is_failed out.old out.new) result }
{
    let mut all = true;
    for job in jobs {
        let answered = run_job(alloc, engine, *job, sink, out)?;
        all &= answered;
    }
    Ok(all)
}

/// Checks files over loaded tables, one after another, and prints of each how many visits are
/// quoted and how many rows its report can have at most, or why it is refused. Nothing is run. The
/// answer is whether none was refused.
pub fn forecast_jobs<'a, S: Sink>(
    alloc: Global,
    engine: &Engine,
    jobs: &[ReportJob<'a>],
    out: &mut S,
) -> Result<bool, Halt<'a>>
    ensures { AreAllJobsForecast engine.now jobs.now (change S.contents S.is_failed out.old out.new)
        result }
{
    let mut all = true;
    for job in jobs {
        let accepted = forecast_job(alloc, engine, *job, out)?;
        all &= accepted;
    }
    Ok(all)
}
