// The commands of the program.

ghost use Rattle.std.specs.{Prelude.{◌≡◌, ◌⊎◌, true, false, IfErr, IfOk, MatchResult, map, string_bytes}, List.AllZip};
ghost use Rattle.star_schema.specs.Database.{TableTexts};
ghost use Rattle.star_words.specs.{Requests.HasMostRows, declared.request.Request.TheVariants.Answer};
ghost use Rattle.star_engine.specs.Answered.{change};
ghost use Rattle.star_service.specs.Reports.{AreAllJobsForecast, AreAllJobsRun};
ghost use Rattle.star_cli.specs.{Commands.{AreReportsDone, IsCommandDone, IsHeld, IsOneRefused, IsSessionDone, IsTaskDone, IsTaskUnread}, Private.Steps.{AreTablesFor, HasBoth, HasTables, IsKept, IsOneUnread, IsReadFor}, Private.Errands.IsReadFrom, Answers.IsExitOf, Failures.IsReadError, FolderLoads.{AreTablesUnread, IsLoadedFrom}, declared.directory.Directory.Directory};
ghost use Rattle.star_cli.specs.Commands as spec;

use crate::answers::{answer, explain};
use crate::directory::Directory;
use crate::failure::{Failure, end};
use crate::files::{find_folder, read_file, read_tables, sample_tables};
use crate::input::StandardInput;
use crate::jobs::{ReadFile, jobs_of, read_files};
use crate::loads::load_engine;
use crate::partials::{make_partials, merge_partials};
use crate::progress::Watch;
use crate::store::Store;
use star_common::{Out, Sink};
use star_engine::{Engine, ReadTables};
use star_service::{Halt, ReportJob, forecast_jobs, print, run_jobs, run_session};
use star_statements::Source;
use star_words::{Reports, Request, Task, WordsFault, request_of};
use std::alloc::{AllocError, Global};
use std::io::{BufReader, Write};
use std::rt::Env;
use std::{env, io};

// The input of a task: the tables of a folder, and a file.
#[derive(Drop)]
struct Read {
    tables: Option<ReadTables>,
    file: Vec<u8>,
}

// Reads the tables of a folder.
fn read_folder<R: Store + AllocGlobal, P: Watch>(
    rt: &R,
    folder: &str,
    progress: &mut P,
) -> Result<Read, Failure<'static>>
    ensures { MatchResult result (HasTables (R.known rt.now) folder.now)
        (AreTablesUnread (R.known rt.now) folder.now) }
{
    Ok(Read {
        tables: Some(read_tables(rt, folder, progress)?),
        file: Vec::new(rt.alloc()),
    })
}

// Reads a file, and then the tables of a folder.
fn read_both<'a, R: Store + AllocGlobal, P: Watch>(
    rt: &R,
    folder: &str,
    file: &'a str,
    progress: &mut P,
) -> Result<Read, Failure<'a>>
    ensures { MatchResult result (HasBoth (R.known rt.now) folder.now file.now)
        (IsOneUnread (R.known rt.now) folder.now file.now) }
{
    let file = read_file(rt, file)?;
    Ok(Read {
        tables: Some(read_tables(rt, folder, progress)?),
        file,
    })
}

// Reads what a task is about: its file first, and then its tables.
fn read_for<'a, R: Store + AllocGlobal, P: Watch>(
    rt: &R,
    task: Task<'a>,
    progress: &mut P,
) -> Result<Read, Failure<'a>>
    ensures { MatchResult result (IsReadFor (R.known rt.now) task.entry)
        (IsTaskUnread (R.known rt.now) task.entry) }
{
    match task {
        Task::Sample => Ok(Read {
            tables: Some(sample_tables(rt.alloc())?),
            file: Vec::new(rt.alloc()),
        }),
        Task::Explain { file } => Ok(Read {
            tables: None,
            file: read_file(rt, file)?,
        }),
        Task::Check { folder } => read_folder(rt, folder, progress),
        Task::Bench { folder } => read_folder(rt, folder, progress),
        Task::Query { folder, file } => read_both(rt, folder, file, progress),
        Task::Exec { folder, file } => read_both(rt, folder, file, progress),
        Task::Quote { folder, file } => read_both(rt, folder, file, progress),
        Task::Trial { folder, file, .. } => read_both(rt, folder, file, progress),
    }
}

// Answers a task over its input; without tables it is an explanation.
fn answer_over<S: Sink, E: Sink>(
    alloc: Global,
    task: Task<'_>,
    read: Read,
    out: &mut S,
    err: &mut E,
) -> u8
    requires { (texts : TableTexts) × AreTablesFor task texts read.tables }
    ensures { (texts : TableTexts) → AreTablesFor task.entry texts read.tables
        → HasMostRows (Answer task.entry) → IsExitOf task.entry texts read.file.items
        (change S.contents S.is_failed out.old out.new)
        (change E.contents E.is_failed err.old err.new) result }
{
    let Read { tables, file } = read;
    match tables {
        Some(tables) => answer(alloc, task, tables, file.as_slice(), out, err),
        None => explain(alloc, file.as_slice(), out, err),
    }
}

// Answers a task.
fn answer_task<R: Store + AllocGlobal, P: Watch, S: Sink, E: Sink>(
    rt: &R,
    task: Task<'_>,
    progress: &mut P,
    out: &mut S,
    err: &mut E,
) -> u8
    ensures { HasMostRows (Answer task.entry) → IsTaskDone (R.known rt.now) task.entry
        (change S.contents S.is_failed out.old out.new)
        (change E.contents E.is_failed err.old err.new) result }
{
    match read_for(rt, task, progress) {
        Ok(read) => answer_over(rt.alloc(), task, read, out, err),
        Err(failure) => failure.print(rt.alloc(), out, err),
    }
}

// Holds a session over loaded tables.
fn run_session_over<I: io::Read + Drop, S: Sink, E: Sink>(
    alloc: Global,
    engine: &Engine,
    input: StandardInput<I>,
    out: &mut S,
    err: &mut E,
) -> u8
    ensures { IsHeld engine.now (spec.input_of (I.remaining input.reader) input.is_terminal)
        (change S.contents S.is_failed out.old out.new)
        (change E.contents E.is_failed err.old err.new) result }
{
    let StandardInput {
        reader,
        is_terminal,
    } = input;
    match BufReader::new(alloc, reader) {
        Ok(reader) => run_session(
            alloc,
            engine,
            &mut Source::new(reader),
            is_terminal,
            out,
            err,
        ),
        Err(_) => Failure::OutOfMemory.print(alloc, out, err),
    }
}

// Returns the first line of a session at a terminal, before the tables are loaded.
fn greeting_of(is_terminal: bool) -> &'static str
    ensures { result.now ≡ spec.greeting_of is_terminal }
{
    if is_terminal {
        "loading the tables\n"
    } else {
        ""
    }
}

// Holds a session over the tables of a folder.
fn start_session<R: Store + AllocGlobal, I: io::Read + Drop, P: Watch, S: Sink, E: Sink>(
    rt: &R,
    folder: &str,
    input: StandardInput<I>,
    progress: &mut P,
    out: &mut S,
    err: &mut E,
) -> u8
    ensures { IsSessionDone (R.known rt.now) folder.now
        (spec.input_of (I.remaining input.reader) input.is_terminal)
        (change S.contents S.is_failed out.old out.new)
        (change E.contents E.is_failed err.old err.new) result }
{
    print(err, greeting_of(input.is_terminal).as_bytes());
    match load_engine(rt, folder, progress, out, err) {
        Ok(engine) => run_session_over(rt.alloc(), &engine, input, out, err),
        Err(status) => status,
    }
}

// Makes the reports of files over loaded tables; or, if quotes are asked for, runs none and prints
// their forecasts. Returns whether none was refused.
fn report_over<'f, R: Store + AllocGlobal, S: Sink>(
    rt: &R,
    engine: &Engine,
    asked: &Reports<'_>,
    jobs: &[ReportJob<'f>],
    out: &mut S,
) -> Result<bool, Halt<'f>>
    ensures quoted { asked.now.is_quote ≡ true → AreAllJobsForecast engine.now jobs.now
        (change S.contents S.is_failed out.old out.new) result }
    ensures made { asked.now.is_quote ≡ false
        → IsKept {K = Directory R} (λ sink. AreAllJobsRun engine.now jobs.now sink
        (change S.contents S.is_failed out.old out.new) result) }
{
    if asked.is_quote {
        return forecast_jobs(rt.alloc(), engine, jobs, out);
    }
    let mut sink = Directory {
        rt,
        folder: asked.target,
        ending: "report",
        failed_at: None,
    };
    run_jobs(rt.alloc(), engine, jobs, &mut sink, out)
}

// Makes the reports of files over loaded tables, and returns the exit status.
fn report_loaded<R: Store + AllocGlobal, S: Sink, E: Sink>(
    rt: &R,
    engine: &Engine,
    asked: &Reports<'_>,
    files: &[ReadFile<'_>],
    out: &mut S,
    err: &mut E,
) -> u8
    ensures { AllZip (IsReadFrom (R.known rt.now)) asked.now.files.items files.now
        → IsLoadedFrom (R.known rt.now) asked.now.folder.now engine.now
        → AreReportsDone (Directory R) (R.known rt.now) asked.now
        (change S.contents S.is_failed out.old out.new)
        (change E.contents E.is_failed err.old err.new) result }
{
    match jobs_of(rt.alloc(), files) {
        Ok(jobs) => {
            let made = report_over(rt, engine, asked, jobs.as_slice(), out);
            end(rt.alloc(), made, out, err)
        }
        Err(_) => Failure::OutOfMemory.print(rt.alloc(), out, err),
    }
}

// Loads the tables, makes the reports of files that were read, and returns the exit status.
fn report_read<R: Store + AllocGlobal, P: Watch, S: Sink, E: Sink>(
    rt: &R,
    asked: &Reports<'_>,
    files: &[ReadFile<'_>],
    progress: &mut P,
    out: &mut S,
    err: &mut E,
) -> u8
    ensures { AllZip (IsReadFrom (R.known rt.now)) asked.now.files.items files.now
        → AreReportsDone (Directory R) (R.known rt.now) asked.now
        (change S.contents S.is_failed out.old out.new)
        (change E.contents E.is_failed err.old err.new) result }
{
    match load_engine(rt, asked.folder, progress, out, err) {
        Ok(engine) => report_loaded(rt, &engine, asked, files, out, err),
        Err(status) => status,
    }
}

// Reads the files that reports are asked of, and sees to it that there is a folder for the reports.
fn ready<'a, R: Store + AllocGlobal>(
    rt: &R,
    asked: &Reports<'a>,
) -> Result<Vec<ReadFile<'a>>, Failure<'a>>
    ensures read { IfOk result
        (λ files. AllZip (IsReadFrom (R.known rt.now)) asked.now.files.items files.items) }
    ensures refused { IfErr result (λ failure.
        IsOneRefused (R.known rt.now) asked.now.files.items failure
        ⊎ IsReadError asked.now.target.now failure) }
{
    let files = read_files(rt, asked.files.as_slice())?;
    find_folder(rt, asked.target)?;
    Ok(files)
}

// Makes the reports or forecasts of files: before any table is read, all of them are.
fn make_reports<R: Store + AllocGlobal, P: Watch, S: Sink, E: Sink>(
    rt: &R,
    asked: &Reports<'_>,
    progress: &mut P,
    out: &mut S,
    err: &mut E,
) -> u8
    ensures { AreReportsDone (Directory R) (R.known rt.now) asked.now
        (change S.contents S.is_failed out.old out.new)
        (change E.contents E.is_failed err.old err.new) result }
{
    match ready(rt, asked) {
        Ok(files) => report_read(rt, asked, files.as_slice(), progress, out, err),
        Err(failure) => failure.print(rt.alloc(), out, err),
    }
}

/// Carries out the request of the arguments `words`, without the program's own name, over two sinks, and
/// returns the exit status.
///
/// - 0: success;
/// - 1: a query or program was refused, or a program trapped or reached its limit;
/// - 2: the arguments are not a command;
/// - 3: the table files can't be loaded;
/// - 4: a file is not a query;
/// - 5: a file is not a program;
/// - 6: a file can't be read, or output can't be written;
/// - 7: out of memory;
/// - 8: a file is not a partial, or can't be merged.
///
/// Only a session reads from `input`. `progress` is shown how far the table files are read, before
/// any other output but the first line of a session.
pub fn command<R: Store + AllocGlobal, I: io::Read + Drop, P: Watch, S: Sink, E: Sink>(
    rt: &R,
    words: &[String],
    input: StandardInput<I>,
    progress: &mut P,
    out: &mut S,
    err: &mut E,
) -> u8
    ensures { IsCommandDone (Directory R) (R.known rt.now) (map string_bytes words.now)
        (spec.input_of (I.remaining input.reader) input.is_terminal)
        (change S.contents S.is_failed out.old out.new)
        (change E.contents E.is_failed err.old err.new) result }
{
    let request = match request_of(rt.alloc(), words) {
        Ok(request) => request,
        Err(fault) => return Failure::Words(fault).print(rt.alloc(), out, err),
    };
    match request {
        Request::Answer(task) => answer_task(rt, task, progress, out, err),
        Request::Session { folder } => start_session(rt, folder, input, progress, out, err),
        Request::Reports(asked) => make_reports(rt, &asked, progress, out, err),
        Request::Partial(asked) => make_partials(rt, &asked, progress, out, err),
        Request::Merge(asked) => merge_partials(rt, &asked, out, err),
    }
}

/// Carries out the request of the arguments `words` over two writers, as `command` does over sinks, and
/// returns its exit status.
pub fn command_to<R: Store + AllocGlobal, I: io::Read + Drop, P: Watch, W: Write, E: Write>(
    rt: &R,
    words: &[String],
    input: StandardInput<I>,
    progress: &mut P,
    out: &mut W,
    err: &mut E,
) -> u8 {
    let mut answers = Out::new(&mut *out);
    let mut notes = Out::new(&mut *err);
    command(rt, words, input, progress, &mut answers, &mut notes)
}

/// Returns the words of the command line, without the program's own name.
pub fn read_words<R: Env + AllocGlobal>(rt: &R) -> io::Result<Vec<String>> {
    let mut words = Vec::new(rt.alloc());
    for word in env::args(rt)?.skip(1) {
        words.push(word)?;
    }
    Ok(words)
}

fn failure_of_words(error: &io::Error) -> Failure<'static> {
    if error.kind() == io::ErrorKind::OutOfMemory {
        Failure::from(AllocError)
    } else {
        Failure::Words(WordsFault::NotText)
    }
}

/// Carries out the request of the program's own command line, and returns the exit status of
/// `command`; 2 also if an argument is not UTF-8.
pub fn run<R: Env + Store + AllocGlobal, I: io::Read + Drop, P: Watch, W: Write, E: Write>(
    rt: &R,
    input: StandardInput<I>,
    progress: &mut P,
    out: &mut W,
    err: &mut E,
) -> u8 {
    let mut answers = Out::new(&mut *out);
    let mut notes = Out::new(&mut *err);
    match read_words(rt) {
        Ok(words) => {
            let words = words.as_slice();
            command(rt, words, input, progress, &mut answers, &mut notes)
        }
        Err(error) => failure_of_words(&error).print(rt.alloc(), &mut answers, &mut notes),
    }
}
