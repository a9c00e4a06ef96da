// The answer to a task, over the tables and the file that were read for it.

ghost use Rattle.std.specs.{Prelude.◌≡◌, Prelude.ℕ, Prelude.List, Prelude.MatchResult, Borrow.Bor};
ghost use Rattle.star_schema.specs.{Database.TableTexts, Loadable.IsLoadable, Most.most_rows, Most.most_visits};
ghost use Rattle.star_catalogue.specs.Pieces.{AreRead};
ghost use Rattle.star_cli.specs.{Answers.{IsEnded, IsExitOf, IsGivenOf, IsListedAndBenched, IsOfTables}, Private.Asking.{AsksFor, IsNotAsked}, ReadFolders.AreWidelyRead};
ghost use Rattle.star_engine.specs.{Answered.OrMemory, Answered.change, Loads.loaded_of};
ghost use Rattle.star_words.specs.{declared.request.Task.Task, declared.request.Task.TheVariants.Explain};
ghost use Rattle.star_cli.specs.Answers as spec;

use crate::loads::engine_of;
use star_common::Sink;
use star_engine::{Engine, EngineFault, Question, ReadTables, explain_query};
use star_schema::Limits;
use star_service::print_fault;
use star_words::Task;
use std::alloc::Global;

// What a task asks of an engine: an explanation asks nothing. The limits of a trial are those of its
// visits.
#[derive(Drop)]
enum Asked {
    Nothing,
    List,
    Bench,
    ListAndBench,
    Answer(Question),
    Quote(Question),
    Trial(Question, Limits),
}

// Reads what a task asks.
fn asked_of(alloc: Global, task: Task<'_>, file: &[u8]) -> Result<Asked, EngineFault>
    ensures { IsOfTables task.entry
        → MatchResult result (AsksFor task.entry file.now) (OrMemory (IsNotAsked task.entry file.now)) }
{
    match task {
        Task::Explain { .. } => Ok(Asked::Nothing),
        Task::Sample => Ok(Asked::ListAndBench),
        Task::Check { .. } => Ok(Asked::List),
        Task::Bench { .. } => Ok(Asked::Bench),
        Task::Query { .. } => Ok(Asked::Answer(Question::query(alloc, file)?)),
        Task::Exec { .. } => Ok(Asked::Answer(Question::program(alloc, file)?)),
        Task::Quote { .. } => Ok(Asked::Quote(Question::of_file(alloc, file)?)),
        Task::Trial { limits, .. } => Ok(Asked::Trial(Question::program(alloc, file)?, limits)),
    }
}

// The answer of a call that refuses nothing by its Ok.
fn whole(answer: Result<(), EngineFault>) -> Result<bool, EngineFault>
    ensures { result ≡ spec.none_refused answer }
{
    match answer {
        Ok(()) => Ok(true),
        Err(fault) => Err(fault),
    }
}

// The listing, and after it the reports of the benchmark.
fn list_and_bench<S: Sink>(alloc: Global, engine: &Engine, out: &mut S) -> Result<bool, EngineFault>
    ensures { (texts : TableTexts) → IsLoadable most_rows texts
        → engine.now ≡ loaded_of most_rows most_visits texts
        → IsListedAndBenched (change S.contents S.is_failed out.old out.new) texts result }
{
    match engine.check(alloc, out) {
        Ok(()) => engine.bench(alloc, out),
        Err(fault) => Err(fault),
    }
}

// What an engine answers, and whether it refused no query of the benchmark.
fn ask<S: Sink, N: Sink>(
    alloc: Global,
    engine: &Engine,
    asked: Asked,
    out: &mut S,
    notes: &mut N,
) -> Result<bool, EngineFault>
    ensures { (texts : TableTexts) → IsLoadable most_rows texts
        → engine.now ≡ loaded_of most_rows most_visits texts
        → (task : Task) (file : List ℕ) → AsksFor task file asked → IsOfTables task
        → IsGivenOf task texts file (change S.contents S.is_failed out.old out.new)
        (change N.contents N.is_failed notes.old notes.new) result }
{
    match asked {
        Asked::Nothing => Ok(true),
        Asked::List => whole(engine.check(alloc, out)),
        Asked::Bench => engine.bench(alloc, out),
        Asked::ListAndBench => list_and_bench(alloc, engine, out),
        Asked::Answer(question) => whole(engine.answer(alloc, question, out, notes)),
        Asked::Quote(question) => whole(engine.quote(alloc, &question, out)),
        Asked::Trial(question, limits) => {
            whole(engine.trial(alloc, &question, limits.visits, out))
        }
    }
}

// The answer to a task: its file is read as a query or a program, and then the tables are loaded.
fn give<S: Sink, N: Sink>(
    alloc: Global,
    task: Task<'_>,
    read: ReadTables,
    file: &[u8],
    out: &mut S,
    notes: &mut N,
) -> Result<bool, EngineFault>
    requires { AreWidelyRead read }
    ensures { (texts : TableTexts) → AreRead read most_rows texts → IsOfTables task.entry
        → IsGivenOf task.entry texts file.now (change S.contents S.is_failed out.old out.new)
        (change N.contents N.is_failed notes.old notes.new) result }
{
    let asked = asked_of(alloc, task, file)?;
    let engine = engine_of(alloc, read)?;
    ask(alloc, &engine, asked, out, notes)
}

// The exit status after the engine's answer, and the line of its fault.
fn end<E: Sink>(alloc: Global, given: Result<bool, EngineFault>, err: &mut E) -> u8
    ensures { IsEnded (change E.contents E.is_failed err.old err.new) given result }
{
    match given {
        Ok(true) => 0,
        Ok(false) => 1,
        Err(fault) => print_fault(alloc, err, &fault),
    }
}

/// Writes the answer to a task on `out` and its notes on `err`, or the reason of a failure on
/// `err`, and gives the exit status. The tables were given to readers in pieces, and `file` has the
/// bytes of the task's file if it has one. A line of a fault that can't be written changes no
/// status; one for which there is no memory is reported as out of memory.
pub fn answer<S: Sink, E: Sink>(
    alloc: Global,
    task: Task<'_>,
    read: ReadTables,
    file: &[u8],
    out: &mut S,
    err: &mut E,
) -> u8
    requires { AreWidelyRead read }
    ensures { (texts : TableTexts) → AreRead read most_rows texts → IsOfTables task.entry
        → IsExitOf task.entry texts file.now (change S.contents S.is_failed out.old out.new)
        (change E.contents E.is_failed err.old err.new) result }
{
    let given = give(alloc, task, read, file, out, err);
    end(alloc, given, err)
}

/// Writes the program of the query of a file, as `answer` writes what other tasks ask for.
pub fn explain<S: Sink, E: Sink>(alloc: Global, file: &[u8], out: &mut S, err: &mut E) -> u8
    ensures { (path : Bor (List ℕ)) (texts : TableTexts) → IsExitOf (Explain path) texts file.now
        (change S.contents S.is_failed out.old out.new)
        (change E.contents E.is_failed err.old err.new) result }
{
    let given = whole(explain_query(alloc, file, out));
    end(alloc, given, err)
}
