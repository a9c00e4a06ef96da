// Sessions: statements that are read one after another, and answered over tables that are loaded once.

ghost use Rattle.std.specs.Prelude.{◌≡◌};
ghost use Rattle.star_engine.specs.{Answered.IsAnswered, Answered.change, QuoteTexts.IsQuoteErrorOver, QuoteTexts.IsQuoteTextOver};
ghost use Rattle.star_service.specs.{Sessions.{AreStatementsRun, IsAnswerTo, IsLineEnded, IsReportEnded, IsReported, IsSession, IsSessionEnded, IsStep}, Private.Turns.IsTurn};
ghost use Rattle.star_statements.specs.{Questions.asked_by_text, Sources.has_failed, Sources.reader_of};
ghost use Rattle.star_service.specs.Sessions as spec;

use crate::lines::{MEMORY_LINE, MEMORY_STATUS, print, print_fault};
use star_common::{Sink, write_whole};
use star_engine::{Engine, EngineFault, QueryFault, Question, explain_query};
use star_statements::{Question as Statement, ReadFault, Source, question_of, read_statement};
use std::alloc::Global;
use std::io::Read;

/// Why a session ended before its statements did.
#[derive(Clone, Copy, Debug, PartialEq, Eq)]
pub enum Stop {
    /// A write failed.
    Unwritten,
    /// No statement was read.
    Unread(ReadFault),
}

// The empty line after a report.
fn end_report<S: Sink>(out: &mut S) -> Result<(), EngineFault>
    ensures { IsLineEnded (change S.contents S.is_failed out.old out.new) result }
{
    Ok(write_whole(out, b"\n")?)
}

// The report of a query.
fn answer_query<S: Sink, N: Sink>(
    alloc: Global,
    engine: &Engine,
    query: &[u8],
    out: &mut S,
    notes: &mut N,
) -> Result<(), EngineFault>
    ensures { IsReported engine.now query.now (change S.contents S.is_failed out.old out.new)
        (change N.contents N.is_failed notes.old notes.new) result }
{
    let question = Question::query(alloc, query)?;
    engine.answer(alloc, question, out, notes)
}

// How many visits of what a statement asks for are quoted.
fn quote<S: Sink>(
    alloc: Global,
    engine: &Engine,
    file: &[u8],
    out: &mut S,
) -> Result<(), EngineFault>
    ensures { IsAnswered (change S.contents S.is_failed out.old out.new)
        (IsQuoteTextOver engine.now.database file.now) (IsQuoteErrorOver file.now) result }
{
    let question = Question::of_file(alloc, file)?;
    engine.quote(alloc, &question, out)
}

// The report of a query, with an empty line after it.
fn report<S: Sink, N: Sink>(
    alloc: Global,
    engine: &Engine,
    query: &[u8],
    out: &mut S,
    notes: &mut N,
) -> Result<(), EngineFault>
    ensures { IsReportEnded engine.now query.now (change S.contents S.is_failed out.old out.new)
        (change N.contents N.is_failed notes.old notes.new) result }
{
    match answer_query(alloc, engine, query, out, notes) {
        Ok(()) => end_report(out),
        Err(fault) => Err(fault),
    }
}

// The answer to the text of a statement.
fn answer_statement<S: Sink, N: Sink>(
    alloc: Global,
    engine: &Engine,
    text: &[u8],
    out: &mut S,
    notes: &mut N,
) -> Result<(), EngineFault>
    ensures { IsAnswerTo engine.now (asked_by_text text.now)
        (change S.contents S.is_failed out.old out.new)
        (change N.contents N.is_failed notes.old notes.new) result }
{
    match question_of(text) {
        Statement::Nothing => Ok(()),
        Statement::TooLong => Err(EngineFault::Query(QueryFault::TooLong)),
        Statement::Query(query) => report(alloc, engine, query, out, notes),
        Statement::Explain(query) => explain_query(alloc, query, out),
        Statement::Quote(query) => quote(alloc, engine, query, out),
    }
}

// No session goes on after a write that failed.
fn may_go_on(fault: &EngineFault) -> bool
    ensures { result ≡ spec.may_go_on fault.now }
{
    !matches!(fault, EngineFault::Write { .. })
}

/// Answers one statement over loaded tables, by its text: writes the answer on `out`, on
/// `err` the notes of a report or the line of a fault. The answer is whether the session goes on:
/// it does after every fault but a write that failed.
pub fn step<S: Sink, E: Sink>(
    alloc: Global,
    engine: &Engine,
    text: &[u8],
    out: &mut S,
    err: &mut E,
) -> bool
    ensures { IsStep engine.now (asked_by_text text.now)
        (change S.contents S.is_failed out.old out.new)
        (change E.contents E.is_failed err.old err.new) result }
{
    match answer_statement(alloc, engine, text, out, err) {
        Ok(()) => true,
        Err(fault) => {
            print_fault(alloc, err, &fault);
            may_go_on(&fault)
        }
    }
}

// The prompt before each statement, if a person types them.
fn prompt_of(is_terminal: bool) -> &'static str
    ensures { result.now ≡ spec.prompt_of is_terminal }
{
    if is_terminal { "star> " } else { "" }
}

// The text after the last statement, if a person types them.
fn parting_of(is_terminal: bool) -> &'static str
    ensures { result.now ≡ spec.parting_of is_terminal }
{
    if is_terminal { "\n" } else { "" }
}

// Reads the next statement into `text` and answers it. The answer is whether others may follow.
fn turn<R: Read, S: Sink, E: Sink>(
    engine: &Engine,
    source: &mut Source<R>,
    text: &mut Vec<u8>,
    is_terminal: bool,
    alloc: Global,
    out: &mut S,
    err: &mut E,
) -> Result<bool, Stop>
    ensures { IsTurn engine.now is_terminal (R.remaining (reader_of source.old))
        (R.remaining (reader_of source.new)) (has_failed source.new)
        (change S.contents S.is_failed out.old out.new)
        (change E.contents E.is_failed err.old err.new) result }
{
    print(err, prompt_of(is_terminal).as_bytes());
    match read_statement(source, text) {
        Ok(is_ended) => {
            if step(alloc, engine, text.as_slice(), out, err) {
                Ok(is_ended)
            } else {
                Err(Stop::Unwritten)
            }
        }
        Err(fault) => Err(Stop::Unread(fault)),
    }
}

// Reads and answers all statements of a source.
fn run_statements<R: Read, S: Sink, E: Sink>(
    alloc: Global,
    engine: &Engine,
    source: &mut Source<R>,
    is_terminal: bool,
    out: &mut S,
    err: &mut E,
) -> Result<(), Stop>
    ensures { AreStatementsRun engine.now is_terminal (R.remaining (reader_of source.old))
        (R.remaining (reader_of source.new)) (has_failed source.new)
        (change S.contents S.is_failed out.old out.new)
        (change E.contents E.is_failed err.old err.new) result }
{
    let mut text = Vec::new(alloc);
    'statements: for _ in 0..u64::MAX {
        if !turn(engine, source, &mut text, is_terminal, alloc, out, err)? {
            return Ok(());
        }
    }
    Err(Stop::Unread(ReadFault::Failed))
}

// Prints how a session ends, and returns the exit status.
fn part<E: Sink>(is_terminal: bool, ended: Result<(), Stop>, err: &mut E) -> u8
    ensures { IsSessionEnded is_terminal (change E.contents E.is_failed err.old err.new) ended result }
{
    match ended {
        Ok(()) => {
            print(err, parting_of(is_terminal).as_bytes());
            0
        }
        Err(Stop::Unwritten) => 6,
        Err(Stop::Unread(ReadFault::Failed)) => {
            print(err, b"file standard input\n");
            6
        }
        Err(Stop::Unread(ReadFault::OutOfMemory)) => {
            print(err, MEMORY_LINE.as_bytes());
            MEMORY_STATUS
        }
    }
}

/// Reads the statements of a source to its end, and answers each as it comes, over loaded tables, as
/// `step` does. If a person types them, a prompt is printed on `err` before each. Returns the exit
/// status: 0 at the end of the source, 6 if a read or a write failed, 7 if there is no memory
/// for a statement.
pub fn run_session<R: Read, S: Sink, E: Sink>(
    alloc: Global,
    engine: &Engine,
    source: &mut Source<R>,
    is_terminal: bool,
    out: &mut S,
    err: &mut E,
) -> u8
    ensures { IsSession engine.now is_terminal (R.remaining (reader_of source.old))
        (R.remaining (reader_of source.new)) (has_failed source.new)
        (change S.contents S.is_failed out.old out.new)
        (change E.contents E.is_failed err.old err.new) result }
{
    let ended = run_statements(alloc, engine, source, is_terminal, out, err);
    part(is_terminal, ended, err)
}
