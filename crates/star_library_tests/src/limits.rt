// One engine that is loaded under limits of its own: no error or failed write changes what it answers
// next.

use crate::checks::{ABOVE_AVERAGE, check_same, check_text};
use crate::streams::Short;
use star_common::Out;
use star_engine::{Engine, EngineFault, LoadFault, Question, RunOutput, THIRTEEN, sample};
use star_schema::{Limits, TableId};
use std::alloc::{AllocError, Global};
use std::fmt::Write;
use std::test::Fail;

// The loaded sample, in a box, since it is dear to let go in a proof.
fn loaded(alloc: Global, rows: u32, visits: u64) -> Result<Box<Engine>, Fail> {
    let limits = Limits::new(rows, visits).ok_or("limits")?;
    match Engine::load(alloc, &sample(), limits) {
        Ok(engine) => Ok(Box::new(alloc, engine)?),
        Err(fault) => Err(Fail::from(format_args!("{fault}"))),
    }
}

fn report(alloc: Global, engine: &Engine, file: &str) -> Result<RunOutput, EngineFault> {
    engine.report(alloc, Question::of_file(alloc, file.as_bytes())?)
}

// A note, a report and another note, or the line of an error.
fn run_text(alloc: Global, engine: &Engine, file: &str) -> Result<String, Fail> {
    match report(alloc, engine, file) {
        Ok(printed) => {
            let report = str::from_utf8(printed.report.as_slice())?;
            Ok(format!(in alloc; "{}{report}{}", printed.quoted, printed.done)?)
        }
        Err(EngineFault::OutOfMemory) => Err(Fail::from(AllocError)),
        Err(fault) => Ok(format!(in alloc; "{fault}")?),
    }
}

const COUNT: &str = "select count(*) as n from lineorder";

// Files, and what an engine says of them that allows 5 visits, and one that allows 4.
const FILES: [(&str, &str, &str); 4] = [
    (
        COUNT,
        "quote 5\nn\n5\nvisits 5 lookups 0 updates 5\n",
        "refused 71 TooCostly visits 5",
    ),
    (
        ABOVE_AVERAGE,
        "refused 71 TooCostly visits 10",
        "refused 71 TooCostly visits 10",
    ),
    (
        "select count(*) from",
        "query 24 Unexpected at 20",
        "query 24 Unexpected at 20",
    ),
    // Too many visits come before all that an instruction is refused for.
    (
        "star program 1\nregisters 1\ngroup 0 plain : count\nscan lineorder r0\nkeep r0\nend\nreport 0\nshow n aggregate 0\n",
        "refused 63 WrongKind at 2",
        "refused 71 TooCostly visits 5",
    ),
];

#[test]
fn an_engine_has_its_limits(rt: HostRuntime) -> Result<(), Fail> {
    let alloc = rt.alloc();
    let (ample, narrow) = (loaded(alloc, 5, 5)?, loaded(alloc, 5, 4)?);
    for (file, run, refused) in FILES {
        check_text(run_text(alloc, &ample, file)?.as_bytes(), run, file)?;
        check_text(run_text(alloc, &narrow, file)?.as_bytes(), refused, file)?;
    }
    Ok(())
}

// The bytes that are taken of a trial by a writer of so much room, and how many are sent if it fails.
fn tried(alloc: Global, engine: &Engine, room: usize) -> Result<(Short, Option<u64>), Fail> {
    let mut report = Short::with_room(alloc, room, 1)?;
    let program = match Question::program(alloc, ABOVE_AVERAGE.as_bytes()) {
        Ok(program) => program,
        Err(fault) => return Err(Fail::from(format_args!("{fault}"))),
    };
    match engine.trial(alloc, &program, 10, &mut Out::new(&mut report)) {
        Ok(()) => Ok((report, None)),
        Err(EngineFault::Write { sent }) => Ok((report, Some(sent))),
        Err(EngineFault::OutOfMemory) => Err(Fail::from(AllocError)),
        Err(fault) => Err(Fail::from(format_args!("{fault}"))),
    }
}

// A trial has its own limit of visits.
#[test]
fn an_engine_goes_on_after_a_failed_write(rt: HostRuntime) -> Result<(), Fail> {
    let alloc = rt.alloc();
    let engine = loaded(alloc, 5, 4)?;
    for (room, text, sent) in [(3, "n\n2", Some(3)), (0, "", Some(0)), (4, "n\n2\n", None)] {
        let (report, fault) = tried(alloc, &engine, room)?;
        check_text(report.taken.as_slice(), text, "a trial")?;
        check_same(&rt, fault, sent, &room);
    }
    Ok(())
}

// The output of the benchmark if each of its queries is refused.
fn refusals(alloc: Global) -> Result<String, AllocError> {
    let mut text = String::new(alloc);
    for query in THIRTEEN.iter() {
        let name = query.name();
        writeln!(text, "{name} quote 5\nrefused 71 TooCostly visits 5")?;
    }
    Ok(text)
}

// Whether all queries of the benchmark fit, if its text is written, and how many bytes are.
fn benched(alloc: Global, engine: &Engine, room: usize) -> Result<(Option<bool>, Short), Fail> {
    let mut report = Short::with_room(alloc, room, 7)?;
    match engine.bench(alloc, &mut Out::new(&mut report)) {
        Ok(fits) => Ok((Some(fits), report)),
        Err(EngineFault::Write { sent }) if sent == room as u64 => Ok((None, report)),
        Err(EngineFault::OutOfMemory) => Err(Fail::from(AllocError)),
        Err(fault) => Err(Fail::from(format_args!("{fault}"))),
    }
}

#[test]
fn the_benchmark_goes_on_past_refusals(rt: HostRuntime) -> Result<(), Fail> {
    let alloc = rt.alloc();
    let engine = loaded(alloc, 5, 4)?;
    let whole = refusals(alloc)?;
    for (room, fits) in [(4_096, Some(false)), (100, None), (13, None), (0, None)] {
        let (found, report) = benched(alloc, &engine, room)?;
        check_same(&rt, found, fits, &room);
        let taken = whole.as_str().get(..room.min(whole.len())).ok_or("room")?;
        check_text(report.taken.as_slice(), taken, "the benchmark")?;
    }
    Ok(())
}

#[test]
fn an_engine_has_no_more_rows(rt: HostRuntime) -> Result<(), Fail> {
    let limits = Limits::new(4, 0).ok_or("limits")?;
    let table = TableId::Lineorder;
    match Engine::load(rt.alloc(), &sample(), limits) {
        Ok(_engine) => Err(Fail::from("five rows under a limit of four")),
        Err(EngineFault::Load(fault)) => {
            check_same(&rt, fault, LoadFault::TooManyRows { table }, &"rows");
            Ok(())
        }
        Err(fault) => Err(Fail::from(format_args!("{fault}"))),
    }
}
