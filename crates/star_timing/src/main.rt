//! The program `star_timing`: loads the tables of a folder once, and prints how long a run of each of
//! the benchmark's thirteen queries takes over them.
#![tactic(auto)]

use star_cli::{Store, load_engine, read_words};
use star_common::{Out, Sink, numeral_value, write_whole};
use star_engine::{Engine, EngineFault, Question, THIRTEEN, run_text};
use star_service::{MEMORY_LINE, MEMORY_STATUS, print, print_fault};
use star_verify::Verified;
use std::alloc::{AllocError, Global};
use std::io;
use std::process::ExitCode;
use std::rt::{Clock, Env};
use std::time::Instant;

const USAGE: &str = concat!(
    "usage: star_timing FOLDER RUNS\n",
    "\nLoads the tables of FOLDER once, and runs each of the benchmark's thirteen queries RUNS times, from 1\n",
    "to 1000. Prints a line of each query, its best time and its median in seconds:\n",
    "\n  query NAME BEST MEDIAN\n",
    "\nA run is that of the query's verified program, and ends with its report in memory.\n",
);

/// Why no times are printed.
#[derive(Drop)]
enum Failure {
    /// A query could not be verified or run, or the lines could not be written.
    Engine(EngineFault),
    /// The clock could not be read.
    Clock,
}

impl From<EngineFault> for Failure {
    fn from(fault: EngineFault) -> Failure {
        Failure::Engine(fault)
    }
}

impl From<AllocError> for Failure {
    fn from(_error: AllocError) -> Failure {
        Failure::Engine(EngineFault::OutOfMemory)
    }
}

fn now(clock: &impl Clock) -> Result<Instant, Failure> {
    Instant::now(clock).map_err(|_| Failure::Clock)
}

// The times of some runs in ascending order, each to its report and the nearest microsecond. A
// report is dropped after the clock is read.
fn times_of<R: Clock + AllocGlobal>(
    rt: &R,
    verified: &Verified<'_>,
    runs: u64,
) -> Result<Vec<u128>, Failure> {
    let mut times = Vec::new(rt.alloc());
    for _ in 0..runs {
        let start = now(rt)?;
        let _told = run_text(rt.alloc(), verified)?;
        let nanoseconds = now(rt)?.duration_since(start).as_nanos();
        times
            .push(nanoseconds / 1_000 + nanoseconds % 1_000 / 500)
            .map_err(AllocError::from)?;
    }
    times.sort_unstable();
    Ok(times)
}

// A time in seconds.
fn seconds(alloc: Global, time: Option<&u128>) -> Result<String, AllocError> {
    let time = time.copied().unwrap_or(0);
    format!(in alloc; "{}.{:06}", time / 1_000_000, time % 1_000_000)
}

// The lines of the thirteen queries over loaded tables.
fn lines_of<R: Clock + AllocGlobal>(rt: &R, engine: &Engine, runs: u64) -> Result<String, Failure> {
    let alloc = rt.alloc();
    let mut lines = String::new(alloc);
    for query in &THIRTEEN {
        let question = Question::query(alloc, query.text().as_bytes())?;
        let verified = engine.verify(alloc, question)?;
        let times = times_of(rt, &verified, runs)?;
        let best = seconds(alloc, times.first())?;
        let median = seconds(alloc, times.get(times.len() / 2))?;
        let line = format!(in alloc; "query {} {best} {median}\n", query.name())?;
        lines.push_str(line.as_str())?;
    }
    Ok(lines)
}

// Prints the times over loaded tables, and returns the exit status.
fn print_times<R: Clock + AllocGlobal, S: Sink, E: Sink>(
    rt: &R,
    engine: &Engine,
    runs: u64,
    out: &mut S,
    err: &mut E,
) -> u8 {
    let written = match lines_of(rt, engine, runs) {
        Ok(lines) => write_whole(out, lines.as_bytes()).map_err(EngineFault::from),
        Err(Failure::Engine(fault)) => Err(fault),
        Err(Failure::Clock) => {
            print(err, b"error: the clock can't be read\n");
            return 6;
        }
    };
    match written {
        Ok(()) => 0,
        Err(fault) => print_fault(rt.alloc(), err, &fault),
    }
}

// The folder and the number of runs, if the arguments are these.
fn asked(arguments: &[String]) -> Option<(&str, u64)> {
    let [folder, runs] = arguments else {
        return None;
    };
    match numeral_value(runs.as_bytes()) {
        Some(runs) if 1 <= runs && runs <= 1_000 => Some((folder.as_str(), runs)),
        _ => None,
    }
}

// Carries out the request of the arguments, and returns the exit status.
fn answer<R: Env + Store + Clock + AllocGlobal, S: Sink, E: Sink>(
    rt: &R,
    out: &mut S,
    err: &mut E,
) -> u8 {
    let arguments = match read_words(rt) {
        Ok(arguments) => arguments,
        Err(error) if error.kind() == io::ErrorKind::OutOfMemory => {
            print(err, MEMORY_LINE.as_bytes());
            return MEMORY_STATUS;
        }
        Err(_) => {
            print(err, USAGE.as_bytes());
            return 2;
        }
    };
    if arguments.is_empty() {
        print(out, USAGE.as_bytes());
        return 0;
    }
    let Some((folder, runs)) = asked(arguments.as_slice()) else {
        print(err, USAGE.as_bytes());
        return 2;
    };
    match load_engine(rt, folder, &mut (), out, err) {
        Ok(engine) => print_times(rt, &engine, runs, out, err),
        Err(status) => status,
    }
}

fn main(rt: HostRuntime) -> ExitCode {
    let mut out = rt.stdout();
    let mut err = rt.stderr();
    ExitCode::from(answer(&rt, &mut Out::new(&mut out), &mut Out::new(&mut err)))
}
