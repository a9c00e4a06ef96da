// The commands on partials: some are made, or merged.

ghost use Rattle.std.specs.Prelude.{IfOk, IfSome};
ghost use Rattle.star_cli.specs.Private.Reads.{IsWidest};

use crate::directory::Directory;
use crate::failure::Failure;
use crate::files::{
    find_folder, read_file, read_lineorder_part, read_part_tables, read_partial_file,
};
use crate::loads::engine_of;
use crate::progress::Watch;
use crate::store::Store;
use star_common::Sink;
use star_engine::{Engine, EngineFault, Question};
use star_merger::{Merger, Partial, PartialFault, PartialsFault, partial_text, write_partial};
use star_schema::Limits;
use star_service::{ReportSink, ReportSinkFault, Shown, print, print_fault};
use star_words::{Merge, Partials};
use std::alloc::{AllocError, Global};
use std::fmt;

/// The exit status of a fault of a partial.
const PARTIAL_STATUS: u8 = 8;

/// Why partials were not made or merged.
enum Undone<'a> {
    Failure(Failure<'a>),
    Fault(EngineFault),
    /// The file of this name has a fault; the keys of another may overlap its own.
    Partial {
        name: &'a str,
        fault: PartialFault,
        other: Option<&'a str>,
    },
}

impl Drop for Undone<'_> {
    fn drop(self) {
        match self {
            Self::Failure(_held) => {}
            Self::Fault(_held) => {}
            Self::Partial {
                name: _name,
                fault: _fault,
                other: _other,
            } => {}
        }
    }
}

impl<'a> From<Failure<'a>> for Undone<'a> {
    fn from(failure: Failure<'a>) -> Undone<'a> {
        Undone::Failure(failure)
    }
}

impl<'a> From<EngineFault> for Undone<'a> {
    fn from(fault: EngineFault) -> Undone<'a> {
        Undone::Fault(fault)
    }
}

// The line of a fault of a partial.
#[derive(Clone, Copy)]
struct PartialLine<'a> {
    name: &'a str,
    fault: PartialFault,
    other: Option<&'a str>,
}

impl<'a> fmt::Display for PartialLine<'a> {
    fn fmt<W: fmt::Write>(&self, f: &mut fmt::Formatter<W>) -> fmt::Result {
        write!(f, "partial {} {}", Shown(self.name), self.fault)?;
        match self.other {
            Some(other) => writeln!(f, " with {}", Shown(other)),
            None => writeln!(f, ""),
        }
    }
}

// Prints the line of a fault of a partial, and returns its exit status.
fn print_partial<S: Sink, E: Sink>(
    alloc: Global,
    line: PartialLine<'_>,
    out: &mut S,
    err: &mut E,
) -> u8 {
    match format!(in alloc; "{line}") {
        Ok(text) => {
            print(err, text.as_bytes());
            PARTIAL_STATUS
        }
        Err(_) => Failure::from(AllocError).print(alloc, out, err),
    }
}

impl<'a> Undone<'a> {
    // A fault of the partial of this name.
    fn of_partial(name: &'a str, fault: PartialFault, other: Option<&'a str>) -> Undone<'a> {
        match fault {
            PartialFault::OutOfMemory => Undone::Fault(EngineFault::OutOfMemory),
            fault => Undone::Partial { name, fault, other },
        }
    }

    // Prints the failure, and returns the exit status.
    fn print<S: Sink, E: Sink>(self, alloc: Global, out: &mut S, err: &mut E) -> u8 {
        match self {
            Undone::Failure(failure) => failure.print(alloc, out, err),
            Undone::Fault(fault) => print_fault(alloc, err, &fault),
            Undone::Partial { name, fault, other } => {
                print_partial(alloc, PartialLine { name, fault, other }, out, err)
            }
        }
    }
}

// Reads the files of some partials of a query.
fn read_partials<'a, R: Store + AllocGlobal>(
    rt: &R,
    merger: &Merger,
    paths: &[&'a str],
) -> Result<Vec<Partial>, Undone<'a>> {
    let mut partials = Vec::new(rt.alloc());
    for path in paths {
        let text = read_partial_file(rt, path)?;
        match merger.read(rt.alloc(), &text) {
            Ok(partial) => {
                partials
                    .push(partial)
                    .map_err(|_| EngineFault::OutOfMemory)?;
            }
            Err(fault) => return Err(Undone::of_partial(path, fault, None)),
        }
    }
    Ok(partials)
}

// The name of the file at a position.
fn name_at<'a>(paths: &[&'a str], index: usize) -> &'a str {
    match paths.get(index) {
        Some(path) => path,
        None => "",
    }
}

// Why the partials of these files were not merged.
fn fault_of_merge<'a>(paths: &[&'a str], fault: PartialsFault) -> Undone<'a> {
    match fault {
        PartialsFault::Engine(fault) => Undone::Fault(fault),
        PartialsFault::Partial {
            index,
            fault,
            other,
        } => {
            let other = match other {
                Some(other) => Some(name_at(paths, other)),
                None => None,
            };
            Undone::of_partial(name_at(paths, index), fault, other)
        }
    }
}

// Reads and merges the partials.
fn merge_read<'a, R: Store + AllocGlobal, S: Sink, E: Sink>(
    rt: &R,
    asked: &Merge<'a>,
    out: &mut S,
    err: &mut E,
) -> Result<(), Undone<'a>> {
    let file = read_file(rt, asked.file)?;
    let merger = Merger::of_query(rt.alloc(), &file)?;
    let paths = asked.partials.as_slice();
    let partials = read_partials(rt, &merger, paths)?;
    match merger.merge(
        rt.alloc(),
        &partials,
        asked.is_distinct,
        Limits::widest(),
        out,
        err,
    ) {
        Ok(()) => Ok(()),
        Err(fault) => Err(fault_of_merge(paths, fault)),
    }
}

/// Merges the partials of some files, and gives the exit status: those of a query, and 8 for a file
/// that is not a partial of the query or cannot be merged with the others.
pub(crate) fn merge_partials<R: Store + AllocGlobal, S: Sink, E: Sink>(
    rt: &R,
    asked: &Merge<'_>,
    out: &mut S,
    err: &mut E,
) -> u8 {
    match merge_read(rt, asked, out, err) {
        Ok(()) => 0,
        Err(fault) => fault.print(rt.alloc(), out, err),
    }
}

// Reads and checks the query of the partials, and finds the folder for them.
fn query_of_partials<'a, R: Store + AllocGlobal>(
    rt: &R,
    asked: &Partials<'a>,
) -> Result<Vec<u8>, Undone<'a>> {
    let file = read_file(rt, asked.file)?;
    let _question = Question::query(rt.alloc(), &file)?;
    if let Some(target) = asked.target {
        find_folder(rt, target)?;
    }
    Ok(file)
}

// Loads a part of lineorder, with the dimensions of a part that was loaded before, if there is one.
fn load_part<R: Store + AllocGlobal, P: Watch>(
    rt: &R,
    folder: &str,
    part: u16,
    loaded: Option<Engine>,
    progress: &mut P,
) -> Result<Result<Engine, EngineFault>, Failure<'static>>
    requires { IfSome loaded IsWidest }
    ensures { IfOk result (λ loaded. IfOk loaded IsWidest) }
{
    match loaded {
        Some(engine) => {
            let lineorder = read_lineorder_part(rt, folder, part, progress)?;
            Ok(engine.with_lineorder(rt.alloc(), lineorder))
        }
        None => {
            let tables = read_part_tables(rt, folder, part, progress)?;
            Ok(engine_of(rt.alloc(), tables))
        }
    }
}

// Keeps a partial under the name of its part in a folder.
fn keep_partial<'a, R: Store + AllocGlobal>(
    rt: &R,
    target: &str,
    name: &'a str,
    partial: &[u8],
) -> Result<(), Failure<'a>> {
    let mut directory = Directory {
        rt,
        folder: target,
        ending: "partial",
        failed_at: None,
    };
    match directory.store(rt.alloc(), name, partial) {
        Ok(()) => Ok(()),
        Err(ReportSinkFault::OutOfMemory) => Err(Failure::OutOfMemory),
        Err(ReportSinkFault::Write { sent }) => Err(Failure::Unstored(name, sent)),
    }
}

// Keeps the partial of a query over loaded tables under the name of its part, or writes it if there
// is no folder for it.
fn deliver_partial<'a, R: Store + AllocGlobal, S: Sink>(
    rt: &R,
    engine: &Engine,
    file: &[u8],
    target: Option<&str>,
    name: &'a str,
    out: &mut S,
) -> Result<(), Undone<'a>> {
    match target {
        Some(target) => {
            let partial = partial_text(rt.alloc(), engine, file)?;
            Ok(keep_partial(rt, target, name, &partial)?)
        }
        None => Ok(write_partial(rt.alloc(), engine, file, out)?),
    }
}

// Loads a part of lineorder and makes the partial over it. Returns the loaded tables, or the exit status
// of what went wrong.
fn make_partial<R: Store + AllocGlobal, P: Watch, S: Sink, E: Sink>(
    rt: &R,
    asked: &Partials<'_>,
    file: &[u8],
    part: u16,
    loaded: Option<Engine>,
    progress: &mut P,
    out: &mut S,
    err: &mut E,
) -> Result<Engine, u8>
    requires { IfSome loaded IsWidest }
    ensures { IfOk result IsWidest }
{
    let name = match format!(in rt.alloc(); "{part}") {
        Ok(name) => name,
        Err(_) => return Err(Failure::OutOfMemory.print(rt.alloc(), out, err)),
    };
    let loaded = match load_part(rt, asked.folder, part, loaded, progress) {
        Ok(loaded) => loaded,
        Err(failure) => return Err(failure.print(rt.alloc(), out, err)),
    };
    match loaded {
        Ok(engine) => match deliver_partial(rt, &engine, file, asked.target, &name, out) {
            Ok(()) => Ok(engine),
            Err(fault) => Err(fault.print(rt.alloc(), out, err)),
        },
        Err(fault) if asked.target.is_none() => Err(print_fault(rt.alloc(), err, &fault)),
        Err(fault) => Err(Failure::of_file(&name, fault).print(rt.alloc(), out, err)),
    }
}

/// Makes the partials of the query of a file over parts of lineorder, and gives the exit status. The
/// dimensions are loaded once. The first failure ends it; the partials before it are kept.
pub(crate) fn make_partials<R: Store + AllocGlobal, P: Watch, S: Sink, E: Sink>(
    rt: &R,
    asked: &Partials<'_>,
    progress: &mut P,
    out: &mut S,
    err: &mut E,
) -> u8 {
    let file = match query_of_partials(rt, asked) {
        Ok(file) => file,
        Err(fault) => return fault.print(rt.alloc(), out, err),
    };
    let mut loaded = None;
    for part in &asked.parts {
        match make_partial(rt, asked, &file, *part, loaded, progress, out, err) {
            Ok(engine) => loaded = Some(engine),
            Err(status) => return status,
        }
    }
    0
}
