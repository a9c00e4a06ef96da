// Why a command ended without its whole answer.

ghost use Rattle.std.specs.Prelude.{◌≡◌, ◌==◌, IfOk, string_bytes};
ghost use Rattle.star_common.specs.Memory.{TellsMemory};
ghost use Rattle.star_engine.specs.Answered.{change};
ghost use Rattle.star_cli.specs.{Failures.{AreReportsEnded, IsFailurePrinted, IsPrintedOn, IsTextOf, failure_of_file, failure_of_halt, failure_text, status_of}, declared.failure.Failure.TheVariants.OutOfMemory};

use star_common::Sink;
use star_engine::{EngineFault, FaultLine};
use star_service::{Halt, MEMORY_LINE, MEMORY_STATUS, Shown, print, status_of};
use star_words::WordsFault;
use std::alloc::{AllocError, Global};
use std::fmt;

/// Why a command ended without its whole answer.
pub(crate) enum Failure<'a> {
    /// The words ask for nothing that can be done, or for help or the version.
    Words(WordsFault),
    /// A file could not be read, or is too large.
    File(&'a str),
    /// The part of lineorder with this number, from 1, could not be read, is too large, or is one
    /// too many.
    Part(u16),
    /// The path of a file has no last part, so that its report has no name.
    Unnamed(&'a str),
    /// The reports of two files would have this name.
    NamedTwice(&'a str),
    /// The file at this path is no query and no program.
    OfFile(&'a str, EngineFault),
    /// The report of this name was not kept: a write failed, this many bytes into the report.
    Unstored(&'a str, u64),
    /// A line was not printed: a write failed, this many bytes into the line.
    Unwritten(u64),
    /// Memory was refused.
    OutOfMemory,
}

impl Drop for Failure<'_> {
    fn drop(self) {
        match self {
            Self::Words(_held) => {}
            Self::File(_held) => {}
            Self::Part(_held) => {}
            Self::Unnamed(_held) => {}
            Self::NamedTwice(_held) => {}
            Self::OfFile(_part_0, _part_1) => {}
            Self::Unstored(_part_0, _part_1) => {}
            Self::Unwritten(_held) => {}
            Self::OutOfMemory => {}
        }
    }
}

impl<'a> From<AllocError> for Failure<'a> {
    ghost from_gives = { TellsMemory OutOfMemory };

    fn from(_error: AllocError) -> Failure<'a> {
        Failure::OutOfMemory
    }
}

impl<'a> From<Halt<'a>> for Failure<'a> {
    ghost from_gives = { λ halt failure. failure ≡ failure_of_halt halt };

    fn from(halt: Halt<'a>) -> Failure<'a> {
        match halt {
            Halt::OutOfMemory => Failure::OutOfMemory,
            Halt::Unstored { name, sent } => Failure::Unstored(name, sent),
            Halt::Unwritten { sent } => Failure::Unwritten(sent),
        }
    }
}

impl<'a> fmt::Display for Failure<'a> {
    ghost output = { failure_text };

    #[tactic(auto, unfolding(crate::specs::Failures::failure_text))]
    fn fmt<W: fmt::Write>(&self, f: &mut fmt::Formatter<W>) -> fmt::Result {
        match self {
            Failure::Words(fault) => write!(f, "{fault}"),
            Failure::File(name) => writeln!(f, "file {}", Shown(name)),
            Failure::Part(number) => writeln!(f, "file lineorder.tbl.{number}"),
            Failure::Unnamed(path) => writeln!(
                f,
                "error: no name for the report of {}",
                Shown(path)
            ),
            Failure::NamedTwice(name) => writeln!(
                f,
                "error: two reports are named {}",
                Shown(name)
            ),
            Failure::OfFile(path, fault) => writeln!(f, "{}: {}", Shown(path), FaultLine(fault)),
            Failure::Unstored(name, sent) => writeln!(f, "{}: write {sent}", Shown(name)),
            Failure::Unwritten(sent) => writeln!(f, "write {sent}"),
            Failure::OutOfMemory => f.write_str(MEMORY_LINE),
        }
    }
}

impl<'a> Failure<'a> {
    /// Why the file at a path is no query and no program; or out of memory.
    pub(crate) fn of_file(path: &'a str, fault: EngineFault) -> Failure<'a>
        ensures { result ≡ failure_of_file path.entry fault }
    {
        match fault {
            EngineFault::OutOfMemory => Failure::OutOfMemory,
            fault => Failure::OfFile(path, fault),
        }
    }

    /// The exit status.
    pub(crate) fn status(&self) -> u8
        ensures { result ≡ status_of self.now }
    {
        match self {
            Failure::Words(fault) => fault.status(),
            Failure::Unnamed(_) | Failure::NamedTwice(_) => 2,
            Failure::File(_) | Failure::Part(_) => 6,
            Failure::Unstored(_, _) | Failure::Unwritten(_) => 6,
            Failure::OfFile(_, fault) => status_of(fault),
            Failure::OutOfMemory => MEMORY_STATUS,
        }
    }

    // Its text: a line, but for the texts of the parser of the words.
    fn text(&self, alloc: Global) -> Result<String, AllocError>
        ensures { IfOk result (λ text. IsTextOf self.now (string_bytes text)) }
    {
        format!(in alloc; "{self}")
    }

    // Its text is printed on `out` if the status is 0, otherwise on `err`.
    fn print_text<S: Sink, E: Sink>(&self, text: &[u8], out: &mut S, err: &mut E) -> u8
        ensures printed { IsPrintedOn (result == 0) (change S.contents S.is_failed out.old out.new)
            (change E.contents E.is_failed err.old err.new) text.now }
        ensures status { result ≡ status_of self.now }
    {
        match self.status() {
            0 => {
                print(out, text);
                0
            }
            status => {
                print(err, text);
                status
            }
        }
    }

    /// Prints the failure, help and the version on `out` and all else on `err`, and returns the
    /// exit status. A failed write changes no status; a text for which there is no memory is
    /// reported as out of memory.
    pub(crate) fn print<S: Sink, E: Sink>(&self, alloc: Global, out: &mut S, err: &mut E) -> u8
        ensures { IsFailurePrinted self.now (change S.contents S.is_failed out.old out.new)
            (change E.contents E.is_failed err.old err.new) result }
    {
        match self.text(alloc) {
            Ok(text) => self.print_text(text.as_bytes(), out, err),
            Err(_) => {
                print(err, MEMORY_LINE.as_bytes());
                MEMORY_STATUS
            }
        }
    }
}

/// Prints the failure that ended reports before the last, if any, and returns the exit status: 0 if
/// no file was refused, 1 if one was.
pub(crate) fn end<S: Sink, E: Sink>(
    alloc: Global,
    made: Result<bool, Halt<'_>>,
    out: &mut S,
    err: &mut E,
) -> u8
    ensures { AreReportsEnded (change S.contents S.is_failed out.old out.new)
        (change E.contents E.is_failed err.old err.new) made.entry result }
{
    match made {
        Ok(true) => 0,
        Ok(false) => 1,
        Err(halt) => Failure::from(halt).print(alloc, out, err),
    }
}
