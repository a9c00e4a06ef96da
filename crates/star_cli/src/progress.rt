// How far the load of a folder is, shown on one line of a terminal.

ghost use Rattle.std.specs.Prelude.{◌≡◌, Some};
ghost use Rattle.star_cli.specs.Private.Reads.{name_of};

use std::alloc::{AllocError, Global};
use std::io::{Read, Write};
use std::rt::Clock;
use std::time::{Duration, Instant};
use std::{fmt, io};

/// How many milliseconds a load takes before anything of it is shown.
const SILENCE: u64 = 1_000;

/// How many milliseconds a line is shown at least, so that at most ten are written in a second.
const PAUSE: u64 = 100;

/// What goes over the line of a terminal. No line that is shown has more than its 40 columns.
const BLANK: &str = "\r                                        \r";

const MEGABYTE: u64 = 1_000_000;

/// A file of a table in a folder.
#[derive(Clone, Copy, Debug, PartialEq, Eq)]
pub enum TableFile {
    /// The one of this name.
    Named(&'static str),
    /// The part of lineorder with this number, from 1.
    Part(u16),
}

impl fmt::Display for TableFile {
    ghost output = { λ file. Some (name_of file) };

    fn fmt<W: fmt::Write>(&self, f: &mut fmt::Formatter<W>) -> fmt::Result {
        match self {
            TableFile::Named(name) => f.write_str(name),
            TableFile::Part(number) => write!(f, "lineorder.tbl.{number}"),
        }
    }
}

/// Gets the progress of a folder's load. Nothing that is loaded, answered or printed elsewhere
/// depends on it.
pub trait Watch {
    /// The load begins.
    fn begin(&mut self);

    /// One more read of a file was done, and `came` of its bytes have come so far, of `size`, or 0
    /// if its size isn't known.
    fn came(&mut self, file: TableFile, came: u64, size: u64);

    /// The files were read, or one of them could not be: nothing more comes.
    fn end(&mut self);
}

/// Nobody.
impl Watch for () {
    fn begin(&mut self) {}

    fn came(&mut self, _file: TableFile, _came: u64, _size: u64) {}

    fn end(&mut self) {}
}

// The moment `pause` milliseconds from now, if the clock can be read.
fn later(clock: &impl Clock, pause: u64) -> Option<Instant> {
    match Instant::now(clock) {
        Ok(now) => now.checked_add(Duration::from_millis(pause)),
        Err(_) => None,
    }
}

// The line of a file: its name and how many megabytes of it came, of how many, if that is known.
fn line_of(alloc: Global, file: TableFile, came: u64, size: u64) -> Result<String, AllocError> {
    let came = came / MEGABYTE;
    if size == 0 {
        return format!(in alloc; "{BLANK}{file} {came} MB");
    }
    let size = size.div_ceil(MEGABYTE);
    format!(in alloc; "{BLANK}{file} {came} of {size} MB")
}

// The terminal is an end of standard error of its own, which `main` hands over only if standard
// error is a terminal: nothing reaches a file, and the contracts about the streams that calls
// are handed holds as it is.
/// Shows on one line of a terminal which file a load reads and how many megabytes of it have come, once
/// the load has taken a second; at most ten times in a second. The line is wiped in the end. A terminal
/// that can't be written to is shown nothing more.
#[derive(Drop)]
pub struct Progress<'c, C, W> {
    alloc: Global,
    clock: &'c C,
    terminal: Option<W>,
    // From when on a line is due: never if there is no terminal, no load, or a write failed.
    due: Option<Instant>,
    is_shown: bool,
}

impl<'c, C: Clock, W: Write> Progress<'c, C, W> {
    /// Shows loads on a terminal, if there is one; else nothing is ever written.
    pub fn new(alloc: Global, clock: &'c C, terminal: Option<W>) -> Progress<'c, C, W> {
        Progress {
            alloc,
            clock,
            terminal,
            due: None,
            is_shown: false,
        }
    }

    // Whether a line is due. If none ever is, the clock is not asked.
    fn is_due(&self) -> bool {
        let Some(due) = self.due else {
            return false;
        };
        match Instant::now(self.clock) {
            Ok(now) => now >= due,
            Err(_) => false,
        }
    }

    // Writes a text on the terminal, and returns whether it was written.
    fn write(&mut self, text: &str) -> bool {
        match &mut self.terminal {
            Some(terminal) => terminal.write_all(text.as_bytes()).is_ok(),
            None => false,
        }
    }
}

impl<'c, C: Clock, W: Write> Watch for Progress<'c, C, W> {
    fn begin(&mut self) {
        if self.terminal.is_some() {
            self.due = later(self.clock, SILENCE);
        }
    }

    fn came(&mut self, file: TableFile, came: u64, size: u64) {
        if !self.is_due() {
            return;
        }
        let Ok(line) = line_of(self.alloc, file, came, size) else {
            return;
        };
        self.is_shown = self.write(line.as_str());
        self.due = if self.is_shown {
            later(self.clock, PAUSE)
        } else {
            None
        };
    }

    fn end(&mut self) {
        if self.is_shown {
            self.write(BLANK);
        }
        self.is_shown = false;
        self.due = None;
    }
}

/// A reader of a file of a table, with the `Watch` that gets its progress.
#[derive(Drop)]
pub(crate) struct Watched<'p, F, P> {
    reader: F,
    file: TableFile,
    size: u64,
    came: u64,
    progress: &'p mut P,
}

impl<'p, F, P> Watched<'p, F, P> {
    /// A reader that nothing was read of yet.
    pub(crate) fn new(
        reader: F,
        file: TableFile,
        size: u64,
        progress: &'p mut P,
    ) -> Watched<'p, F, P>
        ensures { result.reader ≡ reader }
    {
        Watched {
            reader,
            file,
            size,
            came: 0,
            progress,
        }
    }
}

impl<'p, F: Read, P: Watch> Read for Watched<'p, F, P> {
    ghost remaining = { λ watched. F.remaining watched.reader };

    fn read(&mut self, room: &mut [u8]) -> io::Result<usize> {
        let read = self.reader.read(room);
        if let Ok(count) = &read {
            self.came = self.came.saturating_add(*count as u64);
            self.progress.came(self.file, self.came, self.size);
        }
        read
    }
}
