// Load progress: the line on a terminal, and what a watch is given.

use crate::checks::{check_same, check_text};
use crate::commands::{AMPLE, owned, piped, run_watched};
use crate::files::{Folder, THREE, TWO};
use crate::streams::Short;
use star_cli::{Progress, TableFile, Watch};
use star_engine::sample;
use std::alloc::{AllocError, Global};
use std::cell::Cell;
use std::io;
use std::rt::Clock;
use std::test::Fail;
use std::time::Duration;

// A clock that always shows `millis` milliseconds.
#[derive(Drop)]
struct Stopped {
    millis: Cell<u64>,
}

impl Clock for Stopped {
    fn monotonic(&self) -> io::Result<Duration> {
        Ok(Duration::from_millis(self.millis.get()))
    }

    fn since_1970(&self) -> io::Result<Duration> {
        Ok(Duration::from_millis(0))
    }
}

const DATE: TableFile = TableFile::Named("date.tbl");

const PART: TableFile = TableFile::Part(12);

// When how many bytes of a file have come, and of how many, in a load that begins at 7,000.
const STEPS: [(u64, TableFile, u64, u64); 8] = [
    (7_000, DATE, 100, 3_000_000),
    (7_999, DATE, 200, 3_000_000),
    (8_000, DATE, 1_999_999, 3_000_001),
    (8_099, DATE, 2_000_000, 3_000_001),
    (8_100, PART, 5, 1),
    (8_150, PART, 1_000_000, 1),
    (9_000, PART, 12_345_678, 0),
    (9_001, PART, 12_345_679, 0),
];

// What three of the steps leave on a terminal, a line each that goes over the one before, and the end.
const SHOWN: &str = concat!(
    "\r                                        \rdate.tbl 1 of 4 MB",
    "\r                                        \rlineorder.tbl.12 0 of 1 MB",
    "\r                                        \rlineorder.tbl.12 12 MB",
    "\r                                        \r",
);

// The output of the steps on a terminal that has room for `left` bytes.
fn shown(
    alloc: Global,
    steps: &[(u64, TableFile, u64, u64)],
    left: usize,
) -> Result<Vec<u8>, AllocError> {
    let clock = Stopped {
        millis: Cell::new(7_000),
    };
    let mut terminal = Short::with_room(alloc, left, 4_096)?;
    let mut progress = Progress::new(alloc, &clock, Some(&mut terminal));
    progress.begin();
    for (at, file, came, size) in steps {
        clock.millis.set(*at);
        progress.came(*file, *came, *size);
    }
    progress.end();
    Ok(terminal.taken)
}

#[test]
fn a_load_that_takes_a_second_is_shown(rt: HostRuntime) -> Result<(), Fail> {
    let text = shown(rt.alloc(), STEPS.as_slice(), 4_096)?;
    check_text(text.as_slice(), SHOWN, "a load")?;
    let silent = shown(rt.alloc(), &STEPS[..2], 4_096)?;
    check_text(silent.as_slice(), "", "a short load")
}

// A line that isn't written whole is the last.
#[test]
fn nothing_is_shown_after_a_failed_write(rt: HostRuntime) -> Result<(), Fail> {
    for left in [0, 1, 61, 62, 100] {
        let text = shown(rt.alloc(), STEPS.as_slice(), left)?;
        check_same(&rt, text.as_slice(), &SHOWN.as_bytes()[..left], &left);
    }
    Ok(())
}

// What a watch was given.
#[derive(Drop)]
struct Seen {
    begun: u32,
    ended: u32,
    files: Vec<(TableFile, u64, u64)>,
    is_faulty: bool,
}

impl Watch for Seen {
    fn begin(&mut self) {
        self.begun = self.begun.saturating_add(1);
    }

    fn came(&mut self, file: TableFile, came: u64, size: u64) {
        let is_again = match self.files.last() {
            Some(last) => *last == (file, came, size),
            None => false,
        };
        if !is_again && self.files.push((file, came, size)).is_err() {
            self.is_faulty = true;
        }
    }

    fn end(&mut self) {
        self.ended = self.ended.saturating_add(1);
    }
}

// What a watch is given of the load of a folder in which the first read of a file fails, and the
// exit status.
fn seen_of(alloc: Global, failing: &'static str) -> Result<(u8, Seen), AllocError> {
    let folder = Folder {
        failing,
        ..Folder::sound(alloc)?
    };
    let mut seen = Seen {
        begun: 0,
        ended: 0,
        files: Vec::new(alloc),
        is_faulty: false,
    };
    let words = owned(alloc, ["check", "f"].as_slice())?;
    let ran = run_watched(&folder, words.as_slice(), piped(b""), &mut seen, AMPLE)?;
    Ok((ran.status, seen))
}

// The files of the folder and how many bytes they have.
fn files() -> [(TableFile, u64, u64); 6] {
    let texts = sample();
    [
        (TableFile::Named("date.tbl"), texts.date),
        (TableFile::Named("customer.tbl"), texts.customer),
        (TableFile::Named("supplier.tbl"), texts.supplier),
        (TableFile::Named("part.tbl"), texts.part),
        (TableFile::Part(1), TWO),
        (TableFile::Part(2), THREE),
    ]
    .map(|(file, text)| (file, text.len() as u64, 0))
}

#[test]
fn a_watch_is_given_each_file(rt: HostRuntime) -> Result<(), Fail> {
    let files = files();
    for (failing, count, status) in [
        ("", 6, 0),
        ("f/lineorder.tbl.2", 5, 6),
        ("f/date.tbl", 0, 6),
    ] {
        let (ended, seen) = seen_of(rt.alloc(), failing)?;
        let calls = (ended, seen.begun, seen.ended, seen.is_faulty);
        check_same(&rt, calls, (status, 1, 1, false), &failing);
        check_same(&rt, seen.files.as_slice(), &files[..count], &failing);
    }
    Ok(())
}
