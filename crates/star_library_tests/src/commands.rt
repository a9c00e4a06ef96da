// What commands do over streams with limited room, and over folders of many parts, of files that give
// few bytes at once, and of files whose reads fail.

use crate::checks::{check_same, check_text};
use crate::files::Folder;
use crate::streams::Short;
use star_cli::{StandardInput, Store, Watch, command_to};
use star_engine::sample;
use std::alloc::{AllocError, Global};
use std::io::Read;
use std::process::Abort;
use std::test::Fail;

/// How a command ended, and what its two streams took.
#[derive(Drop)]
pub(crate) struct Ran {
    pub(crate) status: u8,
    pub(crate) out: Vec<u8>,
    pub(crate) err: Vec<u8>,
}

impl Ran {
    /// Checks the exit status and both streams.
    pub(crate) fn check(
        &self,
        rt: &impl Abort,
        status: u8,
        out: &str,
        err: &str,
        of: &str,
    ) -> Result<(), Fail> {
        check_text(self.out.as_slice(), out, of)?;
        check_text(self.err.as_slice(), err, of)?;
        check_same(rt, self.status, status, &of);
        Ok(())
    }
}

/// How many bytes each stream takes, if these are more than any of these commands writes.
pub(crate) const AMPLE: (usize, usize) = (4_096, 4_096);

/// Standard input that has these bytes, and is no terminal.
pub(crate) fn piped(bytes: &[u8]) -> StandardInput<&[u8]> {
    StandardInput {
        reader: bytes,
        is_terminal: false,
    }
}

/// The arguments of a command.
pub(crate) fn owned(alloc: Global, words: &[&str]) -> Result<Vec<String>, AllocError> {
    let mut owned = Vec::new(alloc);
    for word in words {
        owned.push(String::from_str(alloc, word)?)?;
    }
    Ok(owned)
}

/// Runs a command that reads an input and reports its load, over two streams that take so many bytes.
pub(crate) fn run_watched<R: Store + AllocGlobal, I: Read + Drop, P: Watch>(
    rt: &R,
    words: &[String],
    input: StandardInput<I>,
    watch: &mut P,
    room: (usize, usize),
) -> Result<Ran, AllocError> {
    let mut out = Short::with_room(rt.alloc(), room.0, 3)?;
    let mut err = Short::with_room(rt.alloc(), room.1, 2)?;
    match command_to(rt, words, input, watch, &mut out, &mut err) {
        7 => Err(AllocError),
        status => Ok(Ran {
            status,
            out: out.taken,
            err: err.taken,
        }),
    }
}

/// Runs a command that reads no input.
pub(crate) fn run<R: Store + AllocGlobal>(
    rt: &R,
    words: &[&str],
    room: (usize, usize),
) -> Result<Ran, AllocError> {
    let words = owned(rt.alloc(), words)?;
    run_watched(rt, words.as_slice(), piped(b""), &mut (), room)
}

#[test]
fn a_thousand_parts_are_read(rt: HostRuntime) -> Result<(), Fail> {
    let query = ["query", "f", "q.sql"].as_slice();
    for (parts, status, out, err) in [
        (
            2,
            0,
            "revenue\n2000\n",
            "quote 5\nvisits 5 lookups 5 updates 1\n",
        ),
        (
            1_000,
            0,
            "revenue\n2000\n",
            "quote 5\nvisits 5 lookups 5 updates 1\n",
        ),
        (1_001, 6, "", "file lineorder.tbl.1001\n"),
    ] {
        let folder = Folder::of(rt.alloc(), sample().date, parts)?;
        run(&folder, query, AMPLE)?.check(&rt, status, out, err, "parts")?;
    }
    Ok(())
}

#[test]
fn a_thousand_files_are_taken(rt: HostRuntime) -> Result<(), Fail> {
    let folder = Folder::sound(rt.alloc())?;
    for (count, status, front) in [
        (0, 2, "error: "),
        (1_000, 6, "file 0.sql\n"),
        (1_001, 2, "error: "),
    ] {
        let mut words = owned(rt.alloc(), ["reports", "f", "f"].as_slice())?;
        for number in 0..count {
            words.push(format!(in rt.alloc(); "{number}.sql")?)?;
        }
        let ran = run_watched(&folder, words.as_slice(), piped(b""), &mut (), AMPLE)?;
        let err = str::from_utf8(ran.err.as_slice())?;
        check_same(
            &rt,
            (ran.status, err.starts_with(front)),
            (status, true),
            &count,
        );
    }
    Ok(())
}

#[test]
fn files_are_read_a_few_bytes_at_once(rt: HostRuntime) -> Result<(), Fail> {
    let query = ["query", "f", "q.sql"].as_slice();
    for at_once in [1, 7, usize::MAX] {
        let folder = Folder {
            at_once,
            ..Folder::sound(rt.alloc())?
        };
        let notes = "quote 5\nvisits 5 lookups 5 updates 1\n";
        run(&folder, query, AMPLE)?.check(&rt, 0, "revenue\n2000\n", notes, "few bytes")?;
    }
    Ok(())
}

// The dates, faulty in their first record, which has more than 40 bytes.
const NO_DATES: &[u8] = b"no date, and no record of one, since it has no field but this one\n";

// The files of the folder, in the order in which they are read, and the line of each if a read fails.
const LINES: &[(&str, &str)] = &[
    ("f/date.tbl", "file date.tbl\n"),
    ("f/customer.tbl", "file customer.tbl\n"),
    ("f/supplier.tbl", "file supplier.tbl\n"),
    ("f/part.tbl", "file part.tbl\n"),
    ("f/lineorder.tbl.1", "file lineorder.tbl.1\n"),
    ("f/lineorder.tbl.2", "file lineorder.tbl.2\n"),
];

// A read that fails at this byte is reported, and not the error of the first record of the dates.
fn check_file_first(rt: &(impl Abort + AllocGlobal), until_failure: usize) -> Result<(), Fail> {
    for (failing, line) in LINES {
        let folder = Folder {
            at_once: 16,
            failing,
            until_failure,
            ..Folder::of(rt.alloc(), NO_DATES, 2)?
        };
        run(&folder, ["check", "f"].as_slice(), AMPLE)?.check(rt, 6, "", line, failing)?;
    }
    Ok(())
}

#[test]
fn a_failed_read_comes_before_errors_of_contents(rt: HostRuntime) -> Result<(), Fail> {
    for until_failure in [0, 1, 8, 40] {
        check_file_first(&rt, until_failure)?;
    }
    let faulty = Folder::of(rt.alloc(), NO_DATES, 2)?;
    let line = "load 4 FieldCount table date record 1\n";
    run(&faulty, ["check", "f"].as_slice(), AMPLE)?.check(&rt, 3, "", line, "the dates")
}

// Arguments, how many bytes both streams take, the exit status, and what standard error takes.
const SHORT: &[(&[&str], usize, usize, u8, &str)] = &[
    (&[], 4_000, 0, 0, ""),
    (&[], 0, 100, 6, "write 0\n"),
    (&[], 10, 100, 6, "write 10\n"),
    (&[], 10, 0, 6, ""),
    (&[], 10, 7, 6, "write 1"),
    (&["check", "none"], 0, 9, 6, "file date"),
    (&["check", ""], 0, 0, 2, ""),
    (&["--version"], 0, 100, 0, ""),
    (&["--no"], 0, 6, 2, "error:"),
];

#[test]
fn the_status_stays_if_streams_fail(rt: HostRuntime) -> Result<(), Fail> {
    let folder = Folder::sound(rt.alloc())?;
    for (words, out, err, status, line) in SHORT {
        let ran = run(&folder, words, (*out, *err))?;
        check_text(ran.err.as_slice(), line, "short streams")?;
        check_same(&rt, ran.status, *status, &(words, out));
    }
    Ok(())
}

// Names of files, and how they are printed.
const NAMES: &[(&str, &str)] = &[
    ("a\nload 1", "file a\\nload 1\n"),
    (
        "\0\t\r\u{1b}\u{7f}\u{85}",
        "file \\0\\t\\r\\u{1b}\\u{7f}\\u{85}\n",
    ),
    (
        "\u{e9}'\"\u{301}\u{2028}",
        "file \u{e9}'\"\u{301}\u{2028}\n",
    ),
];

#[test]
fn a_file_is_named_on_one_line(rt: HostRuntime) -> Result<(), Fail> {
    let folder = Folder::sound(rt.alloc())?;
    for (name, line) in NAMES {
        let ran = run(&folder, ["trial", "none", *name, "1"].as_slice(), AMPLE)?;
        ran.check(&rt, 6, "", line, name)?;
    }
    Ok(())
}
