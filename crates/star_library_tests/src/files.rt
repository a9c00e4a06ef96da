// A folder in memory, whose files give few bytes at once, or fail in the middle.

ghost use Rattle.std.specs.{Prelude.{◌≡◌, Some, option_map}, Option.option_copied};
ghost use Rattle.star_library_tests.specs.Folders.{bytes_at};

use crate::streams::Choppy;
use star_cli::Store;
use star_engine::{BenchmarkQuery, FileFault, sample};
use std::alloc::{AllocError, Allocator, Global};
use std::fs::{Files, Metadata, OpenFile, OpenOptions};
use std::io;
use std::io::{Read, Seek, SeekFrom, Write};

/// A file of a folder.
#[derive(Drop)]
pub(crate) struct Kept {
    path: String,
    bytes: &'static [u8],
}

/// The sample in a folder `f`, with lineorder in parts: the first has two lines, the last three,
/// and those between none. The folder also has a query, `q.sql`, and a program, `p.star`. A read
/// gives at most `at_once` bytes, and one of the file at the path `failing` fails once
/// `until_failure` bytes of it have come.
#[derive(Drop)]
pub(crate) struct Folder {
    pub(crate) alloc: Global,
    pub(crate) files: Vec<Kept>,
    pub(crate) at_once: usize,
    pub(crate) failing: &'static str,
    pub(crate) until_failure: usize,
}

/// The two first lines of orders, with no line end after them.
pub(crate) const TWO: &[u8] = b"\
    1|1|1|1|2|19930210|2-HIGH|0|10|1000|3000|2|980|600|2|19940105|MAIL|\n\
    1|2|1|2|1|19930210|2-HIGH|0|30|2000|3000|3|1940|1200|0|19940105|RAIL|";

/// The three last lines.
pub(crate) const THREE: &[u8] = b"\
    2|1|2|1|2|19940105|5-LOW|0|24|500|500|1|495|700|4|19940105|SHIP|\n\
    3|1|3|3|2|19971215|1-URGENT|0|50|3000|3700|0|3000|1000|8|19971215|TRUCK|\n\
    3|2|1|2|1|19971215|1-URGENT|0|1|700|3700|10|630|100|1|19971215|AIR|\n";

/// Counts the lines that are priced above the average: two of the sample.
pub(crate) const ABOVE_AVERAGE: &str = concat!(
    "star program 1\nregisters 8\ngroup 0 plain : sum count\ngroup 1 plain : count\n",
    "scan lineorder r0\n  r1 = load lo_extendedprice r0\n  put 0 : r1\nend\n",
    "r2 = read 0 0 0\nr3 = read 0 1 0\n",
    "scan lineorder r4\n  r5 = load lo_extendedprice r4\n  r6 = mul r5 r3\n  r7 = lt r2 r6\n",
    "  keep r7\n  put 1 :\nend\nreport 1\nshow n aggregate 0\n",
);

// The bytes of the file at a path, if there is one.
fn bytes_at(files: &[Kept], path: &str) -> Option<&'static [u8]>
    ensures { option_copied result ≡ bytes_at files.now path.now }
{
    for file in files {
        if file.path.as_str() == path {
            return Some(file.bytes);
        }
    }
    None
}

// Adds a file.
fn keep(files: &mut Vec<Kept>, path: String, bytes: &'static [u8]) -> Result<(), AllocError> {
    files.push(Kept { path, bytes })?;
    Ok(())
}

// Adds the parts of lineorder.
fn keep_parts(alloc: Global, files: &mut Vec<Kept>, parts: u16) -> Result<(), AllocError> {
    for number in 1..=parts {
        let bytes = match number {
            1 => TWO,
            number if number == parts => THREE,
            _ => b"",
        };
        keep(files, format!(in alloc; "f/lineorder.tbl.{number}")?, bytes)?;
    }
    Ok(())
}

impl Folder {
    /// The sample in two parts, whose files are read at once and don't fail.
    pub(crate) fn sound(alloc: Global) -> Result<Folder, AllocError> {
        Folder::of(alloc, sample().date, 2)
    }

    /// The sample with other dates, in this many parts.
    pub(crate) fn of(alloc: Global, date: &'static [u8], parts: u16) -> Result<Folder, AllocError> {
        let texts = sample();
        let mut files = Vec::new(alloc);
        for (path, bytes) in [
            ("f/date.tbl", date),
            ("f/customer.tbl", texts.customer),
            ("f/supplier.tbl", texts.supplier),
            ("f/part.tbl", texts.part),
            ("q.sql", BenchmarkQuery::Q11.text().as_bytes()),
            ("p.star", ABOVE_AVERAGE.as_bytes()),
        ] {
            keep(&mut files, String::from_str(alloc, path)?, bytes)?;
        }
        keep_parts(alloc, &mut files, parts)?;
        Ok(Folder {
            alloc,
            files,
            at_once: usize::MAX,
            failing: "",
            until_failure: 0,
        })
    }

    // Opens the file at a path, if there is one.
    fn opened(&self, path: &str) -> Option<Opened>
        ensures { option_map (λ opened. opened.bytes.left.now) result
            ≡ bytes_at self.now.files.items path.now }
    {
        let left = bytes_at(self.files.as_slice(), path)?;
        let until_failure = if path == self.failing {
            self.until_failure
        } else {
            usize::MAX
        };
        Some(Opened {
            bytes: Choppy {
                left,
                at_once: self.at_once,
                until_failure,
            },
        })
    }
}

fn unsupported() -> io::Error {
    io::Error::from(io::ErrorKind::Unsupported)
}

/// An open file, which can be read.
#[derive(Drop)]
pub(crate) struct Opened {
    bytes: Choppy<'static>,
}

impl Read for Opened {
    ghost remaining = { λ opened. Some opened.bytes.left.now };

    fn read(&mut self, room: &mut [u8]) -> io::Result<usize> {
        self.bytes.read(room)
    }
}

impl Write for Opened {
    fn write(&mut self, _bytes: &[u8]) -> io::Result<usize> {
        Err(unsupported())
    }

    fn flush(&mut self) -> io::Result<()> {
        Ok(())
    }
}

impl Seek for Opened {
    fn seek(&mut self, _to: SeekFrom) -> io::Result<u64> {
        Err(unsupported())
    }
}

impl OpenFile for Opened {
    fn metadata(&self) -> io::Result<Metadata> {
        Err(unsupported())
    }

    fn set_len(&self, _size: u64) -> io::Result<()> {
        Err(unsupported())
    }

    fn sync_all(&self) -> io::Result<()> {
        Err(unsupported())
    }

    fn sync_data(&self) -> io::Result<()> {
        Err(unsupported())
    }
}

impl Alloc for Folder {
    type A = Global;

    fn alloc(&self) -> Global {
        self.alloc
    }
}

impl Files for Folder {
    type File = Opened;

    type Dir = Opened;

    fn open_file(&self, _how: &OpenOptions, path: &str) -> io::Result<Opened> {
        match self.opened(path) {
            Some(file) => Ok(file),
            None => Err(io::Error::from(io::ErrorKind::NotFound)),
        }
    }

    fn open_dir(&self, _path: &str) -> io::Result<Opened> {
        Err(unsupported())
    }

    fn metadata(&self, _path: &str) -> io::Result<Metadata> {
        Err(unsupported())
    }

    fn symlink_metadata(&self, _path: &str) -> io::Result<Metadata> {
        Err(unsupported())
    }

    fn copy(&self, _from: &str, _to: &str) -> io::Result<u64> {
        Err(unsupported())
    }

    fn rename(&self, _from: &str, _to: &str) -> io::Result<()> {
        Err(unsupported())
    }

    fn remove_file(&self, _path: &str) -> io::Result<()> {
        Err(unsupported())
    }

    fn create_dir(&self, _path: &str) -> io::Result<()> {
        Err(unsupported())
    }

    fn remove_dir(&self, _path: &str) -> io::Result<()> {
        Err(unsupported())
    }

    fn remove_dir_all<B: Allocator>(&self, _alloc: B, _path: &str) -> io::Result<()> {
        Err(unsupported())
    }
}

// All is known of it.
impl Store for Folder {
    ghost known = { λ folder path. Some (bytes_at folder.files.items path) };

    fn open_there(&self, path: &str) -> Result<Option<Opened>, FileFault> {
        Ok(self.opened(path))
    }
}
