// Readers that are read whole or part by part: few bytes at once, the bound, and reads that fail.

use crate::checks::check_same;
use crate::streams::{Choppy, Zeros};
use star_engine::{FileFault, Input, TableReader, read_expected, read_part, read_whole};
use star_reader::ReadFault;
use star_schema::{Limits, TableId};
use std::alloc::{AllocError, Global};
use std::test::Fail;

// The bytes of a reader, or that it isn't read.
fn kept(answer: Result<Vec<u8>, FileFault>) -> Result<Option<Vec<u8>>, AllocError> {
    match answer {
        Ok(bytes) => Ok(Some(bytes)),
        Err(FileFault::Failed) => Ok(None),
        Err(FileFault::Memory) => Err(AllocError),
    }
}

// Whether a reader that gives this text is read as it, with some bytes expected, or not read.
fn read_again(
    alloc: Global,
    text: &[u8],
    limit: u64,
    expected: u64,
) -> Result<Option<bool>, AllocError> {
    let bytes = kept(read_expected(alloc, &mut Input::new(text), limit, expected))?;
    Ok(bytes.map(|bytes| bytes.as_slice() == text))
}

// How many bytes come, how many may, and whether they are read.
const TEXTS: [(usize, u64, bool); 7] = [
    (0, 0, true),
    (1, 0, false),
    (300_000, 300_000, true),
    (300_000, 299_999, false),
    (131_072, 131_072, true),
    (131_073, 131_072, false),
    (131_073, u64::MAX, true),
];

#[test]
fn texts_are_read_whole(rt: HostRuntime) -> Result<(), Fail> {
    let sevens = vec![in rt.alloc(); 7u8; 300_000]?;
    for (length, limit, is_read) in TEXTS {
        let text = sevens.as_slice().get(..length).ok_or("length")?;
        for expected in [0, 1, limit, u64::MAX] {
            let same = read_again(rt.alloc(), text, limit, expected)?;
            check_same(
                &rt,
                same,
                is_read.then_some(true),
                &(length, limit, expected),
            );
        }
    }
    Ok(())
}

// How many bytes are read, if they are, and how many reads it takes.
fn zeros_read(
    alloc: Global,
    limit: u64,
    mut zeros: Zeros,
) -> Result<(Option<usize>, u64), AllocError> {
    let bytes = kept(read_whole(alloc, &mut Input::new(&mut zeros), limit))?;
    Ok((bytes.map(|bytes| bytes.len()), zeros.reads))
}

const ENDLESS: u64 = u64::MAX;

// How many bytes may come, how many reads are good, how many bytes each gives, whether the next read
// fails, how many bytes come, and how many reads are made.
const READERS: [(u64, u64, usize, bool, Option<usize>, u64); 9] = [
    (1_000, 1, 10, true, None, 2),
    (1_000, 0, 10, true, None, 1),
    (1_000, 3, 10, false, Some(30), 4),
    (1_000, ENDLESS, 1, false, None, 1_001),
    (1_000, ENDLESS, 10, false, None, 101),
    (1_000, ENDLESS, 1 << 40, true, None, 1),
    (1_000, 1_000, 1, false, Some(1_000), 1_001),
    (0, 0, 1, false, Some(0), 1),
    (0, ENDLESS, 1, false, None, 1),
];

#[test]
fn readers_that_fail_or_never_end(rt: HostRuntime) -> Result<(), Fail> {
    for (limit, good, at_once, fails, bytes, reads) in READERS {
        let zeros = Zeros {
            good,
            at_once,
            fails,
            reads: 0,
        };
        let got = zeros_read(rt.alloc(), limit, zeros)?;
        check_same(&rt, got, (bytes, reads), &(limit, good, at_once, fails));
    }
    Ok(())
}

// How many rows the parts of a table have, or its error; none if a file isn't read.
type Rows = Option<Result<u32, ReadFault>>;

// Gives a reader's part to a table: whether it is read.
fn take_part(
    alloc: Global,
    table: &mut TableReader,
    choppy: Choppy<'_>,
) -> Result<bool, AllocError> {
    match read_part(alloc, &mut Input::new(choppy), table, 1_000) {
        Ok(()) => Ok(true),
        Err(FileFault::Failed) => Ok(false),
        Err(FileFault::Memory) => Err(AllocError),
    }
}

// Reads two parts of suppliers, at most `at_once` bytes at once. A read of the second fails once some
// of its bytes have come.
fn read_two(
    alloc: Global,
    parts: [&[u8]; 2],
    at_once: usize,
    until_failure: usize,
) -> Result<Rows, AllocError> {
    let mut table = TableReader::new(alloc, TableId::Supplier, Limits::widest())?;
    for (left, until_failure) in [(parts[0], usize::MAX), (parts[1], until_failure)] {
        let choppy = Choppy {
            left,
            at_once,
            until_failure,
        };
        if !take_part(alloc, &mut table, choppy)? {
            return Ok(None);
        }
    }
    match table.finish(alloc) {
        Ok(raw) => Ok(Some(Ok(raw.rows()))),
        Err(ReadFault::OutOfMemory) => Err(AllocError),
        Err(fault) => Ok(Some(Err(fault))),
    }
}

const ONE: &[u8] = b"1|Supplier#000000001|b1|UNITED KI5|UNITED KINGDOM|EUROPE|33-444-444-4444";

const TWO: &[u8] = b"\r\n2|a|b|c|d|e|f|\r\n\r\n-3|a|b|c|d|e|f\n";

const WRONG: &[u8] = b"1|a|b|c|d|e|f\nx|a|b|c|d|e|f\n3|a|b\n";

const BAD_NUMBER: ReadFault = ReadFault::BadNumber {
    at_row: 3,
    field: 1,
};

const PARTS: [([&[u8]; 2], Rows); 4] = [
    ([b"", b""], Some(Ok(0))),
    ([ONE, TWO], Some(Ok(3))),
    ([TWO, ONE], Some(Ok(3))),
    ([ONE, WRONG], Some(Err(BAD_NUMBER))),
];

#[test]
fn few_bytes_at_once_are_the_same_parts(rt: HostRuntime) -> Result<(), Fail> {
    for (parts, expected) in PARTS {
        for at_once in [1, 2, 3, 7, usize::MAX] {
            let got = read_two(rt.alloc(), parts, at_once, usize::MAX)?;
            check_same(&rt, got, expected, &(parts, at_once));
        }
    }
    Ok(())
}

// A failed read is reported wherever it comes, also after bytes and parts that have an error. Each
// second part has 34 bytes at least.
#[test]
fn a_failed_read_comes_before_errors(rt: HostRuntime) -> Result<(), Fail> {
    for parts in [[ONE, TWO], [b"".as_slice(), WRONG], [WRONG, TWO]] {
        for until_failure in 0..35 {
            for at_once in [1, usize::MAX] {
                let got = read_two(rt.alloc(), parts, at_once, until_failure)?;
                check_same(&rt, got, None, &(parts, at_once, until_failure));
            }
        }
    }
    Ok(())
}
