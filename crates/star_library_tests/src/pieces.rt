// Texts of suppliers that are read whole, in two pieces cut at each byte, and byte by byte.

use crate::checks::check_same;
use star_catalogue::sample;
use star_reader::{RawTable, ReadFault, TableReader, read_parts, read_table};
use star_schema::{Limits, TableId};
use std::alloc::{AllocError, Global};
use std::process::Abort;
use std::test::Fail;

// How many rows there are, or the error.
type Rows = Result<u32, ReadFault>;

fn rows_of(answer: Result<RawTable, ReadFault>) -> Result<Rows, AllocError> {
    match answer {
        Ok(raw) => Ok(Ok(raw.rows())),
        Err(ReadFault::OutOfMemory) => Err(AllocError),
        Err(fault) => Ok(Err(fault)),
    }
}

// A prefix of the suppliers is a table if its last record has a last field, and a phone number may be
// cut short.
fn expected_of(length: usize) -> Rows {
    match length {
        0 => Ok(0),
        1..57 => Err(ReadFault::FieldCount { at_row: 1 }),
        57..75 => Ok(1),
        75..131 => Err(ReadFault::FieldCount { at_row: 2 }),
        _ => Ok(2),
    }
}

#[test]
fn prefixes_of_a_table(rt: HostRuntime) -> Result<(), Fail> {
    let (alloc, limits) = (rt.alloc(), Limits::widest());
    let supplier = sample().supplier;
    for length in 0..supplier.len() + 1 {
        let raw = read_table(alloc, &supplier[..length], TableId::Supplier, limits);
        check_same(&rt, rows_of(raw)?, expected_of(length), &length);
    }
    Ok(())
}

// Gives a part to a reader, in pieces of `size` bytes.
fn feed_evenly(alloc: Global, reader: &mut TableReader, part: &[u8], size: usize) {
    for start in 0..part.len() {
        if start % size.max(1) == 0 {
            let end = part.len().min(start.saturating_add(size));
            reader.feed(alloc, &part[start..end.max(start)]);
        }
    }
}

// How many suppliers there are in parts that come in pieces of `size` bytes.
fn read_evenly(
    alloc: Global,
    parts: &[&[u8]],
    size: usize,
    limits: Limits,
) -> Result<Rows, AllocError> {
    let mut reader = TableReader::new(alloc, TableId::Supplier, limits)?;
    for part in parts {
        feed_evenly(alloc, &mut reader, part, size);
        reader.end_part(alloc);
    }
    rows_of(reader.finish(alloc))
}

// The same of parts that come in two pieces each, cut at a position. The last part isn't ended.
fn read_cut(
    alloc: Global,
    parts: &[&[u8]],
    index: usize,
    limits: Limits,
) -> Result<Rows, AllocError> {
    let mut reader = TableReader::new(alloc, TableId::Supplier, limits)?;
    for (number, part) in parts.iter().enumerate() {
        if number > 0 {
            reader.end_part(alloc);
        }
        let cut = index.min(part.len());
        reader.feed(alloc, &part[..cut]);
        reader.feed(alloc, b"");
        reader.feed(alloc, &part[cut..]);
    }
    rows_of(reader.finish(alloc))
}

fn longest_of(parts: &[&[u8]]) -> usize {
    let mut longest = 0usize;
    for part in parts {
        longest = longest.max(part.len());
    }
    longest
}

// Checks that some parts have this number of rows, or this error, however they come.
fn check_parts(
    rt: &impl Abort,
    alloc: Global,
    parts: &[&[u8]],
    expected: Rows,
) -> Result<(), Fail> {
    let limits = Limits::new(3, 0).ok_or("limits")?;
    let whole = rows_of(read_parts(alloc, parts, TableId::Supplier, limits))?;
    check_same(rt, whole, expected, &(parts, "whole"));
    for index in 0..longest_of(parts).saturating_add(1) {
        let got = read_cut(alloc, parts, index, limits)?;
        check_same(rt, got, expected, &(parts, "cut at", index));
    }
    for size in 1..4 {
        let got = read_evenly(alloc, parts, size, limits)?;
        check_same(rt, got, expected, &(parts, "in pieces of", size));
    }
    Ok(())
}

const COUNT_1: Rows = Err(ReadFault::FieldCount { at_row: 1 });

const COUNT_2: Rows = Err(ReadFault::FieldCount { at_row: 2 });

const COUNT_3: Rows = Err(ReadFault::FieldCount { at_row: 3 });

const NUMBER_1: Rows = Err(ReadFault::BadNumber {
    at_row: 1,
    field: 1,
});

const NUMBER_2: Rows = Err(ReadFault::BadNumber {
    at_row: 2,
    field: 1,
});

const NUMBER_3: Rows = Err(ReadFault::BadNumber {
    at_row: 3,
    field: 1,
});

const BYTE_1_1: Rows = Err(ReadFault::BadByte {
    at_row: 1,
    field: 1,
});

const BYTE_1_2: Rows = Err(ReadFault::BadByte {
    at_row: 1,
    field: 2,
});

const BYTE_1_3: Rows = Err(ReadFault::BadByte {
    at_row: 1,
    field: 3,
});

const BYTE_1_7: Rows = Err(ReadFault::BadByte {
    at_row: 1,
    field: 7,
});

const BYTE_2_1: Rows = Err(ReadFault::BadByte {
    at_row: 2,
    field: 1,
});

const LONG_1_2: Rows = Err(ReadFault::CellTooLong {
    at_row: 1,
    field: 2,
});

const LONG_2_7: Rows = Err(ReadFault::CellTooLong {
    at_row: 2,
    field: 7,
});

const MARK: Rows = Err(ReadFault::ByteOrderMark);

const MANY: Rows = Err(ReadFault::TooManyRows);

// A text, and how many rows it has, at most three, or its error.
const TEXTS: &[(&[u8], Rows)] = &[
    (b"", Ok(0)),
    (b"\r\n\n\r", Ok(0)),
    (
        b"1|Supplier#000000001|b1|UNITED KI5|UNITED KINGDOM|EUROPE|33-444-444-4444|\r\n-2|b|b2|c|d|e|f",
        Ok(2),
    ),
    (b"1|a|b|c|d|e|f", Ok(1)),
    (b"\n1|a|b|c|d|e|\r\n\r\n-0|||||||", Ok(2)),
    (b"1|a|b|c|d|e|f\r\r2|a|b|c|d|e|f\r", Ok(2)),
    (b"1|||||||\n2|||||||\n3|||||||\n4|||||||", MANY),
    (b"1|||||||\nx|||||||\n3|||||||\n4|||||||", NUMBER_2),
    (b"1|||||||\n2||||||||\n3|||||||\n4|||||||", COUNT_2),
    (b"1|a|b|c|d|e|f|\xff", COUNT_1),
    (b"1|a|b|c|d|e|f||", COUNT_1),
    (b" ", COUNT_1),
    (b"\0", COUNT_1),
    (b"x|a\t|b|c|d|e", COUNT_1),
    (b"1|a\0|b|c|d|e", COUNT_1),
    (b"x|a\t|b|c|d|e|f", NUMBER_1),
    (b"x|a\0|b|c|d|e|f", NUMBER_1),
    (b"|a|b|c|d|e|f", NUMBER_1),
    (b"+5|a|b|c|d|e|f", NUMBER_1),
    (
        b"123456789012345678|||||||\n1234567890123456789|||||||",
        NUMBER_2,
    ),
    (b"1|a\t|b|c|d|e|\x7f", BYTE_1_2),
    (b"1|a|\0|c|d|e|\0|", BYTE_1_3),
    (b"1|a|b|c|d|e|f\n2\0|a|b|c|d|e|f", BYTE_2_1),
    (b"1|a|b|c|d|e|\xef\xbb\xbf", BYTE_1_7),
    (b"\xef\xbb\xbf1|a|b|c|d|e|f", MARK),
    (b"\xef\xbb1|a|b|c|d|e|f", BYTE_1_1),
    (b"\n\xef\xbb\xbf1|a|b|c|d|e|f", BYTE_1_1),
    (b"1|||||||\n\xef\xbb\xbf1|a|b|c|d|e|f", BYTE_2_1),
];

#[test]
fn a_cut_changes_nothing(rt: HostRuntime) -> Result<(), Fail> {
    for (text, expected) in TEXTS {
        check_parts(&rt, rt.alloc(), &[text], *expected)?;
    }
    Ok(())
}

const ONE: &[u8] = b"1|a|b|c|d|e|f";

const TWO: &[u8] = b"2|a|b|c|d|e|f|\n3|a|b|c|d|e|f|\n";

const BAD: &[u8] = b"x|a|b|c|d|e|f";

const MARKED: &[u8] = b"\xef\xbb\xbf1|a|b|c|d|e|f";

const PARTS: &[(&[&[u8]], Rows)] = &[
    (&[], Ok(0)),
    (&[b"", b"\n"], Ok(0)),
    (&[ONE, b"", TWO], Ok(3)),
    (&[TWO, ONE], Ok(3)),
    (&[TWO, b"", TWO], MANY),
    // A record ends with its part.
    (&[b"1|a|b|c|d|e|f\n2|a|b", b"|c|d|e|f\n"], COUNT_2),
    (&[b"1|a|b|c|d|e", b"f"], COUNT_1),
    // Records count on through the parts.
    (&[TWO, BAD], NUMBER_3),
    (&[ONE, b"", ONE, b"x"], COUNT_3),
    // The mark of a part comes after the errors of the parts before, and before its own.
    (&[ONE, MARKED], MARK),
    (&[BAD, MARKED], NUMBER_1),
    (&[TWO, ONE, MARKED], MARK),
    (&[TWO, TWO, MARKED], MANY),
    (&[ONE, b"\n\xef\xbb\xbf1|a|b|c|d|e|f"], BYTE_2_1),
    (&[MARKED, b"x"], MARK),
];

#[test]
fn a_part_ends_its_record(rt: HostRuntime) -> Result<(), Fail> {
    for (parts, expected) in PARTS {
        check_parts(&rt, rt.alloc(), parts, *expected)?;
    }
    Ok(())
}

// A line of some bytes, then many of one kind, and then others.
fn long_line(
    alloc: Global,
    front: &[u8],
    byte: u8,
    count: usize,
    back: &[u8],
) -> Result<Vec<u8>, AllocError> {
    let mut line = Vec::new(alloc);
    line.extend_from_slice(front)?;
    for _ in 0..count {
        line.push(byte)?;
    }
    line.extend_from_slice(back)?;
    Ok(line)
}

// The beginning of a line, a byte and how often it comes, and the end of the line.
const LONG: &[(&[u8], u8, usize, &[u8], Rows)] = &[
    (b"1|", b'a', 255, b"|||||\n2|||||||", Ok(2)),
    (b"1|", b'a', 256, b"|||||\n2|||||||", LONG_1_2),
    (b"1|", b'a', 100_000, b"|||||\n2|||||||", LONG_1_2),
    (b"x|", b'a', 100_000, b"|||||\n2|||||||", NUMBER_1),
    (b"1|", b'a', 100_000, b"||||\n2|||||||", COUNT_1),
    (b"1|", b'|', 100_000, b"\n2|||||||", COUNT_1),
    (b"1|||||||\n2|||||||", b'a', 100_000, b"", COUNT_2),
    (b"1|||||||\n2|||||||", b'|', 1, b"", COUNT_2),
    (b"1|||||||\n2||||||", b'a', 256, b"", LONG_2_7),
    (b"", b'\0', 100_000, b"", COUNT_1),
];

#[test]
fn long_lines_have_their_errors(rt: HostRuntime) -> Result<(), Fail> {
    let (alloc, limits) = (rt.alloc(), Limits::widest());
    for (front, byte, times, back, expected) in LONG {
        let line = long_line(alloc, front, *byte, *times, back)?;
        let parts = [line.as_slice()];
        for size in [7, 4_096] {
            let got = read_evenly(alloc, &parts, size, limits)?;
            check_same(&rt, got, *expected, &(front, times, size));
        }
    }
    Ok(())
}
