// Columns: the dictionary of the brands of three parts, numbers at the ends of each width, masks of
// the numbers 0 to 129, and join indexes of each width.

use crate::checks::check_same;
use star_column::{ColumnData, JoinIndex, NumberColumn, PackedColumn, TextColumn};
use std::alloc::{AllocError, Global};
use std::process::Abort;
use std::test::Fail;

// The value of a row, if there is one.
fn value_at<C: ColumnData>(column: &C, row: u32) -> Option<i64> {
    if row < column.len() {
        Some(column.at(row))
    } else {
        None
    }
}

// The rows of a column have these values, and it has these bounds.
fn check_column<C: ColumnData>(rt: &impl Abort, column: &C, values: &[i64], low: i64, high: i64) {
    check_same(rt, column.len() as usize, values.len(), &"the rows");
    let mut row = 0u32;
    for value in values {
        check_same(rt, value_at(column, row), Some(*value), &row);
        row = row.saturating_add(1);
    }
    let bounds = column.bounds();
    check_same(rt, (bounds.low, bounds.high), (low, high), &"the bounds");
}

// The text of a code, if there is such a code.
fn text_of(column: &TextColumn, code: u32) -> Option<&[u8]> {
    if code < column.entries() {
        Some(column.text_of(code))
    } else {
        None
    }
}

fn brands(alloc: Global) -> Result<TextColumn, AllocError> {
    let brands = [
        Vec::from_slice(alloc, b"MFGR#121")?,
        Vec::from_slice(alloc, b"MFGR#2221")?,
        Vec::from_slice(alloc, b"MFGR#1440")?,
    ];
    TextColumn::build(alloc, &brands)
}

// A text, how many brands are less, and how many less or equal.
const EDGES: [(&[u8], u32, u32); 5] = [
    (b"MFGR#2221", 2, 3),
    (b"MFGR#2", 2, 2),
    (b"A", 0, 0),
    (b"Z", 3, 3),
    (b"", 0, 0),
];

#[test]
fn brands_have_their_dictionary(rt: HostRuntime) -> Result<(), Fail> {
    let column = brands(rt.alloc())?;
    check_column(&rt, &column, &[0, 2, 1], 0, 2);
    for (code, text) in [
        (0, Some(b"MFGR#121".as_slice())),
        (1, Some(b"MFGR#1440")),
        (2, Some(b"MFGR#2221")),
        (3, None),
    ] {
        check_same(&rt, text_of(&column, code), text, &code);
    }
    for (text, low, high) in EDGES {
        let edges = (column.low(text), column.high(text));
        check_same(&rt, edges, (low, high), &text);
    }
    Ok(())
}

// The column of these few numbers.
fn packed(rt: &impl Abort, alloc: Global, numbers: &[i64]) -> Result<PackedColumn, AllocError> {
    assert!(rt; numbers.len() < 1_000);
    let column = NumberColumn::build(numbers.to_vec(alloc)?)?;
    PackedColumn::build(alloc, &column)
}

// Numbers, their bounds, and how many bits the words have that they are packed in.
const WIDTHS: [(&[i64], i64, i64, u32); 12] = [
    (&[], 0, 0, 8),
    (&[5], 5, 5, 8),
    (&[0, 255], 0, 255, 8),
    (&[256, 0], 0, 256, 16),
    (&[-1, 254], -1, 254, 8),
    (&[0, 65_535], 0, 65_535, 16),
    (&[0, 65_536], 0, 65_536, 32),
    (&[4_294_967_295, 0], 0, 4_294_967_295, 32),
    (&[0, 4_294_967_296], 0, 4_294_967_296, 64),
    (&[i64::MAX, 0, i64::MIN], i64::MIN, i64::MAX, 64),
    (&[70_255, 70_000], 70_000, 70_255, 8),
    (&[-7, -9, -7], -9, -7, 8),
];

#[test]
fn numbers_are_packed_in_the_least_width(rt: HostRuntime) -> Result<(), Fail> {
    for (numbers, low, high, bits) in WIDTHS {
        let column = packed(&rt, rt.alloc(), numbers)?;
        check_same(&rt, column.bits(), bits, &numbers);
        check_column(&rt, &column, numbers, low, high);
    }
    Ok(())
}

// Values in another order, and some again.
fn gathered(column: &PackedColumn) -> [i64; 5] {
    let mut values = [7; 5];
    if column.len() == 2 {
        column.view().gather(&[1, 0, 0, 1, 1], &mut values);
    }
    values
}

#[test]
fn values_of_rows_are_gathered(rt: HostRuntime) -> Result<(), Fail> {
    for [first, second] in [[0, 255], [65_534, -1], [5, 65_541], [i64::MIN, i64::MAX]] {
        let column = packed(&rt, rt.alloc(), &[first, second])?;
        let expected = [second, first, first, second, second];
        check_same(&rt, gathered(&column), expected, &first);
    }
    Ok(())
}

// The column of the numbers 0 to 129.
fn counted(rt: &impl Abort, alloc: Global) -> Result<PackedColumn, AllocError> {
    let mut numbers = Vec::new(alloc);
    for number in 0..130 {
        numbers.push(number)?;
    }
    packed(rt, alloc, numbers.as_slice())
}

// The mask of a column from a row on, if the column reaches so far.
fn mask_of(column: &PackedColumn, first: u32, low: i64, high: i64) -> Option<u64> {
    if first <= column.len() {
        Some(column.mask(first, low, high))
    } else {
        None
    }
}

// The first row, the bounds, and which of 64 rows lie in them, the first row in the least bit.
const MASKS: [(u32, i64, i64, Option<u64>); 9] = [
    (0, 60, 70, Some(17_293_822_569_102_704_640)),
    (64, 60, 70, Some(127)),
    (128, 0, 1_000, Some(3)),
    (130, 0, 1_000, Some(0)),
    (0, 70, 60, Some(0)),
    (0, i64::MIN, i64::MAX, Some(u64::MAX)),
    (0, -5, -1, Some(0)),
    (0, 130, 255, Some(0)),
    (131, 0, 1_000, None),
];

#[test]
fn masks_of_the_numbers_to_129(rt: HostRuntime) -> Result<(), Fail> {
    let column = counted(&rt, rt.alloc())?;
    for (first, low, high, mask) in MASKS {
        let got = mask_of(&column, first, low, high);
        check_same(&rt, got, mask, &(first, low, high));
    }
    Ok(())
}

// Three masks of a column from a row on, narrowed, if the column reaches so far.
fn narrowed(column: &PackedColumn, first: u32, low: i64, high: i64, masks: [u64; 3]) -> [u64; 3] {
    let mut bitmap = masks;
    if u64::from(first) + 128 <= u64::from(column.len()) {
        column.view().narrow(first, low, high, &mut bitmap);
    }
    bitmap
}

const ALL: [u64; 3] = [u64::MAX; 3];

// The first row, the bounds, three masks, and the same narrowed.
const NARROWED: [(u32, i64, i64, [u64; 3], [u64; 3]); 5] = [
    (0, 60, 70, ALL, [17_293_822_569_102_704_640, 127, 0]),
    (0, 60, 70, [0, 5, u64::MAX], [0, 5, 0]),
    (0, 0, 1_000, ALL, [u64::MAX, u64::MAX, 3]),
    (2, 64, 129, ALL, [13_835_058_055_282_163_712, u64::MAX, 0]),
    (0, 70, 60, ALL, [0, 0, 0]),
];

#[test]
fn masks_are_narrowed(rt: HostRuntime) -> Result<(), Fail> {
    let column = counted(&rt, rt.alloc())?;
    for (first, low, high, masks, expected) in NARROWED {
        let got = narrowed(&column, first, low, high, masks);
        check_same(&rt, got, expected, &(first, low, high, masks));
    }
    Ok(())
}

// The rows that three rows refer to: by themselves, in another order, and which lie from 1 to 2, the
// first in the least bit.
fn check_index(rt: &impl Abort, index: &JoinIndex, rows: [u32; 3], mask: u64) {
    check_same(rt, index.len(), 3, &rows);
    let (mut gathered, mut bitmap) = ([7; 4], [u64::MAX]);
    if index.len() == 3 {
        check_same(rt, [index.row(0), index.row(1), index.row(2)], rows, &rows);
        index.gather(&[2, 0, 0, 1], &mut gathered);
        index.narrow_range(0, 1, 2, &mut bitmap);
    }
    let expected = [rows[2], rows[0], rows[0], rows[1]];
    check_same(rt, (gathered, bitmap[0]), (expected, mask), &rows);
}

#[test]
fn join_indexes_have_their_rows(rt: HostRuntime) -> Result<(), Fail> {
    let alloc = rt.alloc();
    let index = JoinIndex::from(vec![in alloc; 0u8, 2, 255]?);
    check_index(&rt, &index, [0, 2, 255], 0b010);
    let index = JoinIndex::from(vec![in alloc; 1u16, 65_535, 0]?);
    check_index(&rt, &index, [1, 65_535, 0], 0b001);
    let index = JoinIndex::from(vec![in alloc; u32::MAX, 2, 1]?);
    check_index(&rt, &index, [u32::MAX, 2, 1], 0b110);
    Ok(())
}
