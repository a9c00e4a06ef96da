// The look-ups of the loaded sample, keys that are far apart, and limits on rows.

use crate::checks::{check_same, loaded};
use star_catalogue::{Catalogue, LoadFault, Texts, sample};
use star_schema::{
    ColumnId, Kind, Limits, Sizes, TABLES, TableId, columns, kind_of, references, table_of,
};
use std::alloc::{AllocError, Global};
use std::process::Abort;
use std::test::Fail;

// The columns of the sample whose words have 16 bits. All others have 8.
const OF_16_BITS: [ColumnId; 9] = [
    ColumnId::DDatekey,
    ColumnId::DYearmonthnum,
    ColumnId::DDaynuminyear,
    ColumnId::LoOrderdate,
    ColumnId::LoExtendedprice,
    ColumnId::LoOrdtotalprice,
    ColumnId::LoRevenue,
    ColumnId::LoSupplycost,
    ColumnId::LoCommitdate,
];

// Columns, and how many different texts each has.
const ENTRIES: [(ColumnId, u32); 7] = [
    (ColumnId::DDayofweek, 2),
    (ColumnId::DSellingseason, 2),
    (ColumnId::PMfgr, 2),
    (ColumnId::LoOrderpriority, 3),
    (ColumnId::LoShippriority, 1),
    (ColumnId::LoShipmode, 5),
    (ColumnId::CCity, 3),
];

// How many different texts a column has, if it is one of texts.
fn entries(catalogue: &Catalogue, column: ColumnId) -> Option<u32> {
    match kind_of(column) {
        Kind::Number => None,
        Kind::Text => Some(catalogue.entries(column)),
    }
}

// How many of the texts of a column are less than this one, and how many less or equal.
fn edges(catalogue: &Catalogue, column: ColumnId, text: &[u8]) -> Option<(u32, u32)> {
    match kind_of(column) {
        Kind::Number => None,
        Kind::Text => Some((catalogue.low(column, text), catalogue.high(column, text))),
    }
}

const EDGES: [(ColumnId, &[u8], u32, u32); 6] = [
    (ColumnId::PBrand1, b"MFGR#2221", 2, 3),
    (ColumnId::PBrand1, b"MFGR#2", 2, 2),
    (ColumnId::PBrand1, b"A", 0, 0),
    (ColumnId::PBrand1, b"Z", 3, 3),
    (ColumnId::PBrand1, b"", 0, 0),
    (ColumnId::LoShipmode, b"RAIL", 2, 3),
];

fn check_widths(rt: &impl Abort, catalogue: &Catalogue) {
    for table in TABLES.iter() {
        for column in columns(*table) {
            let bits = if OF_16_BITS.contains(column) { 16 } else { 8 };
            check_same(rt, catalogue.bits(*column), bits, column);
        }
    }
}

fn check_texts(rt: &impl Abort, catalogue: &Catalogue) {
    for (column, count) in ENTRIES {
        check_same(rt, entries(catalogue, column), Some(count), &column);
    }
    for (column, text, low, high) in EDGES {
        check_same(rt, edges(catalogue, column, text), Some((low, high)), &text);
    }
}

// Keys, and the rows that have them.
const KEYS: [(TableId, i64, Option<u32>); 9] = [
    (TableId::Date, 19930210, Some(0)),
    (TableId::Date, 19971215, Some(2)),
    (TableId::Date, 19930211, None),
    (TableId::Customer, 2, Some(1)),
    (TableId::Customer, 4, None),
    (TableId::Supplier, 2, Some(1)),
    (TableId::Part, 3, Some(2)),
    (TableId::Part, 0, None),
    (TableId::Lineorder, 1, None),
];

// The rows that the five lines of orders refer to.
const REFERRED: [(ColumnId, [u32; 5]); 5] = [
    (ColumnId::LoCustkey, [0, 0, 1, 2, 0]),
    (ColumnId::LoPartkey, [0, 1, 0, 2, 1]),
    (ColumnId::LoSuppkey, [1, 0, 1, 1, 0]),
    (ColumnId::LoOrderdate, [0, 0, 1, 2, 2]),
    (ColumnId::LoCommitdate, [1, 1, 1, 2, 2]),
];

// The row that a row of a column refers to, if there is one: by itself, and among the rows of the
// column.
fn referred(catalogue: &Catalogue, column: ColumnId, row: u32) -> Option<(u32, u32)> {
    if catalogue.rows(table_of(column)) <= row {
        return None;
    }
    let _table = references(column)?;
    let rows = catalogue.referred_rows(column);
    if (row as usize) < rows.len() {
        Some((catalogue.referred(column, row), rows.row(row)))
    } else {
        None
    }
}

fn check_keys(rt: &impl Abort, catalogue: &Catalogue) {
    for (table, key, row) in KEYS {
        check_same(rt, catalogue.find(table, key), row, &(table, key));
    }
    for (column, rows) in REFERRED {
        let got = [0, 1, 2, 3, 4].map(|line| referred(catalogue, column, line));
        check_same(rt, got, rows.map(|row| Some((row, row))), &column);
    }
}

// Which of the lines from the first on have a value between two bounds, the first line in the least
// bit. The codes of the modes of shipping are those of AIR, MAIL, RAIL, SHIP and TRUCK.
const MASKS: [(ColumnId, u32, i64, i64, u64); 7] = [
    (ColumnId::LoQuantity, 0, 10, 30, 0b00111),
    (ColumnId::LoQuantity, 2, 10, 50, 0b011),
    (ColumnId::LoQuantity, 5, 0, 50, 0),
    (ColumnId::LoRevenue, 0, 980, 1940, 0b00011),
    (ColumnId::LoCommitdate, 0, i64::MIN, 19940105, 0b00111),
    (ColumnId::LoShipmode, 0, 2, 3, 0b00110),
    (ColumnId::LoShipmode, 1, 0, 4, 0b1111),
];

fn mask_of(catalogue: &Catalogue, column: ColumnId, first: u32, low: i64, high: i64) -> u64 {
    if first <= catalogue.rows(table_of(column)) {
        catalogue.mask(column, first, low, high)
    } else {
        u64::MAX
    }
}

fn check_masks(rt: &impl Abort, catalogue: &Catalogue) {
    for (column, first, low, high, mask) in MASKS {
        let got = mask_of(catalogue, column, first, low, high);
        check_same(rt, got, mask, &(column, first));
    }
}

#[test]
fn look_ups_of_the_sample(rt: HostRuntime) -> Result<(), Fail> {
    let catalogue = loaded(rt.alloc(), &sample())?;
    catalogue.law();
    let sizes = Sizes {
        date: 3,
        customer: 3,
        supplier: 2,
        part: 3,
        lineorder: 5,
    };
    check_same(&rt, catalogue.sizes(), sizes, &"the sample");
    check_widths(&rt, &catalogue);
    check_texts(&rt, &catalogue);
    check_keys(&rt, &catalogue);
    check_masks(&rt, &catalogue);
    Ok(())
}

// Keys so far apart that a row for each number between them would be too many.
const FAR_APART: &str = concat!(
    "999999999999|a|b|c|d|e|f|g\n",
    "-999999999999|a|b|c|d|e|f|g\n",
    "5|a|b|c|d|e|f|g\n",
);

const FAR_KEYS: [(i64, Option<u32>); 5] = [
    (999_999_999_999, Some(0)),
    (-999_999_999_999, Some(1)),
    (5, Some(2)),
    (0, None),
    (i64::MAX, None),
];

#[test]
fn keys_far_apart_are_found(rt: HostRuntime) -> Result<(), Fail> {
    let texts = Texts {
        customer: FAR_APART.as_bytes(),
        lineorder: &[],
        ..sample()
    };
    let catalogue = loaded(rt.alloc(), &texts)?;
    for (key, row) in FAR_KEYS {
        check_same(&rt, catalogue.find(TableId::Customer, key), row, &key);
    }
    Ok(())
}

// How many rows lineorder has, or why the sample isn't loaded, if a table may have so many rows.
fn rows_within(alloc: Global, rows: u32) -> Result<Result<u32, LoadFault>, Fail> {
    let limits = Limits::new(rows, 0).ok_or("limits")?;
    match Catalogue::load(alloc, &sample(), limits) {
        Ok(catalogue) => Ok(Ok(Box::new(alloc, catalogue)?.rows(TableId::Lineorder))),
        Err(LoadFault::OutOfMemory) => Err(Fail::from(AllocError)),
        Err(fault) => Ok(Err(fault)),
    }
}

#[test]
fn a_full_table_is_loaded_and_one_row_more_is_not(rt: HostRuntime) -> Result<(), Fail> {
    let table = TableId::Lineorder;
    for (rows, expected) in [(5, Ok(5)), (4, Err(LoadFault::TooManyRows { table }))] {
        check_same(&rt, rows_within(rt.alloc(), rows)?, expected, &rows);
    }
    Ok(())
}
