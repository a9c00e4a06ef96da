// Tables, columns and catalogues that are built of texts, each read back.

use crate::asked::{check_call, text_of};
use star_catalogue::{Catalogue, LoadFault, Texts, sample};
use star_column::{ColumnData, NumberColumn, PackedColumn, TextColumn};
use star_engine::{FileFault, Input, read_expected, read_part, read_whole};
use star_flat::{FlatNumbers, RepeatedTexts};
use star_reader::{RawTable, ReadFault, TableReader, read_parts, read_table};
use star_schema::{
    ColumnId, Kind, Limits, TABLES, TableId, columns, kind_of, position_of, table_of,
};
use std::alloc::{AllocError, Global};
use std::fmt::Write;
use std::test::Fail;

// Tables whose cells can be printed.
trait Cells {
    // How many rows a table has.
    fn rows_of(&self, table: TableId) -> u32;

    // Adds the cell of a row to a text, and a bar.
    fn push_cell(&self, text: &mut String, column: ColumnId, row: u32) -> Result<(), AllocError>;
}

fn push_bytes(text: &mut String, bytes: &[u8]) -> Result<(), AllocError> {
    text.push_str(str::from_utf8(bytes).unwrap_or("not a text"))?;
    text.push('|')
}

impl Cells for RawTable {
    fn rows_of(&self, table: TableId) -> u32 {
        if table == self.table() {
            self.rows()
        } else {
            0
        }
    }

    fn push_cell(&self, text: &mut String, column: ColumnId, row: u32) -> Result<(), AllocError> {
        if self.table() != table_of(column) || self.rows() <= row {
            return Ok(());
        }
        let index = position_of(column);
        match kind_of(column) {
            Kind::Number => write!(text, "{}|", self.number(row, index)),
            Kind::Text => push_bytes(text, self.text(row, index)),
        }
    }
}

impl Cells for Catalogue {
    fn rows_of(&self, table: TableId) -> u32 {
        self.rows(table)
    }

    fn push_cell(&self, text: &mut String, column: ColumnId, row: u32) -> Result<(), AllocError> {
        if self.rows(table_of(column)) <= row {
            return Ok(());
        }
        match kind_of(column) {
            Kind::Number => write!(text, "{}|", self.number(column, row)),
            Kind::Text => push_bytes(text, self.text(column, self.code(column, row))),
        }
    }
}

// Adds the line of a row, as a file has it.
fn push_row<C: Cells>(
    text: &mut String,
    cells: &C,
    table: TableId,
    row: u32,
) -> Result<(), AllocError> {
    for column in columns(table) {
        cells.push_cell(text, *column, row)?;
    }
    text.push('\n')
}

// Adds the lines of a table.
fn push_table<C: Cells>(text: &mut String, cells: &C, table: TableId) -> Result<(), AllocError> {
    for row in 0..cells.rows_of(table) {
        push_row(text, cells, table, row)?;
    }
    Ok(())
}

// The lines of lineorder that were read, or the fault.
fn lines_of(alloc: Global, answer: Result<RawTable, ReadFault>) -> Result<String, AllocError> {
    match answer {
        Ok(raw) => {
            let mut text = String::new(alloc);
            push_table(&mut text, &raw, TableId::Lineorder)?;
            Ok(text)
        }
        Err(ReadFault::OutOfMemory) => Err(AllocError),
        Err(fault) => format!(in alloc; "{fault:?}"),
    }
}

// The lines of orders of the sample.
fn orders() -> &'static [u8] {
    match sample().lineorder {
        [orders] => orders,
        _ => b"",
    }
}

#[test]
fn table_of_a_text(rt: HostRuntime) -> Result<(), Fail> {
    let (alloc, limits) = (rt.alloc(), Limits::widest());
    let expected = str::from_utf8(orders())?;
    for (text, expected) in [
        (orders(), expected),
        (b"x|".as_slice(), "FieldCount { at_row: 1 }"),
    ] {
        check_call(
            &rt,
            expected,
            || lines_of(alloc, read_table(alloc, text, TableId::Lineorder, limits)),
        )?;
    }
    Ok(())
}

#[test]
fn table_of_parts(rt: HostRuntime) -> Result<(), Fail> {
    let (alloc, limits) = (rt.alloc(), Limits::widest());
    // The first line has 68 bytes, with its end.
    let (first, others) = orders().split_at_checked(68).ok_or("a line of orders")?;
    let expected = str::from_utf8(orders())?;
    for (parts, expected) in [
        ([first, others], expected),
        ([orders(), b"x|"], "FieldCount { at_row: 6 }"),
    ] {
        check_call(
            &rt,
            expected,
            || lines_of(alloc, read_parts(alloc, &parts, TableId::Lineorder, limits)),
        )?;
    }
    Ok(())
}

// The lines of lineorder that a reader gives in one part.
fn lines_read(alloc: Global, text: &[u8]) -> Result<String, AllocError> {
    let mut reader = TableReader::new(alloc, TableId::Lineorder, Limits::widest())?;
    match read_part(alloc, &mut Input::new(text), &mut reader, 1_000) {
        Ok(()) => lines_of(alloc, reader.finish(alloc)),
        Err(FileFault::Memory) => Err(AllocError),
        Err(FileFault::Failed) => String::from_str(alloc, "failed"),
    }
}

#[test]
fn table_of_a_reader(rt: HostRuntime) -> Result<(), Fail> {
    let expected = str::from_utf8(orders())?;
    check_call(&rt, expected, || lines_read(rt.alloc(), orders()))
}

// The bytes of a reader, or that it has more than it may.
fn bytes_of(alloc: Global, answer: Result<Vec<u8>, FileFault>) -> Result<String, AllocError> {
    match answer {
        Ok(bytes) => text_of(alloc, bytes.as_slice()),
        Err(FileFault::Memory) => Err(AllocError),
        Err(FileFault::Failed) => String::from_str(alloc, "failed"),
    }
}

#[test]
fn reader_read_whole(rt: HostRuntime) -> Result<(), Fail> {
    let alloc = rt.alloc();
    let text = str::from_utf8(orders())?;
    for (limit, expected) in [(1_000, text), (10, "failed")] {
        check_call(
            &rt,
            expected,
            || bytes_of(alloc, read_whole(alloc, &mut Input::new(orders()), limit)),
        )?;
        check_call(
            &rt,
            expected,
            || bytes_of(
                alloc,
                read_expected(alloc, &mut Input::new(orders()), limit, 100),
            ),
        )?;
    }
    Ok(())
}

// The bounds of a column, and the values of its rows.
fn values_of<C: ColumnData>(alloc: Global, column: &C) -> Result<String, AllocError> {
    let mut text = format!(in alloc; "{}:", column.bounds())?;
    for row in 0..column.len() {
        write!(text, " {}", column.at(row))?;
    }
    Ok(text)
}

const NUMBERS: [i64; 6] = [70_255, -9, 4_294_967_296, 0, -9, 12];

// A column that is packed of a column of these numbers.
fn packed(alloc: Global) -> Result<String, AllocError> {
    let numbers = NumberColumn::build(Vec::from_slice(alloc, &NUMBERS)?)?;
    values_of(alloc, &PackedColumn::build(alloc, &numbers)?)
}

// A column that is packed of a list of these numbers, whose words widen twice.
fn packed_at_once(alloc: Global) -> Result<String, AllocError> {
    let mut numbers = FlatNumbers::new(alloc);
    for number in NUMBERS {
        numbers.push(number)?;
    }
    if numbers.len() != 6 {
        return String::from_str(alloc, "another length");
    }
    values_of(alloc, &PackedColumn::from_flat(alloc, numbers)?)
}

#[test]
fn columns_of_numbers(rt: HostRuntime) -> Result<(), Fail> {
    let expected = "-9..4294967296: 70255 -9 4294967296 0 -9 12";
    check_call(&rt, expected, || packed(rt.alloc()))?;
    check_call(&rt, expected, || packed_at_once(rt.alloc()))
}

const BRANDS: [&[u8]; 5] = [b"MFGR#121", b"MFGR#2221", b"", b"MFGR#1440", b"MFGR#121"];

// The codes of a column of texts, and the texts of the codes.
fn texts_of(alloc: Global, column: &TextColumn) -> Result<String, AllocError> {
    let mut text = values_of(alloc, column)?;
    for code in 0..column.entries() {
        push_bytes(&mut text, column.text_of(code))?;
    }
    Ok(text)
}

fn brands(alloc: Global) -> Result<String, AllocError> {
    let mut texts = Vec::new(alloc);
    for text in BRANDS {
        texts.push(Vec::from_slice(alloc, text)?)?;
    }
    if texts.len() != 5 {
        return String::from_str(alloc, "another length");
    }
    texts_of(alloc, &TextColumn::build(alloc, texts.as_slice())?)
}

fn brands_at_once(alloc: Global) -> Result<String, AllocError> {
    let mut texts = RepeatedTexts::new(alloc);
    for text in BRANDS {
        texts.push(text)?;
    }
    if texts.len() != 5 {
        return String::from_str(alloc, "another length");
    }
    texts_of(alloc, &TextColumn::from_flat(alloc, texts)?)
}

#[test]
fn columns_of_texts(rt: HostRuntime) -> Result<(), Fail> {
    let expected = "0..3: 1 3 0 2 1|MFGR#121|MFGR#1440|MFGR#2221|";
    check_call(&rt, expected, || brands(rt.alloc()))?;
    check_call(&rt, expected, || brands_at_once(rt.alloc()))
}

// The lines of all tables of a catalogue.
fn lines_of_all(alloc: Global, catalogue: &Catalogue) -> Result<String, AllocError> {
    let mut text = String::new(alloc);
    for table in TABLES.iter() {
        push_table(&mut text, catalogue, *table)?;
    }
    Ok(text)
}

// The lines of the sample's tables with these parts of lineorder, or the fault of a load.
fn load(alloc: Global, lineorder: &[&[u8]]) -> Result<String, AllocError> {
    let texts = Texts {
        lineorder,
        ..sample()
    };
    match Catalogue::load(alloc, &texts, Limits::widest()) {
        Ok(catalogue) => lines_of_all(alloc, &catalogue),
        Err(LoadFault::OutOfMemory) => Err(AllocError),
        Err(fault) => format!(in alloc; "{fault}"),
    }
}

#[test]
fn catalogue_load(rt: HostRuntime) -> Result<(), Fail> {
    let alloc = rt.alloc();
    let texts = sample();
    let mut expected = String::new(alloc);
    for text in [
        texts.date,
        texts.customer,
        texts.supplier,
        texts.part,
        orders(),
    ] {
        expected.push_str(str::from_utf8(text)?)?;
    }
    check_call(&rt, expected.as_str(), || load(alloc, sample().lineorder))
}

// Lines after those of the sample, and the fault: one with no customer, and one whose keys are those
// of the sample's last.
const FAULTY: &[(&[u8], &str)] = &[
    (b"x|", "4 FieldCount table lineorder record 6"),
    (
        b"3|2|1|1|1|19930210|5-LOW|0|1|700|700|0|700|100|0|19971215|AIR|",
        "8 DuplicateKey table lineorder record 6",
    ),
    (
        b"9|1|9|1|1|19930210|5-LOW|0|1|700|700|0|700|100|0|19971215|AIR|",
        "9 AbsentKey table lineorder record 6 column lo_custkey",
    ),
];

#[test]
fn catalogue_load_with_a_fault(rt: HostRuntime) -> Result<(), Fail> {
    for (line, expected) in FAULTY {
        let lineorder = [orders(), *line];
        check_call(&rt, expected, || load(rt.alloc(), &lineorder))?;
    }
    Ok(())
}
