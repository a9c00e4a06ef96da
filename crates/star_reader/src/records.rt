// The records of lines that have ended.

ghost use Rattle.std.specs.Prelude.{◌≡◌, ◌≤◌, ◌+◌, ◌++◌, ℕ, List, [], None, Some, MatchResult, filter, length, map};
ghost use Rattle.star_common.specs.Memory.{UnlessMemory};
ghost use Rattle.csv.specs.Records.{fields_of as fields_read};
ghost use Rattle.star_schema.specs.{Records.is_filled, Records.records_of, Tables.Value, declared.table.TableId.TableId};
ghost use Rattle.star_reader.specs.{Columns.AreColumnsOf, Columns.first_rows, Columns.values, Faults.records_fault, Private.Cut.IsBegun, Private.Lines.HasLeft, Private.Steps.HasAdded, Private.Steps.HasRows};

use crate::column::RawColumn;
use crate::fault::ReadFault;
use crate::line::add_row;
use crate::lines::{leave_out_header, read_next, records_reader};
use crate::record::field_at;
use csv::{ByteRecord, Reader};
use std::alloc::Global;

// Adds the rows of some lines, of which each may be empty, to the columns of a table with `start`
// rows. Returns how many rows there are then. After a fault the columns may differ in length.
fn add_lines(
    alloc: Global,
    lines: &ByteRecord,
    columns: &mut [RawColumn],
    start: u32,
    most: u32,
) -> Result<u32, ReadFault>
    requires { length columns.old ≤ 17 }
    ensures { (table : TableId) (from : ℕ) (before : List (List Value)) (all rest : List (List ℕ))
        → HasAdded table most from before all (filter is_filled (fields_read lines.now) ++ rest) start
        columns.old → MatchResult result
        (λ rows. HasAdded table most from before all rest rows columns.new)
        (λ fault. UnlessMemory ReadFault.OutOfMemory fault
        (records_fault table most (from + 1) all ≡ Some fault)) }
{
    let mut rows = start;
    for index in 0..lines.len() {
        match field_at(lines, index) {
            Some(line) => rows = add_row(alloc, columns, line, rows, most)?,
            None => unreachable!(),
        }
    }
    Ok(rows)
}

// Adds the rows of all remaining records, and returns how many rows there are then. After a
// fault the columns may differ in length.
fn read_records(
    alloc: Global,
    reader: &mut Reader<&[u8]>,
    lines: &mut ByteRecord,
    columns: &mut [RawColumn],
    start: u32,
    most: u32,
) -> Result<u32, ReadFault>
    requires { length columns.old ≤ 17 }
    ensures { (table : TableId) (before : List (List Value)) (all left : List (List ℕ))
        → HasLeft reader.old left → HasAdded table most start before all left start columns.old
        → MatchResult result (λ rows. HasAdded table most start before all [] rows columns.new)
        (λ fault. UnlessMemory ReadFault.OutOfMemory fault
        (records_fault table most (start + 1) all ≡ Some fault)) }
{
    let mut rows = start;
    for _ in 0..u64::MAX {
        if !read_next(reader, lines)? {
            return Ok(rows);
        }
        rows = add_lines(alloc, lines, columns, rows, most)?;
    }
    Err(ReadFault::OutOfMemory)
}

// The lines begin with a line end since `csv` takes a byte order mark off the front of what it
// reads, and one in mid-text has to stay.
/// Adds the rows of lines, which begin with a line end, to the columns of a table with `rows` rows,
/// and says how many there are then. After a fault the columns may differ in length. The reader is
/// let go here, at one position.
pub(crate) fn read_lines(
    alloc: Global,
    lines: &[u8],
    columns: &mut [RawColumn],
    start: u32,
    most: u32,
) -> Result<u32, ReadFault>
    requires { length columns.old ≤ 17 }
    ensures { (table : TableId) → IsBegun lines.now → AreColumnsOf table start columns.old
        → start ≤ most → MatchResult result
        (λ rows. (records_fault table most (start + 1) (records_of lines.now) ≡ None)
        × HasRows table start (first_rows start (map values columns.old)) (records_of lines.now) []
        rows columns.new)
        (λ fault. UnlessMemory ReadFault.OutOfMemory fault
        (records_fault table most (start + 1) (records_of lines.now) ≡ Some fault)) }
{
    let mut reader = records_reader(alloc, lines);
    leave_out_header(alloc, &mut reader)?;
    let mut some = ByteRecord::with_capacity(alloc, lines.len(), lines.len() / 64)?;
    read_records(alloc, &mut reader, &mut some, columns, start, most)
}
