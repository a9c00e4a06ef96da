// One line of a table.

ghost use Rattle.std.specs.Prelude.{◌≡◌, ◌≢◌, ◌≤◌, ◌+◌, ◌++◌, ◌∷◌, ℕ, List, [], None, Some, IfOk, MatchBool, MatchResult, drop, filter, length, map};
ghost use Rattle.star_common.specs.Memory.{UnlessMemory};
ghost use Rattle.csv.specs.Records.{fields_of as fields_read};
ghost use Rattle.star_schema.specs.{Records.fields_of, Records.is_filled, Tables.Value, declared.table.TableId.TableId};
ghost use Rattle.star_reader.specs.{Columns.raw_kind, Faults.record_fault, Faults.records_fault, Private.Steps.AddsRecord, Private.Steps.HasAdded};

use crate::column::RawColumn;
use crate::fault::ReadFault;
use crate::front::front_len;
use crate::record::push_record;
use csv::ByteRecord;
use std::alloc::{AllocError, Global};

// The bytes of a line from a position on.
#[inline(always)]
fn from(line: &[u8], index: usize) -> &[u8]
    requires { index ≤ length line.now }
    ensures { result.now ≡ drop index line.now }
{
    &line[index..]
}

// Adds the values of a line to the columns of its table, if it is a record of them, and returns
// whether it is. If it is none the columns may differ in length.
// Fields are found here and not by `csv`: that takes two steps of its machine a field, and a number
// would be looked through for its end twice.
fn push_line(columns: &mut [RawColumn], line: &[u8]) -> Result<bool, AllocError>
    ensures pushed { (at_row : ℕ) → IfOk result (λ whole. MatchBool whole
        (AddsRecord at_row (fields_of line.now) columns.old columns.new)
        (record_fault (map raw_kind columns.old) at_row (fields_of line.now) ≢ None)) }
    ensures kinds { map raw_kind columns.new ≡ map raw_kind columns.old }
{
    let mut rest = line;
    for index in 0..columns.len() {
        let column = &mut columns[index];
        let count = match column.push_front(line, rest)? {
            Some(count) => count,
            None => return Ok(false),
        };
        if count >= rest.len() {
            return Ok(index + 1 == columns.len());
        }
        rest = from(rest, count + 1);
    }
    Ok(rest.is_empty())
}

// The fields of a line.
fn cut_fields(alloc: Global, line: &[u8]) -> Result<ByteRecord, AllocError>
    ensures { IfOk result (λ fields. fields_read fields ≡ fields_of line.now) }
{
    let mut fields = ByteRecord::new(alloc);
    let mut at = 0;
    while at <= line.len() {
        let end = at + front_len(from(line, at));
        fields.push_field(&line[at..end])?;
        at = end + 1;
    }
    Ok(fields)
}

// The first fault of a line that is no record. Apart from `push_line`, which returns only whether
// there is one, and stays short so. The columns are those of its table, and may differ in length.
#[cold]
fn line_fault(alloc: Global, columns: &mut [RawColumn], at_row: u32, line: &[u8]) -> ReadFault
    requires few { length columns.old ≤ 17 }
    requires faulty { record_fault (map raw_kind columns.old) at_row (fields_of line.now) ≢ None }
    ensures fault { UnlessMemory ReadFault.OutOfMemory result
        (record_fault (map raw_kind columns.old) at_row (fields_of line.now) ≡ Some result) }
    ensures kinds { map raw_kind columns.new ≡ map raw_kind columns.old }
{
    match cut_fields(alloc, line) {
        Ok(fields) => match push_record(columns, at_row, &fields) {
            Ok(()) => unreachable!(),
            Err(fault) => fault,
        },
        Err(_) => ReadFault::OutOfMemory,
    }
}

// Adds the values of a line to the columns of its table. After a fault the columns may differ in
// length.
fn add_line(
    alloc: Global,
    columns: &mut [RawColumn],
    at_row: u32,
    line: &[u8],
) -> Result<(), ReadFault>
    requires { length columns.old ≤ 17 }
    ensures { MatchResult result
        (λ _. AddsRecord at_row (fields_of line.now) columns.old columns.new)
        (λ fault. UnlessMemory ReadFault.OutOfMemory fault
        (record_fault (map raw_kind columns.old) at_row (fields_of line.now) ≡ Some fault)) }
{
    if push_line(columns, line)? {
        Ok(())
    } else {
        Err(line_fault(alloc, columns, at_row, line))
    }
}

/// Adds the row of a line to the columns of its table, which have `start` rows, if the line has a
/// byte. Returns how many rows there are then.
pub(crate) fn add_row(
    alloc: Global,
    columns: &mut [RawColumn],
    line: &[u8],
    start: u32,
    most: u32,
) -> Result<u32, ReadFault>
    requires { length columns.old ≤ 17 }
    ensures { (table : TableId) (from : ℕ) (before : List (List Value)) (all rest : List (List ℕ))
        → HasAdded table most from before all (filter is_filled (line.now ∷ []) ++ rest) start
        columns.old → MatchResult result
        (λ rows. HasAdded table most from before all rest rows columns.new)
        (λ fault. UnlessMemory ReadFault.OutOfMemory fault
        (records_fault table most (from + 1) all ≡ Some fault)) }
{
    if line.is_empty() {
        return Ok(start);
    }
    if start >= most {
        return Err(ReadFault::TooManyRows);
    }
    add_line(alloc, columns, start + 1, line)?;
    Ok(start + 1)
}
