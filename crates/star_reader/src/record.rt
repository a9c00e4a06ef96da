// One record of a table.

ghost use Rattle.std.specs.{Prelude.{◌≡◌, ◌≤◌, None, Some, length, map, slice_get, MatchResult}, Option.option_copied};
ghost use Rattle.star_common.specs.Memory.{UnlessMemory};
ghost use Rattle.csv.specs.Records.{fields_of as fields_read};
ghost use Rattle.star_reader.specs.{Columns.raw_kind, Columns.values, Faults.record_fault, Private.Extended.extended_columns};
ghost use Rattle.star_schema.specs.Tables as spec;

use crate::column::RawColumn;
use crate::fault::ReadFault;
use csv::ByteRecord;

/// The field at a position, from 0, if there is one.
pub(crate) fn field_at(line: &ByteRecord, index: usize) -> Option<&[u8]>
    ensures { option_copied result ≡ slice_get (fields_read line.now) index }
{
    line.get(index)
}

// Whether a record has an empty field after the last column's.
fn ends_in_bar(line: &ByteRecord, width: usize) -> bool
    requires { width ≤ 17 }
    ensures { result ≡ spec.ends_in_bar width (fields_read line.now) }
{
    line.len() == width + 1 && matches!(field_at(line, width), Some([]))
}

fn cell_count(line: &ByteRecord, width: usize) -> usize
    requires { width ≤ 17 }
    ensures { result ≡ length (spec.cells_of width (fields_read line.now)) }
{
    if ends_in_bar(line, width) {
        width
    } else {
        line.len()
    }
}

/// Adds the values of a record to the columns of its table. After a fault the columns may differ in
/// length.
pub(crate) fn push_record(
    columns: &mut [RawColumn],
    at_row: u32,
    line: &ByteRecord,
) -> Result<(), ReadFault>
    requires { length columns.old ≤ 17 }
    ensures pushed { let kinds = map raw_kind columns.old in MatchResult result
        (λ _. (record_fault kinds at_row (fields_read line.now) ≡ None)
        × (map values columns.new
        ≡ extended_columns (map values columns.old)
        (spec.values_of kinds (spec.cells_of (length kinds) (fields_read line.now))))
        × (length (spec.values_of kinds (spec.cells_of (length kinds) (fields_read line.now)))
        ≡ length columns.old))
        (λ fault. UnlessMemory ReadFault.OutOfMemory fault
        (record_fault kinds at_row (fields_read line.now) ≡ Some fault)) }
    ensures kinds { map raw_kind columns.new ≡ map raw_kind columns.old }
{
    if cell_count(line, columns.len()) != columns.len() {
        return Err(ReadFault::FieldCount { at_row });
    }
    for index in 0..columns.len() {
        match field_at(line, index) {
            Some(field) => {
                let column = &mut columns[index];
                column.push_cell(at_row, index + 1, field)?;
            }
            None => unreachable!(),
        }
    }
    Ok(())
}
