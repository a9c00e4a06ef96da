// A reader of a table whose text comes in pieces.

ghost use Rattle.std.specs.Prelude.{◌≡◌, ◌<◌, ◌++◌, ◌∷◌, ℕ, List, [], IfErr, IfOk, Some, length, map, slice_get};
ghost use Rattle.star_common.specs.Memory.{UnlessMemory};
ghost use Rattle.star_schema.specs.{Tables.IsTable, Tables.rows_of, declared.table.TableId.TableId};
ghost use Rattle.star_reader.specs.{Columns.AreColumnsOf, Faults.text_fault};

use crate::column::RawColumn;
use crate::fault::ReadFault;
use crate::progress::Progress;
use crate::raw_table::RawTable;
use star_schema::{Limits, TableId, column_at, kind_of, width};
use std::alloc::{AllocError, Global};
use std::marker::Model;

// The columns of a table without rows.
fn empty_columns(alloc: Global, table: TableId) -> Result<Vec<RawColumn>, AllocError>
    ensures { IfOk result (λ columns. AreColumnsOf table 0 columns.items) }
{
    let mut empty = Vec::with_capacity(alloc, width(table))?;
    for index in 0..width(table) {
        let column = column_at(table, index);
        empty.push(RawColumn::new(alloc, kind_of(column)))?;
    }
    Ok(empty)
}

// The part at a position.
fn part_at<'a>(parts: &[&'a [u8]], index: usize) -> &'a [u8]
    requires { index < length parts.now }
    ensures { slice_get (map (λ part. part.now) parts.now) index ≡ Some result.now }
{
    parts[index]
}

/// Reads a table whose text comes in pieces, which may be cut anywhere: in mid-record, in
/// mid-number, between the two bytes of a line end, within a byte order mark. It takes the memory of
/// the columns, and a few kilobytes for the record that is open, however long that gets.
///
/// Its result is that of `read_parts` over the parts that came, in one piece
/// each. Once it has found a fault it lets the pieces that still come pass.
#[derive(Drop)]
pub struct TableReader {
    table: TableId,
    most: u32,
    columns: Vec<RawColumn>,
    progress: Progress,
    fault: Option<ReadFault>,
}

impl Model for TableReader {
    ghost use Rattle.star_reader.specs.{Partway.Reading, Private.Sound.{reading_of, IsSoundReader}};

    ghost Value = { Reading };

    ghost view = { reading_of };

    ghost invariant = { IsSoundReader };
}

impl TableReader {
    ghost use Rattle.star_reader.specs.Partway.{HasRead, parts_with};

    /// Begins to read a table of at most `limits.rows` rows.
    pub fn new(alloc: Global, table: TableId, limits: Limits) -> Result<TableReader, AllocError>
        ensures { IfOk result (λ reader. HasRead reader table limits.rows [] []) }
    {
        Ok(TableReader {
            table,
            most: limits.rows,
            columns: empty_columns(alloc, table)?,
            progress: Progress::new(alloc),
            fault: None,
        })
    }

    /// A reader of a table of at most `limits.rows` rows that has been given these parts, each in
    /// one piece.
    pub fn of_parts(
        alloc: Global,
        parts: &[&[u8]],
        table: TableId,
        limits: Limits,
    ) -> Result<TableReader, AllocError>
        ensures { IfOk result
            (λ reader. HasRead reader table limits.rows (map (λ part. part.now) parts.now) []) }
    {
        let mut reader = TableReader::new(alloc, table, limits)?;
        for index in 0..parts.len() {
            reader.feed(alloc, part_at(parts, index));
            reader.end_part(alloc);
        }
        Ok(reader)
    }

    // A fault is kept and reported by `finish`, so that a load reads all files before it reports an
    // error of the contents of one.
    /// Reads one more piece of the part that is open. If memory is refused `finish` will say so.
    pub fn feed(&mut self, alloc: Global, piece: &[u8])
        ensures { (table : TableId) (most : ℕ) (parts : List (List ℕ)) (text : List ℕ)
            → HasRead self.old table most parts text
            → HasRead self.new table most parts (text ++ piece.now) }
    {
        if self.fault.is_some() {
            return;
        }
        let columns = self.columns.as_mut_slice();
        match self.progress.read(alloc, columns, piece, self.most) {
            Ok(()) => {}
            Err(fault) => self.fault = Some(fault),
        }
    }

    /// Ends the part that is open, and the record that is open with it; the next part begins.
    pub fn end_part(&mut self, alloc: Global)
        ensures { (table : TableId) (most : ℕ) (parts : List (List ℕ)) (text : List ℕ)
            → HasRead self.old table most parts text
            → HasRead self.new table most (parts ++ text ∷ []) [] }
    {
        if self.fault.is_some() {
            return;
        }
        let columns = self.columns.as_mut_slice();
        match self.progress.end_part(alloc, columns, self.most) {
            Ok(()) => {}
            Err(fault) => self.fault = Some(fault),
        }
    }

    /// The table that the parts are which came, or their first fault, as `read_parts` answers them.
    /// The part that is open counts if it has a byte.
    pub fn finish(self, alloc: Global) -> Result<RawTable, ReadFault>
        ensures read { (table : TableId) (most : ℕ) (parts : List (List ℕ)) (text : List ℕ)
            → HasRead self table most parts text → IfOk result
            (λ raw. IsTable table most (parts_with parts text) × (raw.table ≡ table)
            × (raw.rows ≡ rows_of table (parts_with parts text))) }
        ensures refused { (table : TableId) (most : ℕ) (parts : List (List ℕ)) (text : List ℕ)
            → HasRead self table most parts text → IfErr result
            (λ fault. UnlessMemory ReadFault.OutOfMemory fault
            ((text_fault table most (parts_with parts text) ≡ Some fault)
            × ¬ IsTable table most (parts_with parts text))) }
    {
        let mut ended = self;
        ended.end_part(alloc);
        let TableReader {
            table,
            most: _,
            columns,
            progress,
            fault,
        } = ended;
        match fault {
            Some(fault) => Err(fault),
            None => Ok(RawTable::of(table, progress.rows(), columns)),
        }
    }
}
