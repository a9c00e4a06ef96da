// How far a table has been read whose text comes in pieces.

ghost use Rattle.std.specs.{Prelude.{◌≡◌, ◌<◌, ◌≤◌, ◌+◌, ◌++◌, ◌∷◌, ◌&&◌, ℕ, List, [], None, Some, OnOk, MatchResult, filter, length, map, nat_eq, true}, List.{list_all, starts_with}};
ghost use Rattle.star_common.specs.Memory.{UnlessMemory};
ghost use Rattle.star_schema.specs.{Records.is_filled, Schema.kinds_of, declared.table.TableId.TableId};
ghost use Rattle.star_reader.specs.{Columns.{AreColumnsOf, first_rows, values}, Faults.{byte_order_mark, records_fault}, Partway.{IsFaultOf, IsPartway, left_fault}, Carried.{is_inner, StandsFor}, Private.Cut.{EndsInLineEnd, IsBegun}, Private.Ended.HasEnded, Private.Steps.HasRows};

use crate::column::RawColumn;
use crate::cut::lines_of;
use crate::fault::ReadFault;
use crate::line::add_row;
use crate::open_line::OpenLine;
use crate::records::read_lines;
use std::alloc::{AllocError, Global};

const BYTE_ORDER_MARK: [u8; 3] = [0xEF, 0xBB, 0xBF];

/// How many rows the columns of a table have, the line that is open, and whether it is the first
/// one of its part.
#[derive(Drop)]
pub(crate) struct Progress {
    rows: u32,
    line: OpenLine,
    is_start: bool,
}

impl Progress {
    /// Of a table without rows, at the start of a part.
    pub(crate) fn new(alloc: Global) -> Progress
        ensures rows { result.rows ≡ 0 }
        ensures line { (table : TableId) → StandsFor (kinds_of table) result.line [] }
        ensures start { result.is_start ≡ true }
    {
        Progress {
            rows: 0,
            line: OpenLine::new(alloc),
            is_start: true,
        }
    }

    /// How many rows the columns have.
    pub(crate) fn rows(&self) -> u32
        ensures { result ≡ self.now.rows }
    {
        self.rows
    }

    // Whether the part begins with a byte order mark, as far as the line that is open shows.
    fn is_marked(&self) -> bool
        ensures { result
            ≡ (self.now.is_start && starts_with nat_eq self.now.line.kept.items byte_order_mark) }
    {
        self.is_start && self.line.bytes().starts_with(&BYTE_ORDER_MARK)
    }

    // Ends the line that is open: adds its row to the columns. After a fault the columns may differ
    // in length.
    fn end_line(
        &mut self,
        alloc: Global,
        columns: &mut [RawColumn],
        most: u32,
    ) -> Result<(), ReadFault>
        requires few { length columns.old ≤ 17 }
        ensures { (table : TableId) (bytes : List ℕ)
            → StandsFor (kinds_of table) self.old.line bytes → list_all is_inner bytes ≡ true
            → AreColumnsOf table self.old.rows columns.old → self.old.rows ≤ most
            → MatchResult result
            (λ _. HasEnded table most self.old bytes columns.old self.new columns.new)
            (λ fault. UnlessMemory ReadFault.OutOfMemory fault
            (left_fault self.old.is_start table most (self.old.rows + 1) bytes ≡ Some fault)) }
    {
        if self.is_marked() {
            return Err(ReadFault::ByteOrderMark);
        }
        let rows = add_row(alloc, columns, self.line.bytes(), self.rows, most)?;
        self.rows = rows;
        self.is_start = false;
        self.line.clear();
        Ok(())
    }

    // Carries bytes with no line end among them, of a table with `width` columns.
    fn carry(&mut self, bytes: &[u8], width: usize) -> Result<(), AllocError>
        requires { list_all is_inner bytes.now ≡ true }
        ensures { (table : TableId) (most : ℕ) (parts : List (List ℕ)) (text : List ℕ)
            (columns : List RawColumn) → length columns ≡ width
            → IsPartway table most parts text self.old columns
            → OnOk result (IsPartway table most parts (text ++ bytes.now) self.new columns) }
    {
        self.line.extend(bytes, width)?;
        Ok(())
    }

    // Reads what begins and ends with a line end: the end of the open line, and lines after it.
    fn read_ends(
        &mut self,
        alloc: Global,
        columns: &mut [RawColumn],
        lines: &[u8],
        most: u32,
    ) -> Result<(), ReadFault>
        requires few { length columns.old ≤ 17 }
        ensures { (table : TableId) (parts : List (List ℕ)) (text : List ℕ)
            → IsPartway table most parts text self.old columns.old
            → IsBegun lines.now → EndsInLineEnd lines.now → MatchResult result
            (λ _. IsPartway table most parts (text ++ lines.now) self.new columns.new)
            (λ fault. UnlessMemory ReadFault.OutOfMemory fault
            (IsFaultOf table most parts (text ++ lines.now) fault)) }
    {
        self.end_line(alloc, columns, most)?;
        let rows = read_lines(alloc, lines, columns, self.rows, most)?;
        self.rows = rows;
        Ok(())
    }

    /// Reads one more piece of a part of a table that may have at most `most` rows. After a fault
    /// the columns may differ in length.
    pub(crate) fn read(
        &mut self,
        alloc: Global,
        columns: &mut [RawColumn],
        piece: &[u8],
        most: u32,
    ) -> Result<(), ReadFault>
        requires few { length columns.old ≤ 17 }
        ensures { (table : TableId) (parts : List (List ℕ)) (text : List ℕ)
            → IsPartway table most parts text self.old columns.old → MatchResult result
            (λ _. IsPartway table most parts (text ++ piece.now) self.new columns.new)
            (λ fault. UnlessMemory ReadFault.OutOfMemory fault
            (IsFaultOf table most parts (text ++ piece.now) fault)) }
    {
        let width = columns.len();
        let Some(cut) = lines_of(piece) else {
            return Ok(self.carry(piece, width)?);
        };
        self.carry(cut.head(piece), width)?;
        self.read_ends(alloc, columns, cut.lines(piece), most)?;
        self.carry(cut.tail(piece), width)?;
        Ok(())
    }

    /// Ends the part. After a fault the columns may differ in length.
    pub(crate) fn end_part(
        &mut self,
        alloc: Global,
        columns: &mut [RawColumn],
        most: u32,
    ) -> Result<(), ReadFault>
        requires few { length columns.old ≤ 17 }
        ensures { (table : TableId) (parts : List (List ℕ)) (text : List ℕ)
            → IsPartway table most parts text self.old columns.old → MatchResult result
            (λ _. IsPartway table most (parts ++ text ∷ []) [] self.new columns.new)
            (λ fault. UnlessMemory ReadFault.OutOfMemory fault
            (IsFaultOf table most (parts ++ text ∷ []) [] fault)) }
    {
        self.end_line(alloc, columns, most)?;
        self.is_start = true;
        Ok(())
    }
}
