// Reading statements, one after another.

ghost use Rattle.std.specs.Prelude.{◌≡◌, ◌≤◌, ◌⊎◌, ℕ, List, true, Err, IfOk, OnOk, vec_len};
ghost use Rattle.star_statements.specs.{Sources.IsPastCounting, Sources.IsStatementRead, Sources.has_failed, Sources.reader_of, Private.Drafts.with_byte};
ghost use Rattle.star_statements.specs.Private.Drafts as spec;

use crate::blanks::is_blank;
use crate::questions::MOST_BYTES;
use crate::sources::{ReadFault, Source};
use std::alloc::AllocError;
use std::io::Read;

// Appends a byte to the retained text of a statement: leading blanks are dropped, and at most one
// byte above the maximum length is retained.
fn keep(text: &mut Vec<u8>, byte: u8) -> Result<(), AllocError>
    ensures { OnOk result (text.new.items ≡ with_byte text.old.items byte) }
{
    let is_before = text.is_empty() && is_blank(byte);
    if !is_before && text.len() <= MOST_BYTES {
        text.push(byte)?;
    }
    Ok(())
}

// Tests whether a line ends with a semicolon, blanks ignored, after one more byte.
fn ends_behind(ends: bool, byte: u8) -> bool
    ensures { result ≡ spec.ends_behind ends byte }
{
    byte == b';' || ends && is_blank(byte)
}

// Tests whether a byte ends a statement, given whether the line so far ends with a semicolon.
fn closes(ends: bool, byte: u8) -> bool
    ensures { result ≡ spec.closes_statement ends byte }
{
    ends && byte == b'\n'
}

/// Reads the next statement, up to the end of a line that ends with a semicolon. Returns whether
/// there is such a line; if not, the statement is the last one. `text` gets the statement without
/// its leading blanks, or its first 65,537 bytes if it is longer.
pub fn read_statement<R: Read>(
    source: &mut Source<R>,
    text: &mut Vec<u8>,
) -> Result<bool, ReadFault>
    ensures read { IfOk result (λ is_ended. (statement : List ℕ)
        × IsStatementRead (R.remaining (reader_of source.old)) (R.remaining (reader_of source.new))
        text.new.items is_ended statement) }
    ensures within { OnOk result (vec_len text.new ≤ 65537) }

    // `Failed` is returned if a read failed, and otherwise only in the cases stated here.
    ensures unfailed { OnOk result (has_failed source.new ≡ has_failed source.old) }
    ensures failed { result ≡ Err ReadFault.Failed → (has_failed source.new ≡ true)
        ⊎ ((read : List ℕ) × IsPastCounting (R.remaining (reader_of source.old))
        (R.remaining (reader_of source.new)) read) }
    ensures memory { result ≡ Err ReadFault.OutOfMemory
        → has_failed source.new ≡ has_failed source.old }
{
    text.clear();
    let mut ends = false;
    'bytes: for _ in 0..u64::MAX {
        let Some(byte) = source.next_byte()? else {
            return Ok(false);
        };
        keep(text, byte)?;
        if closes(ends, byte) {
            return Ok(true);
        }
        ends = ends_behind(ends, byte);
    }
    Err(ReadFault::Failed)
}
