// Reading a table file in pieces, within a bound on its bytes.

ghost use Rattle.std.specs.{Prelude.{◌≡◌, ◌≤◌, ◌<◌, ◌+◌, ◌-◌, ◌^◌, ◌⊎◌, ℕ, List, true, Err, IfOk, OnOk, length, min}, Io.KnownBytes.{Consumes, IsAtEnd}};
ghost use Rattle.star_engine.specs.Reading.{ReadingGoesOn, GoesOnByPart, came_of, has_failed, reader_of, reads_of};

use crate::input::Input;
use crate::reading::{FileFault, room_of};
use star_reader::TableReader;
use std::alloc::Global;
use std::io::Read;

// The buffer of a piece is cleared for each file, and there may be a thousand small ones; it stays
// in the processor's cache. It is smaller than the 128 KiB from which on the C library maps a block
// separately: after such a block is freed, growing column buffers would be placed among small
// blocks too, with holes between them.
/// The maximum size of a read, and of a piece of a table, in bytes.
const MOST_OF_A_PIECE: usize = 122_880;

// Passes the bytes of one more read to a reader of a table, and returns their number; at most as
// many as remain of a limit.
fn feed_more<R: Read>(
    alloc: Global,
    input: &mut Input<R>,
    reader: &mut TableReader,
    room: &mut [u8],
    left: u64,
) -> Result<usize, FileFault>
    requires { 0 < length room.old }
    ensures room { length room.new ≡ length room.old }
    ensures fed { IfOk result (λ count. (more : List ℕ) × (length more ≡ count)
        × Consumes (R.remaining (reader_of input.old)) (R.remaining (reader_of input.new)) more
        × ReadingGoesOn reader.old reader.new more) }
    ensures within { IfOk result (λ count. count ≤ left) }
    ensures end { IfOk result (λ count. count ≡ 0 → IsAtEnd (R.remaining (reader_of input.new))) }
    ensures reads { reads_of input.new ≤ reads_of input.old + 1 }
    ensures came { IfOk result
        (λ count. came_of input.new ≡ min (came_of input.old + count) (2 ^ 64 - 1)) }
    ensures unfailed { OnOk result (has_failed input.new ≡ has_failed input.old) }
    ensures failed { (taken : ℕ) → taken + left < 2 ^ 64 - 1 → taken ≤ came_of input.old
        → result ≡ Err FileFault.Failed
        → (has_failed input.new ≡ true) ⊎ (taken + left < came_of input.new) }
    ensures memory { result ≡ Err FileFault.Memory → has_failed input.new ≡ has_failed input.old }
{
    let count = input.read(room)?;
    if left < count as u64 {
        return Err(FileFault::Failed);
    }
    reader.feed(alloc, &room[..count]);
    Ok(count)
}

// Passes all bytes of a file to a reader of a table, through one buffer.
fn feed_all<R: Read>(
    alloc: Global,
    input: &mut Input<R>,
    reader: &mut TableReader,
    room: &mut [u8],
    limit: u64,
) -> Result<(), FileFault>
    requires room { 0 < length room.old }
    requires limit { limit < 2 ^ 64 - 1 }
    ensures bytes { OnOk result ((came : List ℕ) × (length came ≤ limit)
        × Consumes (R.remaining (reader_of input.old)) (R.remaining (reader_of input.new)) came
        × ReadingGoesOn reader.old reader.new came) }
    ensures end { OnOk result (IsAtEnd (R.remaining (reader_of input.new))) }
    ensures unfailed { OnOk result (has_failed input.new ≡ has_failed input.old) }
    ensures failed { result ≡ Err FileFault.Failed
        → (has_failed input.new ≡ true) ⊎ (limit < came_of input.new) }
    ensures memory { result ≡ Err FileFault.Memory → has_failed input.new ≡ has_failed input.old }
    ensures reads { reads_of input.new ≤ reads_of input.old + (limit + 1) }
{
    let mut taken = 0u64;
    for _ in 0..u64::MAX {
        let count = feed_more(alloc, input, reader, room, limit - taken)?;
        if count == 0 {
            return Ok(());
        }
        taken += count as u64;
    }
    Err(FileFault::Failed)
}

/// Passes all bytes of a file to a reader of a table, as one more part, up to the first read that
/// returns none. More than `limit` bytes are an error. They come in pieces of at most 120 KiB, as
/// they are read; only one piece is in memory at a time. No read is retried: there are at most
/// `limit + 1`.
pub fn read_part<R: Read>(
    alloc: Global,
    input: &mut Input<R>,
    reader: &mut TableReader,
    limit: u64,
) -> Result<(), FileFault>
    requires { limit < 2 ^ 64 - 1 }

    // The bytes of the part are the bytes that were read, in order: all the remaining bytes of the
    // file, if these are known.
    ensures bytes { OnOk result ((came : List ℕ) × (length came ≤ limit)
        × Consumes (R.remaining (reader_of input.old)) (R.remaining (reader_of input.new)) came
        × GoesOnByPart reader.old reader.new came) }
    ensures end { OnOk result (IsAtEnd (R.remaining (reader_of input.new))) }

    // `Failed` is returned if a read failed, and otherwise only in the cases stated here.
    ensures unfailed { OnOk result (has_failed input.new ≡ has_failed input.old) }
    ensures failed { result ≡ Err FileFault.Failed
        → (has_failed input.new ≡ true) ⊎ (limit < came_of input.new) }
    ensures memory { result ≡ Err FileFault.Memory → has_failed input.new ≡ has_failed input.old }
    ensures reads { reads_of input.new ≤ reads_of input.old + (limit + 1) }
{
    let mut room = room_of(alloc, MOST_OF_A_PIECE)?;
    feed_all(alloc, input, reader, room.as_mut_slice(), limit)?;
    reader.end_part(alloc);
    Ok(())
}
