// Reading a whole file, pipe or device within a bound on its bytes.

ghost use Rattle.std.specs.{Prelude.{◌≡◌, ◌≤◌, ◌<◌, ◌+◌, ◌++◌, ◌⊎◌, ℕ, List, [], true, Err, IfOk, IfSome, OnOk, length, vec_len}, Io.KnownBytes.{Consumes, IsAtEnd}};
ghost use Rattle.star_common.specs.Memory.{TellsMemory};
ghost use Rattle.star_engine.specs.{declared.reading.FileFault.TheVariants.Memory, Reading.came_of, Reading.has_failed, Reading.reader_of, Reading.reads_of};

use crate::input::Input;
use std::alloc::{AllocError, Global};
use std::io::Read;

/// The maximum size of a read in bytes.
const MOST_OF_A_READ: usize = 131_072;

/// The maximum capacity in bytes that is reserved before the first read.
const MOST_RESERVED: u64 = 1_073_741_824;

/// Why a file was not read.
#[derive(Clone, Copy, Debug, PartialEq, Eq)]
pub enum FileFault {
    /// Out of memory.
    Memory,
    /// A read failed, or there were more bytes than allowed.
    Failed,
}

impl From<AllocError> for FileFault {
    ghost from_gives = { TellsMemory Memory };

    fn from(_error: AllocError) -> FileFault {
        FileFault::Memory
    }
}

// Appends the bytes of one more read, and returns their number.
fn read_more<R: Read>(
    input: &mut Input<R>,
    bytes: &mut Vec<u8>,
    room: &mut [u8],
    limit: u64,
) -> Result<usize, FileFault>
    requires room { 0 < length room.old }
    requires within { vec_len bytes.old ≤ limit }
    ensures room { length room.new ≡ length room.old }
    ensures grown { IfOk result (λ count. (more : List ℕ) × (length more ≡ count)
        × (bytes.new.items ≡ bytes.old.items ++ more)
        × Consumes (R.remaining (reader_of input.old)) (R.remaining (reader_of input.new)) more) }
    ensures within { OnOk result (vec_len bytes.new ≤ limit) }
    ensures end { IfOk result (λ count. count ≡ 0 → IsAtEnd (R.remaining (reader_of input.new))) }
    ensures reads { reads_of input.new ≤ reads_of input.old + 1 }
    ensures came { OnOk result (vec_len bytes.old ≤ came_of input.old
        → vec_len bytes.new ≤ came_of input.new) }
    ensures unfailed { OnOk result (has_failed input.new ≡ has_failed input.old) }
    ensures failed { result ≡ Err FileFault.Failed → vec_len bytes.old ≤ came_of input.old
        → (has_failed input.new ≡ true) ⊎ (limit < came_of input.new) }
    ensures memory { result ≡ Err FileFault.Memory → has_failed input.new ≡ has_failed input.old }
{
    let count = input.read(room)?;
    if limit - (bytes.len() as u64) < count as u64 {
        return Err(FileFault::Failed);
    }
    bytes.extend_from_slice(&room[..count])?;
    Ok(count)
}

/// Returns a buffer with room for `count` bytes.
pub(crate) fn room_of(alloc: Global, count: usize) -> Result<Vec<u8>, AllocError>
    ensures { IfOk result (λ room. vec_len room ≡ count) }
{
    vec![in alloc; 0u8; count]
}

// Returns an empty buffer, with room for the expected bytes within bounds.
fn reserve(alloc: Global, limit: u64, expected: u64) -> Result<Vec<u8>, AllocError>
    ensures { IfOk result (λ bytes. bytes.items ≡ []) }
{
    let reserved = expected.min(limit).min(MOST_RESERVED);
    Vec::with_capacity(alloc, reserved as usize)
}

// Returns all bytes of a reader, read through one buffer.
fn read_all<R: Read>(
    input: &mut Input<R>,
    bytes: &mut Vec<u8>,
    room: &mut [u8],
    limit: u64,
) -> Result<(), FileFault>
    requires room { 0 < length room.old }
    requires empty { bytes.old.items ≡ [] }
    ensures bytes { OnOk result (Consumes (R.remaining (reader_of input.old))
        (R.remaining (reader_of input.new)) bytes.new.items) }
    ensures end { OnOk result (IsAtEnd (R.remaining (reader_of input.new))) }
    ensures within { OnOk result (vec_len bytes.new ≤ limit) }
    ensures unfailed { OnOk result (has_failed input.new ≡ has_failed input.old) }
    ensures failed { result ≡ Err FileFault.Failed
        → (has_failed input.new ≡ true) ⊎ (limit < came_of input.new) }
    ensures memory { result ≡ Err FileFault.Memory → has_failed input.new ≡ has_failed input.old }
    ensures reads { reads_of input.new ≤ reads_of input.old + (limit + 1) }
{
    for _ in 0..u64::MAX {
        if read_more(input, bytes, room, limit)? == 0 {
            return Ok(());
        }
    }
    Err(FileFault::Failed)
}

/// Returns all bytes of a reader, up to the first read that returns none. More than `limit` bytes
/// are an error. Room for `expected` bytes, a hint, is reserved within bounds before the first
/// read. No read is retried: there are at most `limit + 1`.
pub fn read_expected<R: Read>(
    alloc: Global,
    input: &mut Input<R>,
    limit: u64,
    expected: u64,
) -> Result<Vec<u8>, FileFault>
    ensures bytes { IfOk result (λ bytes.
        IfSome (R.remaining (reader_of input.old)) (λ all. bytes.items ≡ all)) }
    ensures end { OnOk result (IsAtEnd (R.remaining (reader_of input.new))) }
    ensures within { IfOk result (λ bytes. vec_len bytes ≤ limit) }

    // `Failed` is returned if a read failed, and otherwise only in the cases stated here.
    ensures unfailed { OnOk result (has_failed input.new ≡ has_failed input.old) }
    ensures failed { result ≡ Err FileFault.Failed
        → (has_failed input.new ≡ true) ⊎ (limit < came_of input.new) }
    ensures memory { result ≡ Err FileFault.Memory → has_failed input.new ≡ has_failed input.old }
    ensures reads { reads_of input.new ≤ reads_of input.old + (limit + 1) }
{
    let mut bytes = reserve(alloc, limit, expected)?;
    let mut room = room_of(alloc, MOST_OF_A_READ)?;
    read_all(input, &mut bytes, room.as_mut_slice(), limit)?;
    Ok(bytes)
}

/// Returns all bytes of a reader, as `read_expected` without expected bytes.
pub fn read_whole<R: Read>(
    alloc: Global,
    input: &mut Input<R>,
    limit: u64,
) -> Result<Vec<u8>, FileFault>
    ensures bytes { IfOk result (λ bytes.
        IfSome (R.remaining (reader_of input.old)) (λ all. bytes.items ≡ all)) }
    ensures end { OnOk result (IsAtEnd (R.remaining (reader_of input.new))) }
    ensures within { IfOk result (λ bytes. vec_len bytes ≤ limit) }
    ensures unfailed { OnOk result (has_failed input.new ≡ has_failed input.old) }
    ensures failed { result ≡ Err FileFault.Failed
        → (has_failed input.new ≡ true) ⊎ (limit < came_of input.new) }
    ensures memory { result ≡ Err FileFault.Memory → has_failed input.new ≡ has_failed input.old }
    ensures reads { reads_of input.new ≤ reads_of input.old + (limit + 1) }
{
    read_expected(alloc, input, limit, 0)
}
