// Counted reads of a file, a pipe or a device.

ghost use Rattle.std.specs.{Prelude.{◌≡◌, ◌≤◌, ◌+◌, ◌-◌, ◌^◌, true, IfOk, IfErr, OnErr, OnOk, min}, Io.ReadsAtMost, Io.KnownBytes.ReadConsumes};
ghost use Rattle.star_engine.specs.Reading.{IsFresh, came_of, has_failed, reader_of, reads_of};

use crate::reading::FileFault;
use std::io::Read;

/// A reader with the number of its reads, the number of bytes that they returned, and whether one
/// failed. Only `read` changes these.
#[derive(Drop)]
pub struct Input<R> {
    reader: R,
    reads: u64,
    came: u64,
    failed: bool,
}

impl<R: Read> Input<R> {
    /// Starts reading from a reader.
    pub fn new(reader: R) -> Input<R>
        ensures reader { reader_of result ≡ reader }
        ensures fresh { IsFresh result }
    {
        Input {
            reader,
            reads: 0,
            came: 0,
            failed: false,
        }
    }

    // Reads once. A failed read is not retried.
    // No clause can say that it fails only if this call of the reader fails: of an error the
    // library's `Read` says only that no known byte was taken.
    pub(crate) fn read(&mut self, room: &mut [u8]) -> Result<usize, FileFault>
        ensures bound { ReadsAtMost result room.new }
        ensures bytes { ReadConsumes (R.remaining (reader_of self.old))
            (R.remaining (reader_of self.new)) result room.new }
        ensures reads { reads_of self.new ≤ reads_of self.old + 1 }
        ensures came { IfOk result
            (λ count. came_of self.new ≡ min (came_of self.old + count) (2 ^ 64 - 1)) }
        ensures unfailed { OnOk result (has_failed self.new ≡ has_failed self.old) }
        ensures failed { OnErr result (has_failed self.new ≡ true) }
        ensures fault { IfErr result (λ fault. fault ≡ FileFault.Failed) }
    {
        self.reads = self.reads.saturating_add(1);
        match self.reader.read(room) {
            Ok(count) => {
                self.came = self.came.saturating_add(count as u64);
                Ok(count)
            }
            Err(_) => {
                self.failed = true;
                Err(FileFault::Failed)
            }
        }
    }
}
