// The bytes of a reader, one at a time.

ghost use Rattle.std.specs.{Prelude.{◌≡◌, [], ◌∷◌, true, false, Ok, None, IfErr, IfOk, IfSome, OnErr, OnOk}, Io.KnownBytes.{Consumes, IsAtEnd}};
ghost use Rattle.star_common.specs.Memory.{TellsMemory};
ghost use Rattle.star_statements.specs.{Sources.has_failed, Sources.reader_of, declared.sources.ReadFault.TheVariants.OutOfMemory};

use std::alloc::AllocError;
use std::io::Read;

/// Why no statement was read.
#[derive(Clone, Copy, Debug, PartialEq, Eq)]
pub enum ReadFault {
    /// Out of memory.
    OutOfMemory,
    /// A read failed, or there were more bytes than can be counted.
    Failed,
}

impl From<AllocError> for ReadFault {
    ghost from_gives = { TellsMemory OutOfMemory };

    fn from(_error: AllocError) -> ReadFault {
        ReadFault::OutOfMemory
    }
}

/// A reader, and whether a read has failed.
#[derive(Drop)]
pub struct Source<R> {
    reader: R,
    failed: bool,
}

impl<R: Read> Source<R> {
    /// Starts reading from a reader.
    pub fn new(reader: R) -> Source<R>
        ensures reader { reader_of result ≡ reader }
        ensures unfailed { has_failed result ≡ false }
    {
        Source {
            reader,
            failed: false,
        }
    }

    // Returns the next byte, or None at the end. A failed read is not retried.
    pub(crate) fn next_byte(&mut self) -> Result<Option<u8>, ReadFault>
        ensures byte { IfOk result (λ next. IfSome next (λ byte.
            Consumes (R.remaining (reader_of self.old)) (R.remaining (reader_of self.new))
            (byte ∷ []))) }
        ensures end { result ≡ Ok None → Consumes (R.remaining (reader_of self.old))
            (R.remaining (reader_of self.new)) [] × IsAtEnd (R.remaining (reader_of self.new)) }
        ensures unfailed { OnOk result (has_failed self.new ≡ has_failed self.old) }
        ensures failed { OnErr result (has_failed self.new ≡ true) }
        ensures fault { IfErr result (λ fault. fault ≡ ReadFault.Failed) }
    {
        let mut room = [0u8];
        match self.reader.read(&mut room) {
            Ok(0) => Ok(None),
            Ok(_) => Ok(Some(room[0])),
            Err(_) => {
                self.failed = true;
                Err(ReadFault::Failed)
            }
        }
    }
}
