// Destinations of output.

ghost use Rattle.std.specs.{Prelude.{◌≡◌, ◌<◌, ◌≤◌, ◌⊎◌, ℕ, List, [], Option, Bool, true, false, length, take, IfOk, OnErr, IsErr}, Io.KnownBytes.Appends};
ghost use Rattle.star_common.specs.Out.{has_failed, writer_of};

use std::io::Write;

/// A write failed.
#[derive(Clone, Copy, PartialEq, Eq)]
pub struct SinkFault;

/// A destination of bytes. After a failed write it stays failed.
pub trait Sink {
    // The bytes that it holds, if they are known.
    ghost contents: { Self → Option (List ℕ) };

    // Whether a write has failed.
    ghost is_failed: { Self → Bool };

    /// Takes some bytes from the front of a text and returns how many.
    ///
    /// A write that returns an error takes no byte and leaves the sink failed. A write that takes
    /// no byte of a nonempty text also leaves it failed. Every write of a nonempty text to a failed
    /// sink returns an error.
    fn write(&mut self, text: &[u8]) -> Result<usize, SinkFault>
        ensures within { IfOk result (λ count. count ≤ length text.now) }
        ensures takes { IfOk result
            (λ count. Appends (contents self.old) (contents self.new) (take count text.now)) }
        ensures goes_on { IfOk result
            (λ count. (0 < count) ⊎ (text.now ≡ []) → is_failed self.new ≡ is_failed self.old) }
        ensures stuck { IfOk result
            (λ count. count ≡ 0 → 0 < length text.now → is_failed self.new ≡ true) }
        ensures errs { OnErr result
            (Appends (contents self.old) (contents self.new) [] × (is_failed self.new ≡ true)) }
        ensures stays_failed { is_failed self.old ≡ true → 0 < length text.now → IsErr result };

    /// Returns whether a write has failed.
    fn failed(&self) -> bool
        ensures { result ≡ is_failed self.now };
}

/// A writer as a sink. A write that takes no byte of a nonempty text counts as a failure, and
/// nothing is written after a failure.
#[derive(Drop)]
pub struct Out<W> {
    writer: W,
    failed: bool,
}

impl<W: Write> Out<W> {
    /// Makes a sink over a writer. It has not failed.
    pub fn new(writer: W) -> Out<W>
        ensures writer { writer_of result ≡ writer }
        ensures not_failed { has_failed result ≡ false }
    {
        Out {
            writer,
            failed: false,
        }
    }
}

impl<W: Write> Sink for Out<W> {
    ghost contents = { λ out. W.contents (writer_of out) };

    ghost is_failed = { has_failed };

    fn write(&mut self, text: &[u8]) -> Result<usize, SinkFault> {
        if text.is_empty() {
            return Ok(0);
        }
        if self.failed {
            return Err(SinkFault);
        }
        match self.writer.write(text) {
            Ok(count) => {
                self.failed = count == 0;
                Ok(count)
            }
            Err(_) => {
                self.failed = true;
                Err(SinkFault)
            }
        }
    }

    fn failed(&self) -> bool {
        self.failed
    }
}
