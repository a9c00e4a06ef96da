// The line that a piece of a text leaves open.

ghost use Rattle.std.specs.Prelude.{◌≡◌, ◌⊎◌, ◌<◌, ◌≤◌, ◌++◌, ◌∷◌, ℕ, List, [], OnOk, false, length};
ghost use Rattle.star_schema.specs.{Records.is_bar, declared.column.Kind.Kind};
ghost use Rattle.star_reader.specs.{Carried.StandsFor, Private.Open.HasKeptByte};

use std::alloc::{AllocError, Global};

/// From this many bytes on a line is looked at before it is kept, and a field of this length is too
/// long.
const LONG: usize = 256;

/// The line that is open. No more of it is kept than its record or its first fault needs: of a
/// field that is too long its first bytes, and of a line with too many fields no more than shows
/// that. So a line of any length takes a few kilobytes.
#[derive(Drop)]
pub(crate) struct OpenLine {
    kept: Vec<u8>,
    // The most bars that may be in it, and the most bytes that may follow the last.
    bars: usize,
    run: usize,
}

impl OpenLine {
    /// A line without a byte.
    pub(crate) fn new(alloc: Global) -> OpenLine
        ensures { (kinds : List Kind) → StandsFor kinds result [] }
    {
        OpenLine {
            kept: Vec::new(alloc),
            bars: 0,
            run: 0,
        }
    }

    /// The bytes that are kept.
    pub(crate) fn bytes(&self) -> &[u8]
        ensures { result.now ≡ self.now.kept.items }
    {
        self.kept.as_slice()
    }

    /// Begins anew.
    pub(crate) fn clear(&mut self)
        ensures { (kinds : List Kind) → StandsFor kinds self.new [] }
    {
        self.kept.clear();
        self.bars = 0;
        self.run = 0;
    }

    // Whether the record or its first fault may hang on one more byte of the line, in a table with
    // `width` columns.
    fn matters(&self, byte: u8, width: usize) -> bool
        ensures { result ≡ false → (256 ≤ length self.now.kept.items)
            × ((width < self.now.bars) ⊎ ((is_bar byte ≡ false) × (256 ≤ self.now.run))) }
    {
        self.kept.len() < LONG || self.bars <= width && (byte == b'|' || self.run < LONG)
    }

    // Keeps one more byte.
    fn keep(&mut self, byte: u8) -> Result<(), AllocError>
        ensures { OnOk result (HasKeptByte byte self.old self.new) }
    {
        self.kept.push(byte)?;
        if byte == b'|' {
            self.bars = self.bars.saturating_add(1);
            self.run = 0;
        } else {
            self.run = self.run.saturating_add(1);
        }
        Ok(())
    }

    // Takes one more byte of the line.
    fn push(&mut self, byte: u8, width: usize) -> Result<(), AllocError>
        ensures { (kinds : List Kind) (bytes : List ℕ) → length kinds ≡ width
            → StandsFor kinds self.old bytes
            → OnOk result (StandsFor kinds self.new (bytes ++ byte ∷ [])) }
    {
        if self.matters(byte, width) {
            self.keep(byte)?;
        }
        Ok(())
    }

    /// Takes more bytes of the line, of a table with `width` columns.
    pub(crate) fn extend(&mut self, more: &[u8], width: usize) -> Result<(), AllocError>
        ensures { (kinds : List Kind) (bytes : List ℕ) → length kinds ≡ width
            → StandsFor kinds self.old bytes
            → OnOk result (StandsFor kinds self.new (bytes ++ more.now)) }
    {
        for byte in more {
            self.push(*byte, width)?;
        }
        Ok(())
    }
}
