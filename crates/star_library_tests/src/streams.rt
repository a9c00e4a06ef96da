// Writers and readers that fail, or never end.

ghost use Rattle.std.specs.Prelude.{Some};

use std::alloc::{AllocError, Global};
use std::io;
use std::io::{Read, Write};

/// A writer that takes at most `at_once` bytes at once and `left` in all, and then fails.
#[derive(Drop)]
pub struct Short {
    pub taken: Vec<u8>,
    pub left: usize,
    pub at_once: usize,
}

impl Short {
    /// Makes a writer with room for `left` bytes before it takes memory.
    pub fn with_room(alloc: Global, left: usize, at_once: usize) -> Result<Short, AllocError> {
        Ok(Short {
            taken: Vec::with_capacity(alloc, left.min(1 << 20))?,
            left,
            at_once,
        })
    }
}

impl Write for Short {
    fn write(&mut self, text: &[u8]) -> io::Result<usize> {
        let count = text.len().min(self.left).min(self.at_once);
        if count == 0 {
            return Err(io::Error::from(io::ErrorKind::StorageFull));
        }
        self.taken.extend_from_slice(&text[..count])?;
        self.left -= count;
        Ok(count)
    }

    fn flush(&mut self) -> io::Result<()> {
        Ok(())
    }
}

/// A reader of zeros: `good` reads give at most `at_once` bytes each, and then it fails or is at
/// its end. It counts its reads.
#[derive(Drop)]
pub struct Zeros {
    pub good: u64,
    pub at_once: usize,
    pub fails: bool,
    pub reads: u64,
}

impl Read for Zeros {
    fn read(&mut self, room: &mut [u8]) -> io::Result<usize> {
        self.reads = self.reads.saturating_add(1);
        if self.reads <= self.good {
            let count = room.len().min(self.at_once);
            room[..count].fill(0);
            Ok(count)
        } else if self.fails {
            Err(io::Error::from(io::ErrorKind::Interrupted))
        } else {
            Ok(0)
        }
    }
}

/// A reader of a text that gives at most `at_once` bytes at once, at least one, and fails where `until_failure`
/// bytes. A text that ends before is read to its end.
#[derive(Drop)]
pub struct Choppy<'a> {
    pub left: &'a [u8],
    pub at_once: usize,
    pub until_failure: usize,
}

impl<'a> Read for Choppy<'a> {
    ghost remaining = { λ choppy. Some choppy.left.now };

    fn read(&mut self, room: &mut [u8]) -> io::Result<usize> {
        if self.until_failure == 0 {
            return Err(io::Error::from(io::ErrorKind::Interrupted));
        }
        let most = self.at_once.max(1).min(self.until_failure);
        let count = room.len().min(self.left.len()).min(most);
        room[..count].copy_from_slice(&self.left[..count]);
        self.left = &self.left[count..];
        self.until_failure = self.until_failure.saturating_sub(count);
        Ok(count)
    }
}
