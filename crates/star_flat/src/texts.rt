// A list of texts, one after another in one buffer.

ghost use Rattle.std.specs.Prelude.{◌≡◌, ◌<◌, ◌+◌, ◌++◌, ◌∷◌, ◌↔◌, [], IsTrue, Some, length, slice_get, OnOk, OnErr};
ghost use Rattle.star_flat.specs.Private.Cut.{texts_from, text_start, IsCut};

use crate::ends::Ends;
use crate::pages::release;
use std::alloc::{AllocError, Global};
use std::marker::Model;

/// A list of texts, which a contract sees as the list of their bytes. No text has an allocation of
/// its own.
#[derive(Drop)]
pub struct FlatTexts {
    bytes: Vec<u8>,
    ends: Ends,
}

impl Model for FlatTexts {
    ghost use Rattle.std.specs.Prelude.{List, ℕ, length};
    ghost use Rattle.star_flat.specs.Private.Cut.{texts_from, IsCut};

    ghost Value = { List (List ℕ) };

    ghost view = { λ texts. texts_from 0 texts.bytes.items texts.ends };

    ghost invariant = { λ texts. IsCut 0 texts.ends (length texts.bytes.items) };
}

impl FlatTexts {
    /// No texts. Takes no memory.
    pub fn new(alloc: Global) -> FlatTexts
        ensures { result ≡ [] }
    {
        FlatTexts {
            bytes: Vec::new(alloc),
            ends: Ends::new(alloc),
        }
    }

    /// How many texts there are.
    pub fn len(&self) -> usize
        ensures { result ≡ length self.now }
    {
        self.ends.len()
    }

    /// Whether there is no text.
    pub fn is_empty(&self) -> bool
        ensures { IsTrue result ↔ (self.now ≡ []) }
    {
        self.len() == 0
    }

    /// The text at a position, from 0.
    #[inline(always)]
    pub fn get(&self, index: usize) -> &[u8]
        requires { index < length self.now }
        ensures { slice_get self.now index ≡ Some result.now }
    {
        text_at(self.bytes.as_slice(), &self.ends, index)
    }

    /// Lets the texts go, as `release` does.
    pub(crate) fn release(self) {
        release(self.bytes);
        self.ends.release();
    }

    /// Puts a text at the end, or changes nothing if memory is refused.
    pub fn push(&mut self, text: &[u8]) -> Result<(), AllocError>
        ensures ok { OnOk result (self.new ≡ self.old ++ text.now ∷ []) }
        ensures err { OnErr result (self.new ≡ self.old) }
    {
        let start = self.bytes.len();
        self.bytes.extend_from_slice(text)?;
        match self.ends.push(start, self.bytes.len()) {
            Ok(()) => Ok(()),
            Err(error) => {
                self.bytes.truncate(start);
                Err(error)
            }
        }
    }
}

// The start and the end of the text at a position.
#[inline(always)]
fn range_at(ends: &Ends, index: usize) -> (usize, usize)
    requires { index < length ends.now }
    ensures start { result.0 ≡ text_start 0 ends.now index }
    ensures end { slice_get ends.now index ≡ Some result.1 }
{
    if index == 0 {
        (0, ends.get(0))
    } else {
        ends.bounds_at(index)
    }
}

#[inline(always)]
fn text_at<'t>(bytes: &'t [u8], ends: &Ends, index: usize) -> &'t [u8]
    requires cut { IsCut 0 ends.now (length bytes.now) }
    requires within { index < length ends.now }
    ensures { slice_get (texts_from 0 bytes.now ends.now) index ≡ Some result.now }
{
    let (start, end) = range_at(ends, index);
    &bytes[start..end]
}
