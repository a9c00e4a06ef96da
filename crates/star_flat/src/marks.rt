// Marks of texts, by which a list of different texts is known without a sort.

ghost use Rattle.std.specs.Prelude.{◌≡◌, ◌<◌, ◌^◌, IfOk, IsTrue, length};

use crate::pages::release;
use crate::texts::FlatTexts;
use std::alloc::{AllocError, Global};

/// The mark of a text: its hash after Fowler, Noll and Vo, of 32 bits (FNV-1a). Others may have it
/// too.
fn mark_of(text: &[u8]) -> u32 {
    let mut mark: u32 = 2_166_136_261;
    for byte in text {
        mark = (mark ^ u32::from(*byte)).wrapping_mul(16_777_619);
    }
    mark
}

/// How many remainders the marks of these texts have by how many texts there are. At least as many
/// of them are different.
fn count_remainders(alloc: Global, texts: &FlatTexts, count: u32) -> Result<u32, AllocError>
    requires { count ≡ length texts.now }
{
    let mut met = vec![in alloc; false; texts.len()]?;
    let mut different = 0;
    for index in 0..texts.len() {
        let remainder = (mark_of(texts.get(index)) % count) as usize;
        if !met[remainder] {
            met[remainder] = true;
            different += 1;
        }
    }
    release(met);
    Ok(different)
}

/// Whether many of these texts, fewer than 2^32, may be equal. Otherwise at least two fifths of them
/// are different. (If half of the texts are different, their marks leave two fifths of the
/// remainders.)
pub(crate) fn may_repeat(alloc: Global, texts: &FlatTexts) -> Result<bool, AllocError>
    ensures { IfOk result (λ repeat. IsTrue repeat → length texts.now < 2 ^ 32) }
{
    match u32::try_from(texts.len()) {
        Ok(count) => Ok(count_remainders(alloc, texts, count)? / 2 < count / 5),
        Err(_) => Ok(false),
    }
}
