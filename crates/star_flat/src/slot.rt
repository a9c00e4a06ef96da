// Slots, which remember recent texts.

ghost use Rattle.std.specs.Prelude.{◌<◌};

/// How many slots there are for texts that were met lately.
pub const SLOTS: usize = 256;

// The clause bounds only the answer: a text in a slot is compared before it is believed, and the
// spread of texts decides only how soon an equal one is found.
/// The slot of a text, by its length, its first and its last byte. Other texts have it too.
#[inline(always)]
pub fn slot_of(text: &[u8]) -> usize
    ensures within { result < 256 }
{
    match (text.first(), text.last()) {
        (Some(first), Some(last)) => {
            (text.len() % SLOTS + 7 * usize::from(*first) + 31 * usize::from(*last)) % SLOTS
        }
        _ => 0,
    }
}
