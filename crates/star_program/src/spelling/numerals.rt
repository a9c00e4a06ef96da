// The words of numbers, registers and names.

ghost use Rattle.std.specs.{Prelude.{◌≡◌, ◌<◌, ◌≤◌, ◌^◌, Some, IfSome, neg_ℤ, pos}, Option.option_map, List.list_all};
ghost use Rattle.star_common.specs.Numerals.{numeral_of};
ghost use Rattle.star_program.specs.Text.Numerals as spec;

use star_common::numeral_value;

// Returns the number that 1 to `width` digits write.
fn numeral(width: usize, word: &[u8]) -> Option<u64>
    requires { width ≤ 19 }
    ensures value { result ≡ numeral_of width word.now }
    ensures bound { IfSome result (λ number. number < 10 ^ width) }
{
    if word.len() > width {
        return None;
    }
    numeral_value(word)
}

/// Returns the count or index that a word of 1 to 4 digits writes.
#[tactic(auto, unfolding(crate::specs::Text::Numerals::count_of))]
pub(crate) fn read_count(word: &[u8]) -> Option<u16>
    ensures value { result ≡ spec.count_of word.now }
{
    let count = numeral(4, word)?;
    Some(count as u16)
}

// Returns the negative number with this magnitude.
fn negative(magnitude: u64) -> Option<i64>
    ensures { result ≡ option_map (λ n. neg_ℤ (pos n))
        (spec.up_to 9223372036854775808 (Some magnitude)) }
{
    if magnitude <= 1 << 63 {
        Some((-(magnitude as i128)) as i64)
    } else {
        None
    }
}

// Returns the number with this magnitude.
fn positive(magnitude: u64) -> Option<i64>
    ensures { result ≡ option_map pos (spec.up_to 9223372036854775807 (Some magnitude)) }
{
    if magnitude <= i64::MAX as u64 {
        Some(magnitude as i64)
    } else {
        None
    }
}

/// Returns the number of a constant of 64 bits.
#[tactic(auto, unfolding(crate::specs::Text::Numerals::constant_of))]
pub(crate) fn read_constant(word: &[u8]) -> Option<i64>
    ensures { result ≡ spec.constant_of word.now }
{
    match word {
        [b'-', digits @ ..] => {
            let magnitude = numeral(19, digits)?;
            negative(magnitude)
        }
        _ => {
            let magnitude = numeral(19, word)?;
            positive(magnitude)
        }
    }
}

/// Returns the number of the register that a word names.
#[tactic(auto, unfolding(crate::specs::Text::Numerals::register_of))]
pub(crate) fn read_register(word: &[u8]) -> Option<u16>
    ensures { result ≡ spec.register_of word.now }
{
    match word {
        [b'r', number @ ..] => read_count(number),
        _ => None,
    }
}

// Tests whether a word has only letters, digits and underscores.
fn is_of_name_bytes(word: &[u8]) -> bool
    ensures { result ≡ list_all spec.is_name_byte word.now }
{
    word.iter().all(|&b| b.is_ascii_alphanumeric() || b == b'_')
}

/// Tests whether a word is a name of 1 to 64 bytes.
#[tactic(auto, unfolding(crate::specs::Text::Numerals::is_show_name))]
pub(crate) fn is_name(word: &[u8]) -> bool
    ensures { result ≡ spec.is_show_name word.now }
{
    !word.is_empty() && word.len() <= 64 && is_of_name_bytes(word)
}
