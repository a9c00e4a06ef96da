// Decimal numbers.

ghost use Rattle.std.specs.{Prelude.{◌≡◌, ◌<◌, ◌≤◌, ◌^◌, Some, None, IfSome, if◌then◌else◌, length}, Char.is_ascii_digit, List.list_all, Str.Parse.digits_value};
ghost use Rattle.star_common.specs.Numerals.{numeral_of};

// Returns the number that the digits write, or None if a byte is no digit.
fn magnitude(digits: &[u8]) -> Option<u64>
    requires { length digits.now ≤ 19 }
    ensures value { result
        ≡ (if list_all is_ascii_digit digits.now then Some (digits_value 10 digits.now) else None) }
    ensures bound { IfSome result (λ magnitude. magnitude < 10 ^ length digits.now) }
{
    let mut magnitude = 0u64;
    for digit in digits {
        if !digit.is_ascii_digit() {
            return None;
        }
        magnitude = magnitude * 10 + u64::from(*digit - b'0');
    }
    Some(magnitude)
}

/// Returns the number that 1 to 19 digits write, which always fits, or None for any other text.
pub fn numeral_value(text: &[u8]) -> Option<u64>
    ensures value { result ≡ numeral_of 19 text.now }
    ensures bound { IfSome result (λ number. number < 10 ^ length text.now) }
{
    if text.is_empty() || text.len() > 19 {
        return None;
    }
    magnitude(text)
}
