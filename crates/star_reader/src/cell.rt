// One cell of a table.

ghost use Rattle.std.specs.Prelude.{◌≡◌, ◌<◌, ◌^◌, Some, None, IfSome, if◌then◌else◌};
ghost use Rattle.star_common.specs.Numerals.{numeral_of};
ghost use Rattle.star_schema.specs.Tables as spec;

use star_common::numeral_value;

// The cell without a minus at its front.
fn unsigned(cell: &[u8]) -> &[u8]
    ensures { result.now ≡ spec.unsigned cell.now }
{
    match cell {
        [b'-', digits @ ..] => digits,
        _ => cell,
    }
}

// The number that 1 to 18 digits write.
fn magnitude(digits: &[u8]) -> Option<u64>
    ensures value { result ≡ numeral_of 18 digits.now }
    ensures bound { IfSome result (λ magnitude. magnitude < 10 ^ 18) }
{
    if digits.len() > 18 {
        return None;
    }
    numeral_value(digits)
}

/// The number that a cell writes, if it writes one.
pub(crate) fn parse_number(cell: &[u8]) -> Option<i64>
    ensures { result ≡ (if spec.is_number cell.now then Some (spec.number_of cell.now) else None) }
{
    let magnitude = magnitude(unsigned(cell))? as i64;
    if cell.starts_with(b"-") {
        Some(-magnitude)
    } else {
        Some(magnitude)
    }
}
