// Ranges of the values of a key.

ghost use Rattle.std.specs.Prelude.{◌≡◌, ◌^◌, ◌+ℤ◌, ◌<ℤ◌, ◌≤ℤ◌, pos, true};

/// The values of a key that have ids: numbers, or codes of texts. `low` is the least of them,
/// and the greatest is `last` above it.
#[derive(Clone, Copy)]
pub(crate) struct Span {
    pub(crate) is_code: bool,
    pub(crate) low: i64,
    pub(crate) last: u32,
    ghost high: { (low +ℤ pos last) <ℤ pos (2 ^ 63) },
    ghost codes: { is_code ≡ true
        → (pos 0 ≤ℤ low) × ((low +ℤ pos last) <ℤ pos (2 ^ 32)) },
}
