// Printable bytes.

ghost use Rattle.std.specs.{Prelude.◌≡◌, List.list_all};
ghost use Rattle.star_common.specs.Printable as spec;

/// Tests whether a byte is printable ASCII, from space to tilde.
pub fn is_printable(byte: u8) -> bool
    ensures { result ≡ spec.is_printable byte }
{
    (b' '..=b'~').contains(&byte)
}

/// Tests whether every byte of a text is printable ASCII.
pub fn are_printable(text: &[u8]) -> bool
    ensures { result ≡ list_all spec.is_printable text.now }
{
    text.iter().all(|&byte| is_printable(byte))
}
