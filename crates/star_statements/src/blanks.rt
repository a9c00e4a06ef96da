// Blanks: spaces, tabs and line ends.

ghost use Rattle.std.specs.Prelude.{◌≡◌};
ghost use Rattle.star_common.specs.WhiteSpace as white;
ghost use Rattle.star_statements.specs.Blanks as spec;

/// Tests whether a byte is a space, a tab, a carriage return or a line feed.
pub(crate) fn is_blank(byte: u8) -> bool
    ensures { result ≡ white.is_blank byte }
{
    byte == b' ' || byte == b'\t' || byte == b'\r' || byte == b'\n'
}

/// Tests whether a text begins with a blank.
pub(crate) fn is_blank_at_front(text: &[u8]) -> bool
    ensures { result ≡ spec.is_blank_at_front text.now }
{
    match text.split_first() {
        Some((first, _)) => is_blank(*first),
        None => false,
    }
}

/// Returns a text from its first byte that is not a blank.
pub(crate) fn without_blanks(text: &[u8]) -> &[u8]
    ensures { result.now ≡ spec.without_blanks text.now }
{
    let mut rest = text;
    'blanks: while let Some((first, after)) = rest.split_first() {
        if !is_blank(*first) {
            break;
        }
        rest = after;
    }
    rest
}
