// Escapes in texts.

use std::io;

// Returns the byte of an escape without its backslash, and the remaining text.
fn escape_of(text: &str) -> Option<(u8, &str)> {
    for (letter, byte) in [('n', b'\n'), ('r', b'\r'), ('t', b'\t')] {
        if let Some(rest) = text.strip_prefix(letter) {
            return Some((byte, rest));
        }
    }
    if let Some(hexadecimal) = text.strip_prefix('x') {
        let (digits, rest) = hexadecimal.split_at_checked(2)?;
        return Some((u8::from_str_radix(digits, 16).ok()?, rest));
    }
    let (digits, rest) = text.split_at_checked(3)?;
    Some((u8::from_str_radix(digits, 8).ok()?, rest))
}

// Appends a piece between backslashes, which begins with an escape unless it is plain. Returns whether
// the next piece is plain.
fn push_piece(out: &mut Vec<u8>, piece: &str, is_plain: bool) -> io::Result<bool> {
    if is_plain {
        out.extend_from_slice(piece.as_bytes())?;
        return Ok(false);
    }
    if piece.is_empty() {
        out.push(b'\\')?;
        return Ok(true);
    }
    let Some((byte, rest)) = escape_of(piece) else {
        return Err(io::Error::other("no escape: write \\n, \\r, \\t, \\\\, \\xHH or \\OOO"));
    };
    out.push(byte)?;
    out.extend_from_slice(rest.as_bytes())?;
    Ok(false)
}

/// Appends the bytes of a text with escapes.
pub(crate) fn push_unescaped(out: &mut Vec<u8>, text: &str) -> io::Result<()> {
    let mut is_plain = true;
    for piece in text.split('\\') {
        is_plain = push_piece(out, piece, is_plain)?;
    }
    Ok(())
}
