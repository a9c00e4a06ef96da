// The lines of a text, and the words of a line.

ghost use Rattle.std.specs.{Prelude.{◌≡◌, ◌∷◌, ◌==◌, ◌||◌, ◌<◌, ◌≤◌, ◌+◌, [], IfSome, MatchOption, drop, length, not}, List.position};
ghost use Rattle.star_program.specs.Private.Returns as returns;
ghost use Rattle.star_program.specs.Text.Lines as spec;

// Returns the bytes from an index on.
fn from_index(bytes: &[u8], index: usize) -> &[u8]
    requires { index ≤ length bytes.now }
    ensures { result.now ≡ drop index bytes.now }
{
    &bytes[index..]
}

fn line_end(text: &[u8]) -> Option<usize>
    ensures { result ≡ position (λ b. b == 10) text.now }
{
    text.iter().position(|&b| b == b'\n')
}

// Returns a line without the carriage return at its end.
fn without_return(line: &[u8]) -> &[u8]
    ensures { result.now ≡ returns.without_return line.now }
{
    match line.split_last() {
        Some((last, front)) => { if *last == b'\r' { front } else { line } }
        None => line,
    }
}

/// Returns the first line of a text, and the text after it.
pub(crate) fn split_line(text: &[u8]) -> Option<(&[u8], &[u8])>
    ensures line { MatchOption result (spec.lines_of text.now ≡ [])
        (λ parts. spec.lines_of text.now ≡ parts.0.now ∷ spec.lines_of parts.1.now) }
    ensures shorter { IfSome result (λ parts. length parts.1.now < length text.now) }
{
    if text.is_empty() {
        return None;
    }
    match line_end(text) {
        Some(end) => Some((without_return(&text[..end]), from_index(text, end + 1))),
        None => Some((text, &[])),
    }
}

fn word_start(line: &[u8]) -> Option<usize>
    ensures { result ≡ position (λ b. not (b == 32)) line.now }
{
    line.iter().position(|&b| b != b' ')
}

// Returns the index of the first space or quote.
fn word_end(line: &[u8]) -> Option<usize>
    ensures { result ≡ position (λ b. (b == 32) || (b == 39)) line.now }
{
    line.iter().position(|&b| b == b' ' || b == b'\'')
}

/// Returns the first word of a line, and the line after it.
pub(crate) fn split_word(line: &[u8]) -> Option<(&[u8], &[u8])>
    ensures word { MatchOption result (spec.words_of line.now ≡ [])
        (λ parts. spec.words_of line.now ≡ parts.0.now ∷ spec.words_of parts.1.now) }
    ensures shorter { IfSome result (λ parts. length parts.1.now < length line.now) }
{
    let start = word_start(line)?;
    let rest = from_index(line, start);
    let Some(end) = word_end(rest) else {
        return Some((rest, &[]));
    };
    if rest[end] == b' ' {
        Some((&rest[..end], from_index(rest, end + 1)))
    } else {
        Some((rest, &[]))
    }
}

/// Tests whether a line has only spaces.
pub(crate) fn is_blank(line: &[u8]) -> bool
    ensures { result ≡ spec.is_blank_line line.now }
{
    line.iter().all(|&b| b == b' ')
}
