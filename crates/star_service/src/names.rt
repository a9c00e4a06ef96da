// Names of files on one line.

ghost use Rattle.std.specs.{Prelude.◌≤◌, Prelude.Some, Prelude.encode_utf8_all, Char.Iter.escape_end, Char.Iter.escape_rest, Fmt.WritesOnOk};
ghost use Rattle.star_service.specs.Names.{printed_letter, printed_name};

use std::char::EscapeDefault;
use std::fmt;

/// A name, shown so that it stays on one line: control characters and the backslash as Rust's
/// `escape_debug` writes them, any other character as it is.
#[derive(Clone, Copy)]
pub struct Shown<'a>(pub &'a str);

fn write_escape<W: fmt::Write>(escape: EscapeDefault, f: &mut fmt::Formatter<W>) -> fmt::Result
    requires { escape_end escape ≤ 10 }
    ensures { WritesOnOk W.write_str_gives f.old result
        (encode_utf8_all (escape_rest escape)) f.new }
{
    let mut rest = escape;
    'letters: while let Some(letter) = rest.next() {
        f.write_char(letter)?;
    }
    Ok(())
}

// `escape_default` writes these letters as `escape_debug` does, but for the zero; and its clause
// says so beyond ASCII too.
fn write_letter<W: fmt::Write>(letter: char, f: &mut fmt::Formatter<W>) -> fmt::Result
    ensures { WritesOnOk W.write_str_gives f.old result (printed_letter letter) f.new }
{
    if letter == '\0' {
        f.write_str("\\0")
    } else if letter.is_control() || letter == '\\' {
        write_escape(letter.escape_default(), f)
    } else {
        f.write_char(letter)
    }
}

impl<'a> fmt::Display for Shown<'a> {
    ghost output = { λ shown. Some (printed_name shown.0.now) };

    fn fmt<W: fmt::Write>(&self, f: &mut fmt::Formatter<W>) -> fmt::Result {
        let mut rest = self.0.chars();
        'letters: while let Some(letter) = rest.next() {
            write_letter(letter, f)?;
        }
        Ok(())
    }
}
