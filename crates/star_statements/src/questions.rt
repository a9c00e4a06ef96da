// The request in a statement.

ghost use Rattle.std.specs.{Prelude.{◌≡◌, ◌&&◌, true, false, IfNone, IfSome}, Str.str_eq_ignore_ascii_case};
ghost use Rattle.star_statements.specs.{Questions.asked_by_text, Questions.begins_with_word, Questions.behind_word, Views.question_view};
ghost use Rattle.star_statements.specs.Blanks as spec;

use crate::blanks::{is_blank_at_front, without_blanks};

/// The maximum length of a statement in bytes, without its leading blanks.
pub(crate) const MOST_BYTES: usize = 65_536;

/// The request in a statement, with the text of its query.
#[derive(Clone, Copy, Debug, PartialEq, Eq)]
pub enum Question<T> {
    /// None: the statement has only blanks.
    Nothing,
    /// The statement is too long.
    TooLong,
    /// The report of a query.
    Query(T),
    /// The program of a query.
    Explain(T),
    /// The quote of a query.
    Quote(T),
}

// Tests whether the front of a text is a keyword, in letters of either case, and the rest begins
// with a blank.
fn is_word_apart(front: &[u8], rest: &[u8], word: &[u8]) -> bool
    ensures { result ≡ (str_eq_ignore_ascii_case front.now word.now
        && spec.is_blank_at_front rest.now) }
{
    front.eq_ignore_ascii_case(word) && is_blank_at_front(rest)
}

// Returns the text after a keyword and the blanks that follow it, if the text begins with the
// keyword, in letters of either case, and a blank.
fn after_word<'a>(text: &'a [u8], word: &[u8]) -> Option<&'a [u8]>
    ensures found { IfSome result (λ query. (begins_with_word word.now text.now ≡ true)
        × (query.now ≡ behind_word word.now text.now)) }
    ensures other { IfNone result (begins_with_word word.now text.now ≡ false) }
{
    let Some((front, rest)) = text.split_at_checked(word.len()) else {
        return None;
    };
    if is_word_apart(front, rest, word) {
        Some(without_blanks(rest))
    } else {
        None
    }
}

/// Returns the request in a text without leading blanks. An empty text requests nothing. After the
/// keyword `explain` or `quote` and a blank, the rest is a query whose program or quote is
/// requested. Any other text is a query whose report is requested. A text of more than 65,536 bytes
/// is too long.
pub fn question_of(text: &[u8]) -> Question<&[u8]>
    ensures { question_view result ≡ asked_by_text text.now }
{
    if text.is_empty() {
        return Question::Nothing;
    }
    if text.len() > MOST_BYTES {
        return Question::TooLong;
    }
    if let Some(query) = after_word(text, b"explain") {
        return Question::Explain(query);
    }
    if let Some(query) = after_word(text, b"quote") {
        return Question::Quote(query);
    }
    Question::Query(text)
}
