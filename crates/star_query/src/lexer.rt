// A text cut into tokens.

ghost use Rattle.std.specs.{Prelude.{◌≡◌, ◌≤◌, ◌+◌, length, IfOk, Ok, Some, None, false, true, IfErr, option_to_list, map, Err}, List.{prefix_len, take_while}, Char.is_ascii_digit};
ghost use Rattle.star_common.specs.WhiteSpace as white;
ghost use Rattle.star_query.specs.Private.Cut as spec;
ghost use Rattle.star_query.specs.Tokens as words;
ghost use Rattle.star_query.specs.Private.Lexed as lexed;

use crate::counts::MAX_DIGITS;
use crate::fault::QueryFault;
use crate::token::{Additive, Digits, Kind, Relation, Sign, Token, WORDS, Word};
use star_common::{is_printable, numeral_value};
use star_schema::Named;
use std::alloc::Global;

// What begins at a position.
#[derive(Clone, Copy)]
enum Piece<'a> {
    Blank,
    Token(Kind<'a>, usize),
    Bad(QueryFault),
}

// How a text ends: by its closing quote, after this many bytes; at a byte that it may not contain;
// or not at all.
#[derive(Clone, Copy)]
enum Ending {
    Closed(usize),
    Stopped(usize),
    Open,
}

fn is_blank(byte: u8) -> bool
    ensures { result ≡ white.is_blank byte }
{
    byte == b' ' || byte == b'\t' || byte == b'\r' || byte == b'\n'
}

fn is_letter(byte: u8) -> bool
    ensures { result ≡ words.is_letter byte }
{
    byte.is_ascii_alphabetic() || byte == b'_'
}

fn is_word_byte(byte: u8) -> bool
    ensures { result ≡ words.is_word_byte byte }
{
    is_letter(byte) || byte.is_ascii_digit()
}

// Whether a word is this reserved word, in any case.
fn is_spelled(reserved: Word, word: &[u8]) -> bool
    ensures { result ≡ spec.is_spelled word.now reserved }
{
    let spelling = reserved.name().as_bytes();
    spelling.eq_ignore_ascii_case(word)
}

// The reserved word that a word is, in any case.
#[tactic(auto, unfolding(crate::specs::Private::Cut::reserved, crate::specs::Private::Cut::reserved_words))]
fn reserved_word(word: &[u8]) -> Option<Word>
    ensures { result ≡ spec.reserved word.now }
{
    WORDS
        .iter()
        .copied()
        .find(|reserved| is_spelled(*reserved, word))
}

#[tactic(auto, using(crate::proofs::Lexing::prefix_within))]
fn digits_width(text: &[u8]) -> usize
    ensures width { result ≡ prefix_len is_ascii_digit text.now }
    ensures within { result ≤ length text.now }
{
    text.iter().take_while(|byte| byte.is_ascii_digit()).count()
}

#[tactic(auto, using(crate::proofs::Lexing::prefix_within))]
fn word_width(text: &[u8]) -> usize
    ensures width { result ≡ prefix_len words.is_word_byte text.now }
    ensures within { result ≤ length text.now }
{
    text.iter().take_while(|byte| is_word_byte(**byte)).count()
}

// Whether a text goes on with a byte, and whether it then ends unless a quote follows.
fn goes_on(quote: bool, byte: u8) -> Option<bool>
    ensures { result ≡ spec.text_goes_on quote byte }
{
    if quote {
        if byte == b'\'' { Some(false) } else { None }
    } else if byte == b'\'' {
        Some(true)
    } else if is_printable(byte) {
        Some(false)
    } else {
        None
    }
}

// How a text ends, after its opening quote.
fn end_of_text(text: &[u8]) -> Ending
    ensures ending { lexed.ending_of result ≡ spec.ending_after false text.now }
    ensures within { lexed.IsEndingWithin result (length text.now) }
{
    let mut quote = false;
    for (i, byte) in text.iter().enumerate() {
        let Some(next) = goes_on(quote, *byte) else {
            return if quote {
                Ending::Closed(i)
            } else {
                Ending::Stopped(i)
            };
        };
        quote = next;
    }
    if quote {
        Ending::Closed(text.len())
    } else {
        Ending::Open
    }
}

// A sign, the longest that fits, and how many bytes it has.
fn sign<'a>(byte: u8, next: Option<u8>, offset: usize) -> Piece<'a>
    ensures { lexed.IsPiece offset (spec.sign_piece offset byte next)
        (1 + length (option_to_list next)) result }
{
    match byte {
        b',' => Piece::Token(Kind::Sign(Sign::Comma), 1),
        b'(' => Piece::Token(Kind::Sign(Sign::Open), 1),
        b')' => Piece::Token(Kind::Sign(Sign::Close), 1),
        b'*' => Piece::Token(Kind::Sign(Sign::Star), 1),
        b'+' => Piece::Token(Kind::Additive(Additive::Plus), 1),
        b'-' => Piece::Token(Kind::Additive(Additive::Minus), 1),
        b';' => Piece::Token(Kind::Sign(Sign::Semicolon), 1),
        b'=' => Piece::Token(Kind::Relation(Relation::Equal), 1),
        b'<' => match next {
            Some(b'=') => Piece::Token(Kind::Relation(Relation::AtMost), 2),
            Some(b'>') => Piece::Token(Kind::Relation(Relation::Unequal), 2),
            _ => Piece::Token(Kind::Relation(Relation::Less), 1),
        },
        b'>' => match next {
            Some(b'=') => Piece::Token(Kind::Relation(Relation::AtLeast), 2),
            _ => Piece::Token(Kind::Relation(Relation::Greater), 1),
        },
        _ => Piece::Bad(QueryFault::BadCharacter { at: offset }),
    }
}

fn begins_with_letter(text: &[u8]) -> bool
    ensures { result ≡ words.begins_with_letter text.now }
{
    match text {
        [] => false,
        [first, ..] => is_letter(*first),
    }
}

// The longest run of digits as a number.
#[tactic(auto, using(crate::proofs::Lexing::number_some))]
fn number<'a>(text: &'a [u8], offset: usize) -> Piece<'a>
    requires { lexed.begins_with_digit text.now ≡ true }
    ensures { lexed.IsPiece offset (spec.number_piece offset text.now) (length text.now) result }
{
    let width = digits_width(text);
    let (digits, rest) = text.split_at(width);
    match numeral_value(digits) {
        Some(value) if width <= MAX_DIGITS && !begins_with_letter(rest) => {
            Piece::Token(Kind::Number(Digits { value }), width)
        }
        _ => Piece::Bad(QueryFault::BadNumber { at: offset }),
    }
}

// The longest run of letters, digits and `_`: a reserved word or a name.
#[tactic(auto, using(crate::proofs::Lexing::word_some))]
fn word<'a>(text: &'a [u8], offset: usize) -> Piece<'a>
    requires { words.begins_with_letter text.now ≡ true }
    ensures { lexed.IsPiece offset (spec.word_piece offset text.now) (length text.now) result }
{
    let width = word_width(text);
    let (word, _) = text.split_at(width);
    let kind = match reserved_word(word) {
        None => Kind::Name(word),
        Some(Word::Keyword(keyword)) => Kind::Keyword(keyword),
        Some(Word::Fold(fold)) => Kind::Fold(fold),
        Some(Word::Count) => Kind::Count,
    };
    Piece::Token(kind, width)
}

// A text, after its opening quote.
fn quoted<'a>(text: &'a [u8], offset: usize) -> Piece<'a>
    requires { offset + 1 + length text.now ≤ usize.MAX }
    ensures { lexed.IsPiece offset (spec.text_piece offset text.now) (1 + length text.now) result }
{
    match end_of_text(text) {
        Ending::Closed(end) => {
            let (inside, _) = text.split_at(end - 1);
            Piece::Token(Kind::Text(inside), end + 1)
        }
        Ending::Stopped(end) => Piece::Bad(QueryFault::BadCharacter {
            at: offset + 1 + end,
        }),
        Ending::Open => Piece::Bad(QueryFault::OpenText { at: offset }),
    }
}

// What begins with the first of these bytes.
fn next_piece<'a>(text: &'a [u8], offset: usize) -> Piece<'a>
    requires { offset + length text.now ≤ usize.MAX }
    ensures { lexed.IsPiece offset (lexed.front_piece offset text.now) (length text.now) result }
{
    let Some((first, rest)) = text.split_first() else {
        return Piece::Blank;
    };
    if is_blank(*first) {
        Piece::Blank
    } else if is_letter(*first) {
        word(text, offset)
    } else if first.is_ascii_digit() {
        number(text, offset)
    } else if *first == b'\'' {
        quoted(rest, offset)
    } else {
        sign(*first, rest.first().copied(), offset)
    }
}

// The tokens of a text, or its first fault from the left.
pub(crate) fn tokens_of(alloc: Global, text: &[u8]) -> Result<Vec<Token<'_>>, QueryFault>
    ensures found { IfOk result (λ tokens. spec.cut_of text.now
        ≡ Ok (map lexed.placed tokens.items)) }
    ensures fault { IfErr result (λ fault. lexed.IsCutFault text.now fault) }
    ensures lexical { IfErr result lexed.IsLexical }
{
    let mut tokens = Vec::new(alloc);
    let mut offset = 0;
    while offset < text.len() {
        let (_, rest) = text.split_at(offset);
        match next_piece(rest, offset) {
            Piece::Blank => offset += 1,
            Piece::Token(kind, width) => {
                tokens.push(Token { kind, offset })?;
                offset += width;
            }
            Piece::Bad(fault) => return Err(fault),
        }
    }
    Ok(tokens)
}
