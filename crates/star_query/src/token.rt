// The tokens of a query text.

ghost use Rattle.std.specs.Prelude.{◌<◌, ◌^◌};
ghost use Rattle.star_query.specs.Maxima.{most_digits};
ghost use Rattle.star_query.specs.Symbols as spec;

use star_schema::Named;

/// What folds the values of an expression over a group of rows.
#[derive(Clone, Copy, PartialEq, Eq)]
pub enum Fold {
    Sum,
    Min,
    Max,
}

/// How a column is compared with a literal.
#[derive(Clone, Copy, PartialEq, Eq)]
pub enum Relation {
    Equal,
    Unequal,
    Less,
    AtMost,
    Greater,
    AtLeast,
}

/// The reserved words, but for the functions.
#[derive(Clone, Copy, PartialEq, Eq)]
pub(crate) enum Keyword {
    Select,
    From,
    Where,
    Group,
    By,
    Order,
    As,
    And,
    Or,
    Not,
    Between,
    Cube,
    Rollup,
    Asc,
    Desc,
}

/// The other signs.
#[derive(Clone, Copy, PartialEq, Eq)]
pub(crate) enum Sign {
    Comma,
    Open,
    Close,
    Star,
    Semicolon,
}

/// The signs that join terms. A minus may precede a number too.
#[derive(Clone, Copy, PartialEq, Eq)]
pub(crate) enum Additive {
    Plus,
    Minus,
}

/// A reserved word.
#[derive(Clone, Copy, PartialEq, Eq)]
pub(crate) enum Word {
    Keyword(Keyword),
    Fold(Fold),
    Count,
}

/// All reserved words.
pub(crate) static WORDS: [Word; 19] = [
    Word::Keyword(Keyword::Select),
    Word::Keyword(Keyword::From),
    Word::Keyword(Keyword::Where),
    Word::Keyword(Keyword::Group),
    Word::Keyword(Keyword::By),
    Word::Keyword(Keyword::Order),
    Word::Keyword(Keyword::As),
    Word::Keyword(Keyword::And),
    Word::Keyword(Keyword::Or),
    Word::Keyword(Keyword::Not),
    Word::Keyword(Keyword::Between),
    Word::Keyword(Keyword::Cube),
    Word::Keyword(Keyword::Rollup),
    Word::Keyword(Keyword::Asc),
    Word::Keyword(Keyword::Desc),
    Word::Fold(Fold::Sum),
    Word::Fold(Fold::Min),
    Word::Fold(Fold::Max),
    Word::Count,
];

impl Named for Word {
    ghost name = { spec.spelling };

    #[tactic(auto, unfolding(crate::specs::Symbols::spelling))]
    fn name(self) -> &'static str {
        match self {
            Word::Keyword(Keyword::Select) => "select",
            Word::Keyword(Keyword::From) => "from",
            Word::Keyword(Keyword::Where) => "where",
            Word::Keyword(Keyword::Group) => "group",
            Word::Keyword(Keyword::By) => "by",
            Word::Keyword(Keyword::Order) => "order",
            Word::Keyword(Keyword::As) => "as",
            Word::Keyword(Keyword::And) => "and",
            Word::Keyword(Keyword::Or) => "or",
            Word::Keyword(Keyword::Not) => "not",
            Word::Keyword(Keyword::Between) => "between",
            Word::Keyword(Keyword::Cube) => "cube",
            Word::Keyword(Keyword::Rollup) => "rollup",
            Word::Keyword(Keyword::Asc) => "asc",
            Word::Keyword(Keyword::Desc) => "desc",
            Word::Fold(Fold::Sum) => "sum",
            Word::Fold(Fold::Min) => "min",
            Word::Fold(Fold::Max) => "max",
            Word::Count => "count",
        }
    }
}

/// A number of at most 18 digits.
#[derive(Clone, Copy)]
pub(crate) struct Digits {
    pub(crate) value: u64,
    ghost few: { value < 10 ^ most_digits },
}

/// What a token is. Names and texts are as the text has them: in any case, and with doubled quotes.
#[derive(Clone, Copy)]
pub(crate) enum Kind<'a> {
    Keyword(Keyword),
    Fold(Fold),
    Count,
    Relation(Relation),
    Sign(Sign),
    Additive(Additive),
    Name(&'a [u8]),
    Number(Digits),
    Text(&'a [u8]),
}

/// A token, and the position of its first byte.
#[derive(Clone, Copy)]
pub(crate) struct Token<'a> {
    pub(crate) kind: Kind<'a>,
    pub(crate) offset: usize,
}
