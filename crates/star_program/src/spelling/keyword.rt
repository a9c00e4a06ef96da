// The keywords of programs.

ghost use Rattle.std.specs.Prelude.{Some};
ghost use Rattle.star_program.specs.Text.Keywords as spec;

use crate::op::{Edge, Operator};
use star_schema::Named;
use std::fmt;

/// The first word of a line that does not begin with a register.
#[derive(Clone, Copy)]
pub enum Keyword {
    Star,
    Registers,
    Group,
    Keep,
    Put,
    Scan,
    End,
    Report,
    Show,
    Sort,
}

pub static KEYWORDS: [Keyword; 10] = [
    Keyword::Star,
    Keyword::Registers,
    Keyword::Group,
    Keyword::Keep,
    Keyword::Put,
    Keyword::Scan,
    Keyword::End,
    Keyword::Report,
    Keyword::Show,
    Keyword::Sort,
];

/// The keyword of an operation.
#[derive(Clone, Copy)]
pub enum Mnemonic {
    Const,
    Edge(Edge),
    Load,
    Find,
    Binary(Operator),
    Within,
    Not,
    Read,
}

pub static MNEMONICS: [Mnemonic; 16] = [
    Mnemonic::Const,
    Mnemonic::Edge(Edge::Low),
    Mnemonic::Edge(Edge::High),
    Mnemonic::Load,
    Mnemonic::Find,
    Mnemonic::Binary(Operator::Add),
    Mnemonic::Binary(Operator::Sub),
    Mnemonic::Binary(Operator::Mul),
    Mnemonic::Binary(Operator::Less),
    Mnemonic::Binary(Operator::LessOrEqual),
    Mnemonic::Binary(Operator::Equal),
    Mnemonic::Within,
    Mnemonic::Binary(Operator::And),
    Mnemonic::Binary(Operator::Or),
    Mnemonic::Not,
    Mnemonic::Read,
];

impl Named for Keyword {
    ghost name = { spec.keyword_name };

    #[tactic(auto, unfolding(crate::specs::Text::Keywords::keyword_name))]
    fn name(self) -> &'static str {
        match self {
            Keyword::Star => "star",
            Keyword::Registers => "registers",
            Keyword::Group => "group",
            Keyword::Keep => "keep",
            Keyword::Put => "put",
            Keyword::Scan => "scan",
            Keyword::End => "end",
            Keyword::Report => "report",
            Keyword::Show => "show",
            Keyword::Sort => "sort",
        }
    }
}

impl Named for Mnemonic {
    ghost name = { spec.mnemonic_name };

    #[tactic(auto, unfolding(crate::specs::Text::Keywords::mnemonic_name))]
    fn name(self) -> &'static str {
        match self {
            Mnemonic::Const => "const",
            Mnemonic::Edge(Edge::Low) => "low",
            Mnemonic::Edge(Edge::High) => "high",
            Mnemonic::Load => "load",
            Mnemonic::Find => "find",
            Mnemonic::Binary(Operator::Add) => "add",
            Mnemonic::Binary(Operator::Sub) => "sub",
            Mnemonic::Binary(Operator::Mul) => "mul",
            Mnemonic::Binary(Operator::Less) => "lt",
            Mnemonic::Binary(Operator::LessOrEqual) => "le",
            Mnemonic::Binary(Operator::Equal) => "eq",
            Mnemonic::Within => "within",
            Mnemonic::Binary(Operator::And) => "and",
            Mnemonic::Binary(Operator::Or) => "or",
            Mnemonic::Not => "not",
            Mnemonic::Read => "read",
        }
    }
}

impl fmt::Display for Mnemonic {
    ghost output = { λ mnemonic. Some (spec.mnemonic_name mnemonic) };

    fn fmt<W: fmt::Write>(&self, f: &mut fmt::Formatter<W>) -> fmt::Result {
        f.write_str(self.name())
    }
}
