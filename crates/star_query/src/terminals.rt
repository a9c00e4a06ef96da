// Tokens without a value: signs and reserved words.

ghost use Rattle.std.{specs.Prelude.{◌≡◌, IfSome, IfNone}, proofs.Common.rules};
ghost use Rattle.star_query.specs.{Symbols.{Symbol, keyword, relation, sign, additive}, Private.Lexed.placed, Private.Terminals.IsTerminal};

use crate::token::{Additive, Keyword, Kind, Relation, Sign, Token};

// A kind of tokens without a value.
pub(crate) trait Terminal: Copy + PartialEq {
    // Its symbol in the grammar.
    ghost symbol: { Self → Symbol };

    // Which of these a token is, if it is one.
    fn of(token: &Token<'_>) -> Option<Self>
        ensures found { IfSome result (λ terminal. (placed token.now).symbol ≡ symbol terminal) }
        ensures other { IfNone result ((terminal : Self)
            → (placed token.now).symbol ≡ symbol terminal → ⊥) };

    ghost is_terminal: { IsTerminal Self.eq symbol };
}

impl Terminal for Keyword {
    ghost symbol = { keyword };

    ghost is_terminal = { Prim.search rules };

    fn of(token: &Token<'_>) -> Option<Keyword> {
        match token.kind {
            Kind::Keyword(keyword) => Some(keyword),
            _ => None,
        }
    }
}

impl Terminal for Relation {
    ghost symbol = { relation };

    ghost is_terminal = { Prim.search rules };

    fn of(token: &Token<'_>) -> Option<Relation> {
        match token.kind {
            Kind::Relation(relation) => Some(relation),
            _ => None,
        }
    }
}

impl Terminal for Sign {
    ghost symbol = { sign };

    ghost is_terminal = { Prim.search rules };

    fn of(token: &Token<'_>) -> Option<Sign> {
        match token.kind {
            Kind::Sign(sign) => Some(sign),
            _ => None,
        }
    }
}

impl Terminal for Additive {
    ghost symbol = { additive };

    ghost is_terminal = { Prim.search rules };

    fn of(token: &Token<'_>) -> Option<Additive> {
        match token.kind {
            Kind::Additive(additive) => Some(additive),
            _ => None,
        }
    }
}
