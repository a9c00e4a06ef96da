// Why a text is no query.

ghost use Rattle.star_common.specs.Memory.{TellsMemory};
ghost use Rattle.star_query.specs.declared.fault.QueryFault.TheVariants.{OutOfMemory};
ghost use Rattle.star_query.specs.declared.fault.ParseError.TheVariants as errors;

use std::alloc::{AllocError, AllocFailed};
use std::fmt;

/// The first fault of a text. A position counts bytes from 0, and the end of the text has the text's
/// length as its position.
#[derive(Clone, Copy, Debug, PartialEq, Eq)]
pub enum QueryFault {
    /// Memory was refused. It may come before any other fault.
    OutOfMemory,
    /// The text has more than 65,536 bytes.
    TooLong,
    /// No token begins with this byte, or a text may not contain it.
    BadCharacter { at: usize },
    /// A number of more than 18 digits, or one that a letter or `_` follows.
    BadNumber { at: usize },
    /// A text that isn't closed.
    OpenText { at: usize },
    /// No query goes on with this token, or none ends here.
    Unexpected { at: usize },
    /// More than 32 nested `not`s and parentheses.
    TooDeep,
    /// Too many things of a kind, or too long a name.
    TooMany,
}

impl<T: Drop> From<AllocFailed<T>> for QueryFault {
    ghost from_gives = { TellsMemory OutOfMemory };

    fn from(_refused: AllocFailed<T>) -> QueryFault {
        QueryFault::OutOfMemory
    }
}

impl fmt::Display for QueryFault {
    ghost use Rattle.std.specs.Prelude.{Some};
    ghost use Rattle.star_query.specs.FaultTexts.{query_fault_text};

    ghost output = { λ fault. Some (query_fault_text fault) };

    #[tactic(auto, unfolding(crate::specs::FaultTexts::query_fault_text))]
    fn fmt<W: fmt::Write>(&self, f: &mut fmt::Formatter<W>) -> fmt::Result {
        match self {
            QueryFault::OutOfMemory => write!(f, "1 OutOfMemory"),
            QueryFault::TooLong => write!(f, "20 TooLong"),
            QueryFault::BadCharacter { at } => write!(f, "21 BadCharacter at {at}"),
            QueryFault::BadNumber { at } => write!(f, "22 BadNumber at {at}"),
            QueryFault::OpenText { at } => write!(f, "23 OpenText at {at}"),
            QueryFault::Unexpected { at } => write!(f, "24 Unexpected at {at}"),
            QueryFault::TooDeep => write!(f, "25 TooDeep"),
            QueryFault::TooMany => write!(f, "26 TooMany"),
        }
    }
}

/// A fault of the grammar or of its limits.
#[derive(Clone, Copy, PartialEq, Eq)]
pub(crate) enum Fault {
    Unexpected,
    TooDeep,
    TooMany,
}

/// Why the parser stopped; the fault is at the next token.
#[derive(Clone, Copy)]
pub(crate) enum ParseError {
    OutOfMemory,
    Fault(Fault),
}

impl From<AllocError> for ParseError {
    ghost from_gives = { TellsMemory errors.OutOfMemory };

    fn from(_refused: AllocError) -> ParseError {
        ParseError::OutOfMemory
    }
}

impl<T: Drop> From<AllocFailed<T>> for ParseError {
    ghost from_gives = { TellsMemory errors.OutOfMemory };

    fn from(_refused: AllocFailed<T>) -> ParseError {
        ParseError::OutOfMemory
    }
}
