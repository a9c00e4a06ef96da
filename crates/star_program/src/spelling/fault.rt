// The errors of a program's text.

ghost use Rattle.star_common.specs.Memory.{TellsMemory};
ghost use Rattle.star_program.specs.declared.spelling.fault.LineFault.TheVariants.{OutOfMemory};
ghost use Rattle.star_program.specs.declared.spelling.fault.TextFault.TheVariants as text;

use std::alloc::{AllocError, AllocFailed};
use std::fmt;

/// Why a line was not read: out of memory, or it is not a statement.
#[derive(Clone, Copy)]
pub enum LineFault {
    OutOfMemory,
    Unreadable,
}

impl From<AllocError> for LineFault {
    ghost from_gives = { TellsMemory OutOfMemory };

    fn from(_error: AllocError) -> LineFault {
        LineFault::OutOfMemory
    }
}

impl<T: Drop> From<AllocFailed<T>> for LineFault {
    ghost from_gives = { TellsMemory OutOfMemory };

    fn from(_error: AllocFailed<T>) -> LineFault {
        LineFault::OutOfMemory
    }
}

/// Why a text is not a program. Lines count from 1, blank ones included; a line that is missing at
/// the end has the number after the last.
#[derive(Clone, Copy, Debug, PartialEq, Eq)]
pub enum TextFault {
    /// Out of memory.
    OutOfMemory,
    /// The text does not begin with the line `star program 1`.
    BadHeader,
    /// A line is not a statement, is not allowed at its position, or is missing.
    BadLine { line: usize },
    /// A line in a scan begins with `report`, or the text ends in a scan.
    OpenScan,
    /// A line exceeds a limit.
    TooLarge { line: usize },
}

impl From<AllocError> for TextFault {
    ghost from_gives = { TellsMemory text.OutOfMemory };

    fn from(_error: AllocError) -> TextFault {
        TextFault::OutOfMemory
    }
}

impl fmt::Display for TextFault {
    ghost use Rattle.std.specs.Prelude.{Some};
    ghost use Rattle.star_program.specs.Text.FaultTexts.{text_fault_text};

    ghost output = { λ fault. Some (text_fault_text fault) };

    #[tactic(auto, unfolding(crate::specs::Text::FaultTexts::text_fault_text))]
    fn fmt<W: fmt::Write>(&self, f: &mut fmt::Formatter<W>) -> fmt::Result {
        match self {
            TextFault::OutOfMemory => write!(f, "1 OutOfMemory"),
            TextFault::BadHeader => write!(f, "50 BadHeader"),
            TextFault::BadLine { line } => write!(f, "51 BadLine line {line}"),
            TextFault::OpenScan => write!(f, "52 OpenScan"),
            TextFault::TooLarge { line } => write!(f, "53 TooLarge line {line}"),
        }
    }
}
