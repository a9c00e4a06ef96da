// Why a text is not a partial of a query, or is not merged with others.

ghost use Rattle.std.specs.Prelude.{◌≡◌, None, Some};
ghost use Rattle.star_common.specs.Memory.{TellsMemory};
ghost use Rattle.star_merger.specs.{FaultTexts.partial_fault_text, declared.fault.PartialFault.TheVariants.OutOfMemory, declared.fault.PartialsFault.TheVariants.Engine, declared.fault.PartialsFault.TheVariants.Partial};
ghost use Rattle.star_engine.specs.declared.fault.EngineFault.TheVariants as engine;

use star_engine::EngineFault;
use std::alloc::{AllocError, AllocFailed};
use std::fmt;

/// Why a text is not a partial of a query, or is not merged with others. Lines count from 1.
#[derive(Clone, Copy, Debug, PartialEq, Eq)]
pub enum PartialFault {
    /// An allocation failed.
    OutOfMemory,
    /// The first line is not `star partial 1`.
    BadHeader,
    /// The query is another.
    OtherQuery { line: usize },
    /// The dimensions are not those of the first partial.
    OtherDimensions { line: usize },
    /// A line is missing, or differs from that in a partial of the query.
    BadLine { line: usize },
    /// A row does not come after the row before it.
    BadOrder { line: usize },
    /// The span of keys overlaps that of an earlier partial.
    Overlap { line: usize },
    /// The query is refused over this part, but not over all parts.
    Refused { line: usize },
    /// The totals of this and the earlier partials leave the range of their numbers.
    Overflow { line: usize },
}

impl From<AllocError> for PartialFault {
    ghost from_gives = { TellsMemory OutOfMemory };

    fn from(_error: AllocError) -> PartialFault {
        PartialFault::OutOfMemory
    }
}

impl fmt::Display for PartialFault {
    ghost output = { λ fault. Some (partial_fault_text fault) };

    #[tactic(auto, unfolding(crate::specs::FaultTexts::partial_fault_text))]
    fn fmt<W: fmt::Write>(&self, f: &mut fmt::Formatter<W>) -> fmt::Result {
        match self {
            PartialFault::OutOfMemory => f.write_str("memory"),
            PartialFault::BadHeader => f.write_str("1 BadHeader at 1"),
            PartialFault::OtherQuery { line } => write!(f, "2 OtherQuery at {line}"),
            PartialFault::OtherDimensions { line } => write!(f, "3 OtherDimensions at {line}"),
            PartialFault::BadLine { line } => write!(f, "4 BadLine at {line}"),
            PartialFault::BadOrder { line } => write!(f, "5 BadOrder at {line}"),
            PartialFault::Overlap { line } => write!(f, "6 Overlap at {line}"),
            PartialFault::Refused { line } => write!(f, "7 Refused at {line}"),
            PartialFault::Overflow { line } => write!(f, "8 Overflow at {line}"),
        }
    }
}

/// Why partials were not merged: an error of the engine, or a fault of one of them, by its position
/// from 0. The position of another partial is given if two overlap.
#[derive(Drop)]
pub enum PartialsFault {
    Engine(EngineFault),
    Partial {
        index: usize,
        fault: PartialFault,
        other: Option<usize>,
    },
}

impl From<EngineFault> for PartialsFault {
    ghost from_gives = { λ fault shown. shown ≡ Engine fault };

    fn from(fault: EngineFault) -> PartialsFault {
        PartialsFault::Engine(fault)
    }
}

impl From<AllocError> for PartialsFault {
    ghost from_gives = { TellsMemory (Engine engine.OutOfMemory) };

    fn from(_error: AllocError) -> PartialsFault {
        PartialsFault::Engine(EngineFault::OutOfMemory)
    }
}

impl<T: Drop> From<AllocFailed<T>> for PartialsFault {
    ghost from_gives = { TellsMemory (Engine engine.OutOfMemory) };

    fn from(_error: AllocFailed<T>) -> PartialsFault {
        PartialsFault::Engine(EngineFault::OutOfMemory)
    }
}

/// Returns the fault of the partial at a position.
pub(crate) fn fault_at(index: usize, fault: PartialFault) -> PartialsFault
    ensures { result ≡ Partial index fault None }
{
    PartialsFault::Partial {
        index,
        fault,
        other: None,
    }
}
