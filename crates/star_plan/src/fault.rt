// The faults of a query's names.

ghost use Rattle.star_common.specs.Memory.{TellsMemory};
ghost use Rattle.star_plan.specs.declared.fault.PlanFault.TheVariants.{OutOfMemory};

use std::alloc::{AllocError, AllocFailed};
use std::fmt;

/// Why a query has no plan. `at` is the position of a name in the query's text, in bytes from 0.
#[derive(Clone, Copy, Debug, PartialEq, Eq)]
pub enum PlanFault {
    /// Memory was refused.
    OutOfMemory,
    /// No table or column has this name.
    UnknownName { at: usize },
    /// FROM doesn't name lineorder.
    NoFactTable,
    /// FROM names a table again.
    TableTwice { at: usize },
    /// A column's table isn't in FROM.
    TableNotNamed { at: usize },
    /// A dimension of FROM has no join.
    JoinMissing { at: usize },
    /// A dimension is joined again.
    JoinTwice { at: usize },
    /// Two columns are compared that aren't a foreign key and the key that it references, or not by
    /// a conjunct of the whole condition.
    NotAKeyPair { at: usize },
    /// A column of texts is inside an aggregate, or a column is compared with a literal of the
    /// other kind.
    WrongKind { at: usize },
    /// A plain column isn't in GROUP BY.
    NotGrouped { at: usize },
    /// GROUP BY names a column again.
    DuplicateGroup { at: usize },
    /// ORDER BY names neither a group column nor an aggregate.
    UnknownOrderKey { at: usize },
    /// An aggregate's name is that of an earlier one or of a group column.
    DuplicateAlias { at: usize },
    /// SELECT has no aggregate.
    NoAggregate,
}

impl From<AllocError> for PlanFault {
    ghost from_gives = { TellsMemory OutOfMemory };

    fn from(_error: AllocError) -> PlanFault {
        PlanFault::OutOfMemory
    }
}

impl<T: Drop> From<AllocFailed<T>> for PlanFault {
    ghost from_gives = { TellsMemory OutOfMemory };

    fn from(_error: AllocFailed<T>) -> PlanFault {
        PlanFault::OutOfMemory
    }
}

impl fmt::Display for PlanFault {
    ghost use Rattle.std.specs.Prelude.{Some};
    ghost use Rattle.star_plan.specs.FaultTexts.{plan_fault_text};

    ghost output = { λ fault. Some (plan_fault_text fault) };

    #[tactic(auto, unfolding(crate::specs::FaultTexts::plan_fault_text))]
    fn fmt<W: fmt::Write>(&self, f: &mut fmt::Formatter<W>) -> fmt::Result {
        match self {
            PlanFault::OutOfMemory => write!(f, "1 OutOfMemory"),
            PlanFault::UnknownName { at } => write!(f, "30 UnknownName at {at}"),
            PlanFault::NoFactTable => write!(f, "31 NoFactTable"),
            PlanFault::TableTwice { at } => write!(f, "32 TableTwice at {at}"),
            PlanFault::TableNotNamed { at } => write!(f, "33 TableNotNamed at {at}"),
            PlanFault::JoinMissing { at } => write!(f, "34 JoinMissing at {at}"),
            PlanFault::JoinTwice { at } => write!(f, "35 JoinTwice at {at}"),
            PlanFault::NotAKeyPair { at } => write!(f, "36 NotAKeyPair at {at}"),
            PlanFault::WrongKind { at } => write!(f, "37 WrongKind at {at}"),
            PlanFault::NotGrouped { at } => write!(f, "38 NotGrouped at {at}"),
            PlanFault::DuplicateGroup { at } => write!(f, "39 DuplicateGroup at {at}"),
            PlanFault::UnknownOrderKey { at } => write!(f, "40 UnknownOrderKey at {at}"),
            PlanFault::DuplicateAlias { at } => write!(f, "41 DuplicateAlias at {at}"),
            PlanFault::NoAggregate => write!(f, "42 NoAggregate"),
        }
    }
}
