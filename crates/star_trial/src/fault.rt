// Why a run does not come to its end.

ghost use Rattle.std.specs.Prelude.{◌≡◌};
ghost use Rattle.star_common.specs.Memory.{TellsMemory};
ghost use Rattle.star_program.specs.declared.fault.TrapKind.TheVariants.{Wrong};
ghost use Rattle.star_trial.specs.{declared.fault.Stop.TheVariants.Trap, declared.fault.TrialFault.TheVariants.OutOfMemory, Private.Stops.stop_of_put};

use star_group::PutFault;
use star_program::{Fault, TrapKind};
use std::alloc::AllocError;
use std::fmt;

/// Why a run does not come to its end.
#[derive(Clone, Copy, Debug, PartialEq, Eq)]
pub enum TrialFault {
    /// Memory was refused.
    OutOfMemory,
    /// An instruction, by its number from 1, was trapped; or, at 0, the report names a group that
    /// is not there.
    Trap { at: u16, kind: TrapKind },
    /// One more turn would have begun than are allowed.
    Limit,
}

impl From<AllocError> for TrialFault {
    ghost from_gives = { TellsMemory OutOfMemory };

    fn from(_error: AllocError) -> TrialFault {
        TrialFault::OutOfMemory
    }
}

impl fmt::Display for TrialFault {
    ghost use Rattle.std.specs.Prelude.{Some};
    ghost use Rattle.star_trial.specs.FaultTexts.{trial_fault_text};

    ghost output = { λ fault. Some (trial_fault_text fault) };

    #[tactic(auto, unfolding(crate::specs::FaultTexts::trial_fault_text))]
    fn fmt<W: fmt::Write>(&self, f: &mut fmt::Formatter<W>) -> fmt::Result {
        match self {
            TrialFault::OutOfMemory => write!(f, "memory"),
            TrialFault::Trap { at, kind } => write!(f, "trap {kind} at {at}"),
            TrialFault::Limit => write!(f, "limit"),
        }
    }
}

// Why an instruction does not go on.
#[derive(Clone, Copy)]
pub(crate) enum Stop {
    OutOfMemory,
    Trap(TrapKind),
}

impl From<Fault> for Stop {
    ghost from_gives = { λ fault stop. stop ≡ Trap (Wrong fault) };

    fn from(fault: Fault) -> Stop {
        Stop::Trap(TrapKind::Wrong(fault))
    }
}

impl From<PutFault> for Stop {
    ghost from_gives = { λ fault stop. stop ≡ stop_of_put fault };

    fn from(fault: PutFault) -> Stop {
        match fault {
            PutFault::OutOfMemory => Stop::OutOfMemory,
            PutFault::Overflow => Stop::Trap(TrapKind::Overflow),
        }
    }
}
