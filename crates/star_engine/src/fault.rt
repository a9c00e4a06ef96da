// The errors of the engine's calls.

ghost use Rattle.std.specs.Prelude.{◌≡◌, Some};
ghost use Rattle.star_common.specs.Memory.{TellsMemory};
ghost use Rattle.star_engine.specs.{Faults.{fault_of_load, fault_of_plan, fault_of_query, fault_of_refusal, fault_of_text, fault_of_trial}, FaultTexts.engine_fault_text, declared.fault.EngineFault.TheVariants.{OutOfMemory, Write}};

use star_catalogue::LoadFault;
use star_common::WriteFault;
use star_machine::TrialFault;
use star_plan::PlanFault;
use star_program::TextFault;
use star_query::QueryFault;
use star_verify::Refusal;
use std::alloc::AllocError;
use std::fmt;
use thiserror::Error;

// An error may hold the columns of a range; it is neither copied nor compared. The conversions are
// written by hand, since clauses cite the result of each.
/// Why a call failed. It is displayed as its `FaultLine`.
#[derive(Debug, Drop, Error)]
#[error("{line}", line = FaultLine(self))]
pub enum EngineFault {
    /// Out of memory.
    OutOfMemory,
    /// The text is not a query.
    Query(QueryFault),
    /// The query has no plan.
    Plan(PlanFault),
    /// The text is not a program.
    Program(TextFault),
    /// The tables could not be loaded.
    Load(LoadFault),
    /// The program was refused before its run.
    Refused(Refusal),
    /// The program did not run to its end.
    Trial(TrialFault),
    /// A write failed, after `sent` bytes of the report.
    Write { sent: u64 },
}

/// The line that the program prints for an error, without its line end. No clause says what a
/// derived message shows; the texts are therefore written here and proved.
#[derive(Clone, Copy)]
pub struct FaultLine<'a>(pub &'a EngineFault);

impl<'a> fmt::Display for FaultLine<'a> {
    ghost output = { λ line. Some (engine_fault_text line.0.now) };

    #[tactic(auto, unfolding(crate::specs::FaultTexts::engine_fault_text))]
    fn fmt<W: fmt::Write>(&self, f: &mut fmt::Formatter<W>) -> fmt::Result {
        match self.0 {
            EngineFault::OutOfMemory => f.write_str("memory"),
            EngineFault::Query(fault) => write!(f, "query {fault}"),
            EngineFault::Plan(fault) => write!(f, "query {fault}"),
            EngineFault::Program(fault) => write!(f, "program {fault}"),
            EngineFault::Load(fault) => write!(f, "load {fault}"),
            EngineFault::Refused(refusal) => write!(f, "{refusal}"),
            EngineFault::Trial(fault) => write!(f, "{fault}"),
            EngineFault::Write { sent } => write!(f, "write {sent}"),
        }
    }
}

impl From<AllocError> for EngineFault {
    ghost from_gives = { TellsMemory OutOfMemory };

    fn from(_error: AllocError) -> EngineFault {
        EngineFault::OutOfMemory
    }
}

impl From<QueryFault> for EngineFault {
    ghost from_gives = { λ fault shown. shown ≡ fault_of_query fault };

    fn from(fault: QueryFault) -> EngineFault {
        match fault {
            QueryFault::OutOfMemory => EngineFault::OutOfMemory,
            fault => EngineFault::Query(fault),
        }
    }
}

impl From<PlanFault> for EngineFault {
    ghost from_gives = { λ fault shown. shown ≡ fault_of_plan fault };

    fn from(fault: PlanFault) -> EngineFault {
        match fault {
            PlanFault::OutOfMemory => EngineFault::OutOfMemory,
            fault => EngineFault::Plan(fault),
        }
    }
}

impl From<TextFault> for EngineFault {
    ghost from_gives = { λ fault shown. shown ≡ fault_of_text fault };

    fn from(fault: TextFault) -> EngineFault {
        match fault {
            TextFault::OutOfMemory => EngineFault::OutOfMemory,
            fault => EngineFault::Program(fault),
        }
    }
}

impl From<LoadFault> for EngineFault {
    ghost from_gives = { λ fault shown. shown ≡ fault_of_load fault };

    fn from(fault: LoadFault) -> EngineFault {
        match fault {
            LoadFault::OutOfMemory => EngineFault::OutOfMemory,
            fault => EngineFault::Load(fault),
        }
    }
}

impl From<Refusal> for EngineFault {
    ghost from_gives = { λ refusal shown. shown ≡ fault_of_refusal refusal };

    fn from(refusal: Refusal) -> EngineFault {
        match refusal {
            Refusal::OutOfMemory => EngineFault::OutOfMemory,
            refusal => EngineFault::Refused(refusal),
        }
    }
}

impl From<TrialFault> for EngineFault {
    ghost from_gives = { λ fault shown. shown ≡ fault_of_trial fault };

    fn from(fault: TrialFault) -> EngineFault {
        match fault {
            TrialFault::OutOfMemory => EngineFault::OutOfMemory,
            fault => EngineFault::Trial(fault),
        }
    }
}

impl From<WriteFault> for EngineFault {
    ghost from_gives = { λ fault shown. shown ≡ Write fault.sent };

    fn from(fault: WriteFault) -> EngineFault {
        EngineFault::Write { sent: fault.sent }
    }
}
