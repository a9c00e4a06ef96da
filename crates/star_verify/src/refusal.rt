// Refusals, and their printed form.

ghost use Rattle.std.specs.Prelude.{Some};
ghost use Rattle.star_common.specs.Memory.{TellsMemory};
ghost use Rattle.star_verify.specs.{declared.refusal.Refusal.TheVariants.OutOfMemory, RefusalTexts.refusal_text};

use star_safety::Reason;
use std::alloc::AllocError;
use std::fmt;

// One case for each of the twelve lines would repeat the instruction's number in most of them, and
// reasons are checked and proved without a number.
/// Why a program is refused. Instructions count from 1, in the order of the text.
#[derive(Drop)]
pub enum Refusal {
    /// Out of memory.
    OutOfMemory,
    /// The quote exceeds the limit.
    TooCostly { visits: u128 },
    /// An instruction is refused, by its number.
    Refused { at: u16, reason: Reason },
    /// A line of the report names something that is not declared. The position is 0 if the group is
    /// not declared or nothing is shown, otherwise the number of the line, from 1, among the show
    /// lines followed by the sort lines.
    BadShow { index: u8 },
}

impl From<AllocError> for Refusal {
    ghost from_gives = { TellsMemory OutOfMemory };

    fn from(_error: AllocError) -> Refusal {
        Refusal::OutOfMemory
    }
}

/// Debug prints the line of the refusal.
impl fmt::Debug for Refusal {
    fn fmt<W: fmt::Write>(&self, f: &mut fmt::Formatter<W>) -> fmt::Result {
        write!(f, "{self}")
    }
}

impl fmt::Display for Refusal {
    ghost output = { λ refusal. Some (refusal_text refusal) };

    #[tactic(auto, unfolding(crate::specs::RefusalTexts::refusal_text))]
    fn fmt<W: fmt::Write>(&self, f: &mut fmt::Formatter<W>) -> fmt::Result {
        match self {
            Refusal::OutOfMemory => write!(f, "memory"),
            Refusal::TooCostly { visits } => write!(f, "refused 71 TooCostly visits {visits}"),
            Refusal::Refused { at, reason } => {
                write!(f, "refused {reason} at {at}")?;
                reason.write_bounds(f)
            }
            Refusal::BadShow { index } => write!(f, "refused 70 BadShow at {index}"),
        }
    }
}
