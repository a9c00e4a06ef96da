// The faults of an instruction, and the traps of a run.

ghost use Rattle.std.specs.Prelude.{Some};
ghost use Rattle.star_program.specs.TrapTexts.{kind_text, wrong_text};

use std::fmt;

/// A fault of an instruction by its position, its registers or their kinds.
#[derive(Clone, Copy, Debug, PartialEq, Eq)]
pub enum Fault {
    /// A register is not declared.
    BadRegister,
    /// The target is written by an earlier instruction. No run is trapped by this.
    WrittenTwice,
    /// A register has no value.
    Unset,
    /// The instruction does not take a value of this kind.
    WrongKind,
    /// A column of another table, or a numeric column in place of a text column.
    BadColumn,
    /// A group is not declared, or not as the instruction requires.
    BadGroup,
    /// An instruction is outside scans but belongs inside one.
    Misplaced,
}

impl fmt::Display for Fault {
    ghost output = { λ fault. Some (wrong_text fault) };

    #[tactic(auto, unfolding(crate::specs::TrapTexts::wrong_text))]
    fn fmt<W: fmt::Write>(&self, f: &mut fmt::Formatter<W>) -> fmt::Result {
        f.write_str(match self {
            Fault::BadRegister => "BadRegister",
            Fault::WrittenTwice => "WrittenTwice",
            Fault::Unset => "Unset",
            Fault::WrongKind => "WrongKind",
            Fault::BadColumn => "BadColumn",
            Fault::BadGroup => "BadGroup",
            Fault::Misplaced => "Misplaced",
        })
    }
}

/// Why a run is trapped by an instruction.
#[derive(Clone, Copy, Debug, PartialEq, Eq)]
pub enum TrapKind {
    /// The instruction has a fault.
    Wrong(Fault),
    /// No row has the key.
    AbsentKey,
    /// A number leaves 64 bits, or a SUM 128 bits.
    Overflow,
}

impl fmt::Display for TrapKind {
    ghost output = { λ kind. Some (kind_text kind) };

    #[tactic(auto, unfolding(crate::specs::TrapTexts::kind_text))]
    fn fmt<W: fmt::Write>(&self, f: &mut fmt::Formatter<W>) -> fmt::Result {
        match self {
            TrapKind::Wrong(fault) => write!(f, "{fault}"),
            TrapKind::AbsentKey => write!(f, "AbsentKey"),
            TrapKind::Overflow => write!(f, "Overflow"),
        }
    }
}
