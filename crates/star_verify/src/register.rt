// Registers, by their facts.

ghost use Rattle.std.specs.Prelude.{◌≡◌, ◌<◌, length};
ghost use Rattle.star_kinds.specs.Kinds.{Answers};
ghost use Rattle.star_program.specs.{Faults.fault_of, Values.with_entry};
ghost use Rattle.star_safety.specs.Ranges.{kinds_known, known_kind};
ghost use Rattle.star_verify.specs.Private.Views.{kind_known, known_in, known_of, known_view};

use crate::known::Known;
use star_kinds::{Kinded, check};
use star_program::{Fault, Kind, Op, Parts};

// The facts of a register, if an instruction in scope writes it.
#[derive(Clone, Copy)]
pub(crate) struct Register {
    pub(crate) known: Option<Known>,
}

fn kind_of(known: Known) -> Kind
    ensures { result ≡ known_kind (known_view known) }
{
    match known {
        Known::Number { .. } => Kind::Number,
        Known::Text(column) => Kind::Text(column),
        Known::Place(column) => Kind::Place(column),
        Known::Row(table) => Kind::Row(table),
        Known::Flag => Kind::Flag,
    }
}

impl Kinded for Register {
    ghost kind = { kind_known };

    fn kind(&self) -> Option<Kind> {
        match self.known {
            Some(known) => Some(kind_of(known)),
            None => None,
        }
    }
}

// Returns the facts of the register with a number.
pub(crate) fn known_at(registers: &[Register], number: u16) -> Register
    ensures { known_of result ≡ known_in registers.now number }
{
    match registers.get(number as usize) {
        Some(register) => *register,
        None => Register { known: None },
    }
}

// Records the facts of a register.
#[tactic(auto, using(crate::proofs::Registers::known_set))]
pub(crate) fn learn(registers: &mut [Register], target: u16, known: Known)
    requires { target < length registers.old }
    ensures learned { known_in registers.new
        ≡ with_entry (known_in registers.old) target (known_view known) }
    ensures len { length registers.new ≡ length registers.old }
{
    registers[target as usize] = Register { known: Some(known) };
}

// Checks an instruction by the kinds of its operands; `again` is another fault of its target.
pub(crate) fn check_kinds(
    parts: &Parts,
    inside: bool,
    again: Option<Fault>,
    registers: &[Register],
    op: &Op,
) -> Result<(), Fault>
    requires { length registers.now ≡ parts.now.registers }
    ensures { Answers result
        (fault_of parts.now inside again (kinds_known (known_in registers.now)) op.now) }
{
    check(parts, inside, again, registers, op)
}
