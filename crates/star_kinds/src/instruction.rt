// The first fault of an instruction.

ghost use Rattle.std.specs.{Prelude.{◌≡◌, ◌<◌, Bool, None, length}, Option.option_or};
ghost use Rattle.star_program.specs.Faults as faults;
ghost use Rattle.star_program.specs.Faults.{fault_of};
ghost use Rattle.star_kinds.specs.Kinds.{Answers, register_kinds};

use crate::operands::{Wanted, check_keys, check_numbers, check_operand, check_operation};
use crate::position::{check_place, check_target};
use crate::register::Kinded;
use star_program::{Fault, Op, Parts};

fn check_put<R: Kinded>(
    parts: &Parts,
    registers: &[R],
    group: u16,
    keys: &[u16],
    values: &[u16],
) -> Result<(), Fault>
    requires there { group < length parts.now.groups }
    requires keys { length keys.now ≡ length (faults.group_at parts.now group).keys }
    ensures { Answers result (option_or (faults.keys_fault (length registers.now)
        (register_kinds R.kind registers.now) (faults.group_at parts.now group).keys keys.now)
        (faults.numbers_fault (length registers.now)
        (register_kinds R.kind registers.now) values.now)) }
{
    check_keys(registers, parts.group_at(group).keys.as_slice(), keys)?;
    check_numbers(registers, values)
}

// Checks the operands of an instruction whose group is declared.
fn check_operands<R: Kinded>(parts: &Parts, registers: &[R], op: &Op) -> Result<(), Fault>
    requires wide { length registers.now ≡ parts.now.registers }
    requires placed { (inside : Bool) × (faults.place_fault parts.now inside op.now ≡ None) }
    ensures { Answers result
        (faults.operands_fault parts.now (register_kinds R.kind registers.now) op.now) }
{
    match op {
        Op::Assign { operation, .. } => check_operation(registers, operation),
        Op::Keep { flag } => check_operand(registers, Wanted::Flag, *flag),
        Op::Put {
            group,
            keys,
            values,
        } => check_put(parts, registers, *group, keys.as_slice(), values.as_slice()),
    }
}

fn refuse(fault: Option<Fault>) -> Result<(), Fault>
    ensures { Answers result fault }
{
    match fault {
        Some(fault) => Err(fault),
        None => Ok(()),
    }
}

/// Returns `Ok` if an instruction has no fault, else its first fault, in this order: its group and
/// its position inside or outside a scan; its target, undeclared or with a fault that the caller
/// knows; its operands from the left; its columns. Allocates nothing.
pub fn check<R: Kinded>(
    parts: &Parts,
    inside: bool,
    target_fault: Option<Fault>,
    registers: &[R],
    op: &Op,
) -> Result<(), Fault>
    requires wide { length registers.now ≡ parts.now.registers }
    ensures { Answers result
        (fault_of parts.now inside target_fault (register_kinds R.kind registers.now) op.now) }
{
    check_place(parts, inside, op)?;
    check_target(parts, op)?;
    refuse(target_fault)?;
    check_operands(parts, registers, op)
}
