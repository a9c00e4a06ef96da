// Checks the position of an instruction, its group, and that its target is declared.

ghost use Rattle.std.specs.Prelude.{◌≡◌, ◌&&◌, length, nat_eq, nat_lt};
ghost use Rattle.star_program.specs.declared.fault.Fault.TheVariants.{BadGroup};
ghost use Rattle.star_program.specs.Faults as faults;
ghost use Rattle.star_kinds.specs.Kinds.{Answers};

use star_program::{Fault, Op, Operation, Parts};
use star_schema::Aggregate;

// Returns the number of values of a put: one for each aggregate except COUNT.
fn value_count(aggregates: &[Aggregate]) -> usize
    ensures { result ≡ faults.value_count aggregates.now }
{
    let mut count = 0;
    for aggregate in aggregates {
        if *aggregate != Aggregate::Count {
            count += 1;
        }
    }
    count
}

fn check_put_group(parts: &Parts, group: u16, keys: &[u16], values: &[u16]) -> Result<(), Fault>
    ensures { Answers result (faults.unless (nat_lt group (length parts.now.groups)
        && (nat_eq (length keys.now) (length (faults.group_at parts.now group).keys)
        && nat_eq (length values.now)
        (faults.value_count (faults.group_at parts.now group).aggregates))) BadGroup) }
{
    match parts.group(group) {
        Some(declared)
            if keys.len() == declared.keys.as_slice().len()
                && values.len() == value_count(declared.aggregates.as_slice()) => { Ok(()) }
        _ => Err(Fault::BadGroup),
    }
}

fn check_read_group(parts: &Parts, group: u16, aggregate: u16) -> Result<(), Fault>
    ensures { Answers result (faults.unless (nat_lt group (length parts.now.groups)
        && nat_lt aggregate (length (faults.group_at parts.now group).aggregates)) BadGroup) }
{
    match parts.group(group) {
        Some(declared) if (aggregate as usize) < declared.aggregates.as_slice().len() => Ok(()),
        _ => Err(Fault::BadGroup),
    }
}

// Checks that an instruction is allowed inside or outside a scan, and that its group is declared as
// it requires.
pub(crate) fn check_place(parts: &Parts, inside: bool, op: &Op) -> Result<(), Fault>
    ensures { Answers result (faults.place_fault parts.now inside op.now) }
{
    match op {
        Op::Keep { .. } if !inside => Err(Fault::Misplaced),
        Op::Put {
            group,
            keys,
            values,
        } => check_put_group(parts, *group, keys.as_slice(), values.as_slice()),
        Op::Assign {
            operation: Operation::Read {
                group,
                aggregate,
                ..
            },
            ..
        } => check_read_group(parts, *group, *aggregate),
        _ => Ok(()),
    }
}

// Checks that the register that an instruction writes is declared.
pub(crate) fn check_target(parts: &Parts, op: &Op) -> Result<(), Fault>
    ensures { Answers result (faults.target_fault parts.now.registers (faults.target_of op.now)) }
{
    match op {
        Op::Assign { target, .. } if *target >= parts.registers => Err(Fault::BadRegister),
        _ => Ok(()),
    }
}
