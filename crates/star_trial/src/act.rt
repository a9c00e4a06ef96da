// One instruction.

ghost use Rattle.std.specs.Prelude.{◌≡◌, ◌<◌, ◌^◌, ℕ, Bool, List, None, Ok, Err, MatchOption, Some, length, slice_get, unwrap_or};
ghost use Rattle.star_group.specs.{declared.eager.EagerStore.EagerStore, Eager.group_view};
ghost use Rattle.star_outcome.specs.Private.Placed.{IsPutPlaced};
ghost use Rattle.star_program.specs.{declared.program.Parts.Parts, Effects.kinds_in, Private.Doing.fitting, Puts.Update};
ghost use Rattle.star_trial.specs.Private.{Acts.{CanAct, HasActed, HasWorkedOnce, Makes, does_op}, Runs.AreStores, Views.registers_view};
ghost use Rattle.star_world.specs.WorldOf.{world_of};
ghost use Rattle.star_program.specs.declared.fault.TrapKind.TheVariants as TrapKind;
ghost use Rattle.star_program.specs.declared.op.Op.TheVariants as op;
ghost use Rattle.star_program.specs.declared.op.Operation.TheVariants as operation;
ghost use Rattle.star_program.specs.declared.value.Value.TheVariants as Value;
ghost use Rattle.star_program.specs.Effects as effects;
ghost use Rattle.star_program.specs.Faults as faults;
ghost use Rattle.star_program.specs.Puts as puts;
ghost use Rattle.star_trial.specs.declared.fault.Stop.TheVariants as Stop;

use crate::compute::{Register, answer, flag, is_within, number, row, set};
use crate::fault::Stop;
use crate::machine::Machine;
use crate::puts::put;
use star_group::EagerStore;
use star_kinds::check;
use star_outcome::lookups::{edge_index, find, load};
use star_outcome::{Flow, Work};
use star_program::{Op, Operation, RegisterList, TrapKind, Value};
use star_schema::TableId;

// An operator's answer, or what a read gives, unless it leaves 64 bits.
fn answered(answer: Option<Value>) -> Result<Value, Stop>
    ensures { MatchOption answer (result ≡ Err (Stop.Trap TrapKind.Overflow))
        (λ value. result ≡ Ok value) }
{
    match answer {
        Some(value) => Ok(value),
        None => Err(Stop::Trap(TrapKind::Overflow)),
    }
}

// Finds the row of a table with a key.
fn look_up(
    machine: &Machine<'_>,
    registers: &[Register],
    run: &mut Work<EagerStore>,
    table: TableId,
    key: u16,
) -> Result<Value, Stop>
    requires { run.old.lookups < 2 ^ 63 }
    ensures does { Makes machine.now registers.now run.old run.new (operation.Find table key)
        result }
    ensures work { HasWorkedOnce run.old run.new }
{
    match find(machine.catalogue, table, number(registers, key)) {
        Some(row) => {
            run.lookups += 1;
            Ok(Value::Row(table, row))
        }
        None => Err(Stop::Trap(TrapKind::AbsentKey)),
    }
}

// Makes one more update of a group.
fn update(
    machine: &Machine<'_>,
    registers: &[Register],
    run: &mut Work<EagerStore>,
    group: u16,
    keys: &RegisterList,
    values: &RegisterList,
) -> Result<Flow, Stop>
    requires ready { CanAct machine.now registers.now run.old }
    requires placed { IsPutPlaced machine.now.parts.now group keys.now values.now }
    requires keys { faults.keys_fault (length registers.now) (kinds_in (registers_view registers.now))
        (faults.group_at machine.now.parts.now group).keys keys.now ≡ None }
    ensures { HasActed machine.now registers.now registers.now run.old run.new
        (does_op machine.now (op.Put group keys.now values.now)) result }
{
    match put(
        &mut run.stores,
        machine.parts.group_at(group),
        registers,
        group as usize,
        keys.as_slice(),
        values.as_slice(),
    ) {
        Ok(()) => {
            run.updates += 1;
            Ok(Flow::GoesOn)
        }
        Err(fault) => Err(Stop::from(fault)),
    }
}

// A number in a register, if it has 64 bits.
#[tactic(auto, unfolding(star_interval::specs::Range::is_i64))]
fn narrowed(number: i128) -> Option<Value>
    ensures { result ≡ fitting (Value.Number number) }
{
    match i64::try_from(number) {
        Ok(number) => Some(Value::Number(number)),
        Err(_) => None,
    }
}

// Reads the total of an aggregate, or a default if it is NULL; `None` if it leaves 64 bits.
fn read(run: &Work<EagerStore>, group: u16, aggregate: u16, default: i64) -> Option<Value>
    requires there { group < length run.now.stores.items }
    requires declared { (store : EagerStore) → slice_get run.now.stores.items group ≡ Some store
        → aggregate < length (group_view store).aggregates }
    ensures { (parts : Parts) (updates_of : ℕ → List Update)
        → AreStores parts run.now.stores.items updates_of
        → result ≡ fitting (Value.Number (unwrap_or
        (puts.total_over (faults.group_at parts group).aggregates aggregate (updates_of group)) default)) }
{
    let total = run.total(group, aggregate);
    narrowed(total.unwrap_or(i128::from(default)))
}

// What an operation makes in which nothing is wrong.
fn operate(
    machine: &Machine<'_>,
    registers: &[Register],
    run: &mut Work<EagerStore>,
    operation: &Operation,
) -> Result<Value, Stop>
    requires ready { CanAct machine.now registers.now run.old }
    requires placed { (inside : Bool) × (target : ℕ)
        × (faults.place_fault machine.now.parts.now inside (op.Assign target operation.now) ≡ None) }
    requires operands { faults.operation_fault (length registers.now)
        (kinds_in (registers_view registers.now)) operation.now ≡ None }
    ensures does { Makes machine.now registers.now run.old run.new operation.now result }
    ensures work { HasWorkedOnce run.old run.new }
{
    let catalogue = machine.catalogue;
    match operation {
        Operation::Const { number } => Ok(Value::Number(*number)),
        Operation::Edge { edge, column, text } => Ok(edge_index(catalogue, *edge, *column, text)),
        Operation::Load { column, row: at } => Ok(load(catalogue, *column, row(registers, *at))),
        Operation::Find { table, key } => look_up(machine, registers, run, *table, *key),
        Operation::Binary {
            operator,
            left,
            right,
        } => answered(answer(registers, *operator, *left, *right)),
        Operation::Within { value, from, below } => {
            Ok(Value::Flag(is_within(registers, *value, *from, *below)))
        }
        Operation::Not { flag: at } => Ok(Value::Flag(!flag(registers, *at))),
        Operation::Read {
            group,
            aggregate,
            default,
        } => answered(read(run, *group, *aggregate, *default)),
    }
}

// Writes what an operation makes into a register.
fn assign(
    machine: &Machine<'_>,
    registers: &mut [Register],
    run: &mut Work<EagerStore>,
    target: u16,
    operation: &Operation,
) -> Result<Flow, Stop>
    requires ready { CanAct machine.now registers.old run.old }
    requires placed { (inside : Bool)
        × (faults.place_fault machine.now.parts.now inside (op.Assign target operation.now) ≡ None) }
    requires declared { target < length registers.old }
    requires operands { faults.operation_fault (length registers.old)
        (kinds_in (registers_view registers.old)) operation.now ≡ None }
    ensures { HasActed machine.now registers.old registers.new run.old run.new
        (does_op machine.now (op.Assign target operation.now)) result }
{
    let value = operate(machine, registers, run, operation)?;
    set(registers, target, value);
    Ok(Flow::GoesOn)
}

// What an instruction does in which nothing is wrong.
fn perform(
    machine: &Machine<'_>,
    registers: &mut [Register],
    run: &mut Work<EagerStore>,
    op: &Op,
) -> Result<Flow, Stop>
    requires ready { CanAct machine.now registers.old run.old }
    requires placed { (inside : Bool)
        × (faults.place_fault machine.now.parts.now inside op.now ≡ None) }
    requires target { faults.target_fault (length registers.old) (faults.target_of op.now) ≡ None }
    requires operands { faults.operands_fault machine.now.parts.now (kinds_in (registers_view registers.old))
        op.now ≡ None }
    ensures { HasActed machine.now registers.old registers.new run.old run.new
        (does_op machine.now op.now) result }
{
    match op {
        Op::Assign { target, operation } => assign(machine, registers, run, *target, operation),
        Op::Keep { flag: at } => Ok(Flow::of(flag(registers, *at))),
        Op::Put {
            group,
            keys,
            values,
        } => update(machine, registers, run, *group, keys, values),
    }
}

// One instruction, inside scans or not.
pub(crate) fn act(
    machine: &Machine<'_>,
    inside: bool,
    registers: &mut [Register],
    run: &mut Work<EagerStore>,
    op: &Op,
) -> Result<Flow, Stop>
    requires ready { CanAct machine.now registers.old run.old }
    ensures { HasActed machine.now registers.old registers.new run.old run.new
        (λ registers s. effects.act (world_of machine.now.catalogue.now) machine.now.parts.now
        inside registers s op.now) result }
{
    check(machine.parts, inside, None, registers, op)?;
    perform(machine, registers, run, op)
}
