// The check of one instruction, and the verifier state after it.

ghost use Rattle.std.specs.{Prelude.{◌≡◌, ◌*◌, ◌+◌, ◌<◌, ◌≤◌, ◌||◌, ◌^◌, ℕ, Bool, IfOk, List, Option, None, Some, length, nat_eq}, Option.{option_map, option_or}};
ghost use Rattle.star_program.specs.Faults.{fault_of, group_at, place_fault, target_of, value_count};
ghost use Rattle.star_program.specs.{CodeOfSteps.code_of_steps, declared.fault.Fault.Fault as Wrong, Limits.IsWithinLimits, World.World};
ghost use Rattle.star_safety.specs.{Contexts.Context, Contexts.after_op, Private.Forward.open_with, Ranges.kinds_known, declared.reason.Reason.TheVariants.Faulty, Refusals.op_reason, Refusals.range_reason, Refusals.source_reason, Refusals.target_again};
ghost use Rattle.star_verify.specs.{Private.CheckResults.{AreFewAt, InEachContext, IsFirst, IsReady, IsSized, KeepsContext, HasReason}, Facts.AreFacts, Private.Kept.{AreTalliesFew, HasKeyShares, HasShares, flag_at}, Private.Made.beyond_view, Private.Views.known_in, Views.IsReason};
ghost use Rattle.star_program.specs.declared.op.Op.TheVariants as op;

use crate::contributions::{contribute, contribute_keys};
use crate::input::CheckInput;
use crate::known::Beyond;
use crate::operations::{check_source, make};
use crate::refusal::Refusal;
use crate::register::{Register, check_kinds, learn};
use crate::tally::Tally;
use star_program::{Fault, MOST_AGGREGATES, MOST_GROUPS, Op, Operation, Parts, RegisterList, Step};
use star_safety::Reason;

// The verifier state: the facts of each register in scope, the registers that earlier instructions
// write, and the contributions to the aggregates and the keys of each group.
#[derive(Drop)]
pub(crate) struct VerifierState {
    pub(crate) registers: Vec<Register>,
    pub(crate) written: Vec<bool>,
    pub(crate) tallies: Vec<Tally>,
    pub(crate) keys: Vec<Tally>,
}

// The position of an instruction: its number, whether it is inside a scan, how often it is executed
// at most, and which groups are put to in an enclosing scan or after such a scan.
#[derive(Clone, Copy)]
pub(crate) struct Position {
    pub(crate) at: u16,
    pub(crate) inside: bool,
    pub(crate) met: u64,
    pub(crate) pending: [bool; MOST_GROUPS],
}

pub(crate) fn is_written(written: &[bool], register: u16) -> bool
    ensures { result ≡ flag_at written.now register }
{
    match written.get(register as usize) {
        Some(flag) => *flag,
        None => false,
    }
}

// Marks a register as written.
#[tactic(auto, using(crate::proofs::Writing::written_more))]
pub(crate) fn note(written: &mut [bool], target: u16)
    requires { target < length written.old }
    ensures state { flag_at written.new ≡ (λ q. flag_at written.old q || nat_eq target q) }
    ensures len { length written.new ≡ length written.old }
{
    written[target as usize] = true;
}

// Returns the fault of an instruction whose target an earlier one writes.
fn again(written: &[bool], op: &Op) -> Option<Fault>
    ensures { result ≡ target_again (flag_at written.now) (target_of op.now) }
{
    match op {
        Op::Assign { target, .. } if is_written(written, *target) => Some(Fault::WrittenTwice),
        _ => None,
    }
}

// Checks an instruction by its position, its registers and their kinds.
fn check_op(
    parts: &Parts,
    inside: bool,
    registers: &[Register],
    written: &[bool],
    op: &Op,
) -> Result<(), Reason>
    requires { length registers.now ≡ parts.now.registers }
    ensures { IsReason result (option_map Faulty (fault_of parts.now inside
        (target_again (flag_at written.now) (target_of op.now))
        (kinds_known (known_in registers.now)) op.now)) }
{
    match check_kinds(parts, inside, again(written, op), registers, op) {
        Ok(()) => Ok(()),
        Err(fault) => Err(Reason::Faulty(fault)),
    }
}

// Adds the contributions of a put to the aggregates of its group.
fn put(
    input: &CheckInput<'_>,
    position: Position,
    registers: &[Register],
    tallies: &mut [Tally],
    group: u16,
    values: &RegisterList,
)
    requires there { group < length input.now.parts.now.groups }
    requires values { length values.now
        ≡ value_count (group_at input.now.parts.now group).aggregates }
    requires at { position.at ≤ 4096 }
    requires met { position.met ≤ 10 ^ 15 }
    requires tallies { length tallies.old ≡ 64 }
    requires few { AreTalliesFew tallies.old (position.at * 10 ^ 15) }
    ensures shares { (w : World) (x : Context) (keys : List ℕ) → known_in registers.now ≡ x.known
        → x.met ≡ position.met → HasShares input.now.parts.now tallies.old x
        → HasShares input.now.parts.now tallies.new
        (after_op w input.now.parts.now x (op.Put group keys values.now)) }
    ensures few { AreTalliesFew tallies.new ((position.at + 1) * 10 ^ 15) }
    ensures len { length tallies.new ≡ length tallies.old }
{
    let declared = input.parts.group_at(group);
    contribute(
        tallies,
        MOST_AGGREGATES * group as usize,
        registers,
        declared.aggregates.as_slice(),
        values.as_slice(),
        position.met,
    );
}

// Adds the contributions of a put to the keys of its group.
fn put_keys(
    parts: &Parts,
    position: Position,
    registers: &[Register],
    tallies: &mut [Tally],
    group: u16,
    keys: &RegisterList,
)
    requires limits { IsWithinLimits parts.now }
    requires there { group < length parts.now.groups }
    requires keys { length keys.now ≡ length (group_at parts.now group).keys }
    requires at { position.at ≤ 4096 }
    requires met { position.met ≤ 10 ^ 15 }
    requires tallies { length tallies.old ≡ 64 }
    requires few { AreTalliesFew tallies.old (position.at * 10 ^ 15) }
    ensures given { (w : World) (x : Context) (values : List ℕ) → known_in registers.now ≡ x.known
        → x.met ≡ position.met → HasKeyShares parts.now tallies.old x
        → HasKeyShares parts.now tallies.new (after_op w parts.now x
        (op.Put group keys.now values)) }
    ensures few { AreTalliesFew tallies.new ((position.at + 1) * 10 ^ 15) }
    ensures len { length tallies.new ≡ length tallies.old }
{
    let first = MOST_AGGREGATES * group as usize;
    contribute_keys(tallies, first, registers, keys.as_slice(), position.met);
}

impl CheckInput<'_> {
    // Returns the refusal of an instruction whose numbers leave 64 bits.
    fn overflow(&self, at: u16, beyond: Beyond) -> Refusal
        ensures { (w : World) → AreFacts w self.now.facts.now
            → IsFirst result (Some (at, beyond_view w beyond)) }
    {
        match self.facts.reached(self.alloc, beyond.reach) {
            Ok(columns) => Refusal::Refused {
                at,
                reason: Reason::Overflow {
                    low: beyond.range.low,
                    high: beyond.range.high,
                    columns,
                },
            },
            Err(_) => Refusal::OutOfMemory,
        }
    }

    // Checks the result of an operation and records its facts.
    fn assign(
        &self,
        state: &mut VerifierState,
        position: Position,
        rest: &[Step],
        target: u16,
        operation: &Operation,
    ) -> Result<(), Refusal>
        requires placed { (inside : Bool)
            × (place_fault self.now.parts.now inside (op.Assign target operation.now) ≡ None) }
        requires declared { target < self.now.parts.now.registers }
        requires ready { IsReady self.now.parts.now position state.old }
        ensures checked { InEachContext self.now position state.old (λ w x pending.
            HasReason result position.at
            (option_or (source_reason (open_with pending (code_of_steps rest.now)) x
            (op.Assign target operation.now))
            (range_reason w self.now.parts.now x (op.Assign target operation.now)))
            (KeepsContext self.now.parts.now state.new
            (after_op w self.now.parts.now x (op.Assign target operation.now)))) }
        ensures sized { IsSized self.now.parts.now state.new }
        ensures tallies { state.new.tallies ≡ state.old.tallies }
        ensures keys { state.new.keys ≡ state.old.keys }
    {
        let parts = self.parts;
        match check_source(parts, &state.registers, position.pending, rest, operation) {
            Ok(()) => match make(
                parts,
                self.facts,
                &state.registers,
                &state.tallies,
                operation,
            ) {
                Ok(known) => {
                    learn(&mut state.registers, target, known);
                    note(&mut state.written, target);
                    Ok(())
                }
                Err(beyond) => Err(self.overflow(position.at, beyond)),
            },
            Err(reason) => Err(Refusal::Refused {
                at: position.at,
                reason,
            }),
        }
    }

    // Checks an instruction whose kinds are right, and records its effect.
    fn perform(
        &self,
        state: &mut VerifierState,
        position: Position,
        rest: &[Step],
        op: &Op,
    ) -> Result<(), Refusal>
        requires fine { (inside : Bool) × (twice : Option Wrong)
            × (fault_of self.now.parts.now inside twice
            (kinds_known (known_in state.old.registers.items)) op.now ≡ None) }
        requires at { position.at ≤ 4096 }
        requires ready { IsReady self.now.parts.now position state.old }
        ensures checked { InEachContext self.now position state.old (λ w x pending.
            HasReason result position.at
            (option_or (source_reason (open_with pending (code_of_steps rest.now)) x op.now)
            (range_reason w self.now.parts.now x op.now))
            (KeepsContext self.now.parts.now state.new (after_op w self.now.parts.now x op.now))) }
        ensures sized { IsSized self.now.parts.now state.new }
        ensures few { AreFewAt state.new (position.at + 1) }
    {
        match op {
            Op::Assign { target, operation } => {
                self.assign(state, position, rest, *target, operation)
            }
            Op::Keep { .. } => Ok(()),
            Op::Put {
                group,
                keys,
                values,
            } => {
                let registers = &state.registers;
                put_keys(
                    self.parts,
                    position,
                    registers,
                    &mut state.keys,
                    *group,
                    keys,
                );
                put(
                    self,
                    position,
                    registers,
                    &mut state.tallies,
                    *group,
                    values,
                );
                Ok(())
            }
        }
    }

    // Checks an instruction that precedes these steps. `position.pending` has the groups that are put
    // to after them or in an enclosing scan.
    pub(crate) fn check_instruction(
        &self,
        state: &mut VerifierState,
        position: Position,
        rest: &[Step],
        op: &Op,
    ) -> Result<(), Refusal>
        requires at { position.at ≤ 4096 }
        requires ready { IsReady self.now.parts.now position state.old }
        ensures checked { InEachContext self.now position state.old (λ w x pending.
            HasReason result position.at
            (op_reason w self.now.parts.now (open_with pending (code_of_steps rest.now)) x op.now)
            (KeepsContext self.now.parts.now state.new (after_op w self.now.parts.now x op.now))) }
        ensures sized { IsSized self.now.parts.now state.new }
        ensures few { IfOk result (λ _. AreFewAt state.new (position.at + 1)) }
    {
        match check_op(
            self.parts,
            position.inside,
            &state.registers,
            &state.written,
            op,
        ) {
            Ok(()) => self.perform(state, position, rest, op),
            Err(reason) => Err(Refusal::Refused {
                at: position.at,
                reason,
            }),
        }
    }
}
