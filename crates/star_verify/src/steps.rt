// The check of the instructions of a body, in order.

ghost use Rattle.std.specs.Prelude.{◌≡◌, ◌*◌, ◌+◌, ◌<◌, ◌≤◌, ◌^◌, IfOk, length};
ghost use Rattle.star_schema.specs.Sizes.{size_of};
ghost use Rattle.star_program.specs.{Code.code_size, declared.program.Parts.Parts as Program, World.World, CodeOfSteps.before, CodeOfSteps.code_of_steps};
ghost use Rattle.star_safety.specs.{Contexts.Context, Contexts.after_scan, Contexts.at_end, Contexts.in_scan, Private.Forward.first_reason, Quote.turns_met, Refusals.scan_reason};
ghost use Rattle.star_verify.specs.{Private.CheckResults.{AreFewAt, AreRecorded, InEachContext, IsReady, IsSized, AreStepsChecked, KeepsContext, scan_first}, Private.Kept.flag_at, Private.StepResults.{after_step, step_first, step_size}, Views.IsReason};

use crate::input::CheckInput;
use crate::instructions::{Position, VerifierState, is_written, note};
use crate::known::Known;
use crate::open_groups::mark_puts;
use crate::refusal::Refusal;
use crate::register::{Register, learn};
use star_program::{Body, Fault, Parts, Step};
use star_safety::Reason;
use star_schema::TableId;
use std::alloc::{AllocError, Global};

// Checks the register of a scan.
fn check_target(parts: &Parts, written: &[bool], target: u16) -> Result<(), Reason>
    ensures reason { (x : Context) → flag_at written.now ≡ x.written
        → IsReason result (scan_reason parts.now x target) }
    ensures declared { IfOk result (λ _. target < parts.now.registers) }
{
    if target >= parts.registers {
        return Err(Reason::Faulty(Fault::BadRegister));
    }
    if is_written(written, target) {
        return Err(Reason::Faulty(Fault::WrittenTwice));
    }
    Ok(())
}

fn copied(alloc: Global, registers: &[Register]) -> Result<Vec<Register>, AllocError>
    ensures { IfOk result (λ copy. copy.items ≡ registers.now) }
{
    Ok(registers.iter().copied().collect(alloc)?)
}

// Records the row of a scan, which its body reads.
fn enter(state: &mut VerifierState, table: TableId, target: u16)
    requires registers { target < length state.old.registers.items }
    requires written { target < length state.old.written.items }
    ensures kept { (w : World) (parts : Program) (x : Context) → KeepsContext parts state.old x
        → KeepsContext parts state.new (in_scan w x table target) }
    ensures wide { length state.new.registers.items ≡ length state.old.registers.items }
    ensures flags { length state.new.written.items ≡ length state.old.written.items }
    ensures tallies { state.new.tallies ≡ state.old.tallies }
    ensures keys { state.new.keys ≡ state.old.keys }
{
    learn(&mut state.registers, target, Known::Row(table));
    note(&mut state.written, target);
}

impl CheckInput<'_> {
    // Checks a scan and its body, and returns the number of the next instruction. After the scan
    // the register facts are those from before it.
    #[cycle(check_steps)]
    fn scan(
        &self,
        state: &mut VerifierState,
        position: Position,
        table: TableId,
        target: u16,
        body: &Body,
    ) -> Result<u16, Refusal>
        requires size { position.at + 1 + code_size body.now ≤ 4097 }
        requires quote { position.met * size_of self.now.facts.now.sizes table
            + turns_met (size_of self.now.facts.now.sizes)
            (position.met * size_of self.now.facts.now.sizes table) body.now ≤ 10 ^ 15 }
        requires ready { IsReady self.now.parts.now position state.old }
        ensures checked { InEachContext self.now position state.old (λ w x pending.
            AreStepsChecked result
            (scan_first w self.now.parts.now pending x position.at table target body.now)
            (KeepsContext self.now.parts.now state.new (after_scan x
            (at_end w self.now.parts.now (in_scan w x table target) body.now)))) }
        ensures next { IfOk result (λ next. next ≡ position.at + 1 + code_size body.now) }
        ensures sized { IsSized self.now.parts.now state.new }
        ensures few { IfOk result (λ next. AreFewAt state.new next) }
    {
        if let Err(reason) = check_target(self.parts, &state.written, target) {
            let at = position.at;
            return Err(Refusal::Refused { at, reason });
        }
        let registers = copied(self.alloc, &state.registers)?;
        enter(state, table, target);
        let pending = position.pending;
        let inside = Position {
            at: position.at + 1,
            inside: true,
            met: position.met * u64::from(self.facts.sizes.of(table)),
            pending,
        };
        let next = self.check_steps(state, inside, body.as_slice())?;
        state.registers = registers;
        Ok(next)
    }

    // Checks a step that precedes others, and returns the number of the next instruction.
    #[cycle(check_steps)]
    fn check_step(
        &self,
        state: &mut VerifierState,
        position: Position,
        step: &Step,
        rest: &[Step],
    ) -> Result<u16, Refusal>
        requires size { position.at + code_size (before step.now (code_of_steps rest.now)) ≤ 4097 }
        requires quote { turns_met (size_of self.now.facts.now.sizes) position.met
            (before step.now (code_of_steps rest.now)) ≤ 10 ^ 15 }
        requires ready { IsReady self.now.parts.now position state.old }
        ensures checked { InEachContext self.now position state.old (λ w x pending.
            AreStepsChecked result
            (step_first w self.now.parts.now pending x position.at step.now (code_of_steps rest.now))
            (KeepsContext self.now.parts.now state.new (after_step w self.now.parts.now x step.now))) }
        ensures next { IfOk result (λ next. next ≡ position.at + step_size step.now) }
        ensures sized { IsSized self.now.parts.now state.new }
        ensures few { IfOk result (λ next. AreFewAt state.new next) }
    {
        match step {
            Step::Act(op) => {
                self.check_instruction(state, position, rest, op)?;
                Ok(position.at + 1)
            }
            Step::Scan {
                table,
                target,
                body,
            } => {
                let mut pending = position.pending;
                mark_puts(&mut pending, body.as_slice());
                mark_puts(&mut pending, rest);
                let opened = Position {
                    pending,
                    ..position
                };
                self.scan(state, opened, *table, *target, body)
            }
        }
    }

    // Checks the steps of a body, and returns the number of the next instruction. The pending
    // groups are put to after these steps or in an enclosing scan.
    #[cycle(check_steps)]
    pub(crate) fn check_steps(
        &self,
        state: &mut VerifierState,
        position: Position,
        steps: &[Step],
    ) -> Result<u16, Refusal>
        requires size { position.at + code_size (code_of_steps steps.now) ≤ 4097 }
        requires quote { turns_met (size_of self.now.facts.now.sizes) position.met
            (code_of_steps steps.now) ≤ 10 ^ 15 }
        requires ready { IsReady self.now.parts.now position state.old }
        ensures checked { InEachContext self.now position state.old (λ w x pending.
            AreStepsChecked result
            (first_reason w self.now.parts.now pending x position.at (code_of_steps steps.now))
            (AreRecorded self.now.parts.now state.new
            (at_end w self.now.parts.now x (code_of_steps steps.now)))) }
        ensures next { IfOk result
            (λ next. next ≡ position.at + code_size (code_of_steps steps.now)) }
        ensures sized { IsSized self.now.parts.now state.new }
        ensures few { IfOk result (λ next. AreFewAt state.new next) }
    {
        let mut at = position.at;
        let mut left = steps;
        let pending = position.pending;
        while let [step, rest @ ..] = left {
            let here = Position {
                at,
                pending,
                ..position
            };
            at = self.check_step(state, here, step, rest)?;
            left = rest;
        }
        Ok(at)
    }
}
