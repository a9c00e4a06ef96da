// The walk over a body, and the turns of its scans.

ghost use Rattle.std.specs.Prelude.{◌≡◌, ◌≤◌, ◌<◌, ◌+◌, ◌^◌, OnOk, length};
ghost use Rattle.star_program.specs.Code.{code_size, scan_depth};
ghost use Rattle.star_trial.specs.Private.{Views.registers_view, Walks.{Does, HasWorked, IsWalkReady, fault_at, means, means_scan, means_turn, means_turns}};
ghost use Rattle.star_outcome.specs.Sound.{IsSoundValue};

use crate::act::act;
use crate::compute::{Register, set};
use crate::fault::{Stop, TrialFault};
use crate::machine::{Machine, Scanned};
use star_group::EagerStore;
use star_outcome::{Flow, Work};
use star_program::{Body, Fault, Step, TrapKind, Value};

// How many instructions a body has.
fn size(body: &Body) -> u16
    requires { code_size body.now < 2 ^ 16 }
    ensures { result ≡ code_size body.now }
{
    let mut total = 0;
    for step in body.as_slice() {
        match step {
            Step::Act(_) => total += 1,
            Step::Scan { body, .. } => total += 1 + size(body),
        }
    }
    total
}

// The fault of an instruction that doesn't go on.
fn stopped(stop: Stop, at: u16) -> TrialFault
    ensures { result ≡ fault_at at stop }
{
    match stop {
        Stop::OutOfMemory => TrialFault::OutOfMemory,
        Stop::Trap(kind) => TrialFault::Trap { at, kind },
    }
}

// A turn of a scan: at a row, with the registers before the scan.
#[cycle(walk)]
fn turn(
    machine: &Machine<'_>,
    scanned: &Scanned<'_>,
    row: Value,
    registers: &mut [Register],
    frames: &mut [Register],
    run: &mut Work<EagerStore>,
) -> Result<(), TrialFault>
    requires target { scanned.now.target < machine.now.parts.now.registers }
    requires wide { length registers.old ≡ machine.now.parts.now.registers }
    requires ready { IsWalkReady machine.now scanned.now.before.now frames.old run.old
        (scan_depth scanned.now.body.now) 0 }
    requires row { IsSoundValue machine.now.catalogue.now row }
    ensures ends { Does machine.now run.old run.new
        (means_turn machine.now scanned.now (registers_view scanned.now.before.now) row) result }
    ensures worked { OnOk result (HasWorked machine.now.most run.old run.new 0) }
    ensures len { length registers.new ≡ length registers.old }
    ensures frames { length frames.new ≡ length frames.old }
{
    if run.visits >= machine.most {
        return Err(TrialFault::Limit);
    }
    run.visits += 1;
    registers.copy_from_slice(scanned.before);
    set(registers, scanned.target, row);
    walk(
        machine,
        scanned.body,
        scanned.at + 1,
        true,
        registers,
        frames,
        run,
    )
}

// The turns of a scan, one for each row of the table in order.
#[cycle(walk)]
fn turns(
    machine: &Machine<'_>,
    scanned: &Scanned<'_>,
    registers: &mut [Register],
    frames: &mut [Register],
    run: &mut Work<EagerStore>,
) -> Result<(), TrialFault>
    requires target { scanned.now.target < machine.now.parts.now.registers }
    requires wide { length registers.old ≡ machine.now.parts.now.registers }
    requires ready { IsWalkReady machine.now scanned.now.before.now frames.old run.old
        (scan_depth scanned.now.body.now) 0 }
    ensures ends { Does machine.now run.old run.new
        (means_turns machine.now scanned.now (registers_view scanned.now.before.now)) result }
    ensures worked { OnOk result (HasWorked machine.now.most run.old run.new 0) }
{
    for row in 0..machine.catalogue.rows(scanned.table) {
        let value = Value::Row(scanned.table, row);
        turn(machine, scanned, value, registers, frames, run)?;
    }
    Ok(())
}

// A scan of a table, whose own number precedes that of its body.
#[cycle(walk)]
fn scan(
    machine: &Machine<'_>,
    scanned: &Scanned<'_>,
    frames: &mut [Register],
    run: &mut Work<EagerStore>,
) -> Result<(), TrialFault>
    requires ready { IsWalkReady machine.now scanned.now.before.now frames.old run.old
        (1 + scan_depth scanned.now.body.now) 0 }
    ensures ends { Does machine.now run.old run.new
        (means_scan machine.now scanned.now (registers_view scanned.now.before.now)) result }
    ensures worked { OnOk result (HasWorked machine.now.most run.old run.new 0) }
    ensures frames { length frames.new ≡ length frames.old }
{
    if scanned.target as usize >= scanned.before.len() {
        return Err(TrialFault::Trap {
            at: scanned.at,
            kind: TrapKind::Wrong(Fault::BadRegister),
        });
    }
    let (registers, deeper) = frames.split_at_mut(scanned.before.len());
    turns(machine, scanned, registers, deeper, run)
}

// A walk over a body from an instruction on, inside scans or not: to its end or to the end of the
// turn. The frames hold the registers of the scans in it.
#[cycle(walk)]
pub(crate) fn walk(
    machine: &Machine<'_>,
    body: &Body,
    at: u16,
    inside: bool,
    registers: &mut [Register],
    frames: &mut [Register],
    run: &mut Work<EagerStore>,
) -> Result<(), TrialFault>
    requires size { code_size body.now ≤ 4096 }
    requires at { at + code_size body.now < 2 ^ 16 }
    requires ready { IsWalkReady machine.now registers.old frames.old run.old (scan_depth body.now)
        (code_size body.now) }
    ensures ends { Does machine.now run.old run.new
        (means machine.now body.now at inside (registers_view registers.old)) result }
    ensures worked { OnOk result (HasWorked machine.now.most run.old run.new (code_size body.now)) }
    ensures len { length registers.new ≡ length registers.old }
    ensures frames { length frames.new ≡ length frames.old }
{
    let mut index = at;
    for step in body.as_slice() {
        match step {
            Step::Act(op) => {
                match act(machine, inside, registers, run, op) {
                    Ok(Flow::GoesOn) => index += 1,
                    Ok(Flow::EndsTurn) => return Ok(()),
                    Err(stop) => return Err(stopped(stop, index)),
                }
            }
            Step::Scan {
                table,
                target,
                body,
            } => {
                let scanned = Scanned {
                    table: *table,
                    target: *target,
                    body,
                    at: index,
                    before: registers,
                };
                scan(machine, &scanned, frames, run)?;
                index += 1 + size(body);
            }
        }
    }
    Ok(())
}
