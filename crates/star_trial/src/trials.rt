// Programs run over a loaded catalogue, under a bound on visits.

ghost use Rattle.std.specs.Prelude.{◌≡◌, ◌≤◌, ◌^◌, IfOk, MatchResult, length, nat_lt};
ghost use Rattle.star_program.specs.{Limits.IsWithinLimits, Run.meaning_of, Values.no_registers};
ghost use Rattle.star_trial.specs.{Trials.IsFaultOfEnd, Trials.IsTrial, Private.Views.registers_view, Private.Walks.Finishes};
ghost use Rattle.star_world.specs.WorldOf.{world_of};

use crate::compute::Register;
use crate::fault::TrialFault;
use crate::machine::Machine;
use crate::walk::walk;
use star_catalogue::Catalogue;
use star_group::EagerStore;
use star_kinds::misnamed_line;
use star_outcome::Work;
use star_program::{Fault, MOST_SCANS, Outcome, Parts, Program, TrapKind};
use std::alloc::{AllocError, Global};

// Makes `count` registers that hold nothing.
fn empty_registers(alloc: Global, count: usize) -> Result<Vec<Register>, AllocError>
    ensures len { IfOk result (λ registers. length registers.items ≡ count) }
    ensures empty { IfOk result (λ registers. registers_view registers.items ≡ no_registers) }
{
    Ok(vec![in alloc; None; count]?)
}

// Runs the instructions from the first on. The registers of the program and those of the scans that
// can be nested are all the memory that it takes in addition to the groups.
fn run_through(
    alloc: Global,
    catalogue: &Catalogue,
    parts: &Parts,
    most: u64,
) -> Result<Work<EagerStore>, TrialFault>
    requires limits { IsWithinLimits parts.now }
    requires most { most ≤ 10 ^ 15 }
    ensures { MatchResult result
        (λ run. Finishes catalogue.now parts.now run
        (meaning_of (world_of catalogue.now) (λ visits. nat_lt visits most) parts.now))
        (IsFaultOfEnd (meaning_of (world_of catalogue.now) (λ visits. nat_lt visits most) parts.now)) }
{
    let wide = parts.registers as usize;
    let mut registers = empty_registers(alloc, wide)?;
    let mut frames = empty_registers(alloc, MOST_SCANS as usize * wide)?;
    let mut run = Work::new(alloc, parts, &[])?;
    let machine = Machine {
        catalogue,
        parts,
        most,
    };
    walk(
        &machine,
        &parts.body,
        1,
        false,
        registers.as_mut_slice(),
        frames.as_mut_slice(),
        &mut run,
    )?;
    Ok(run)
}

/// Runs a program, whether or not anything could be refused in it, over a loaded catalogue, with at
/// most `visits` visits: a visit is a turn of a scan, one for each row.
///
/// Answers the rows of the reported group in order, and how many turns of scans were begun, how
/// many finds were reached and how many puts went through. The first in the order of the run
/// decides: its end, a trap with its kind and the number of its instruction, or `Limit` if one
/// more turn would begin. Instructions are numbered from 1 in the order of the text, a scan before
/// its body; a trap at 0 is a report that names a group or a column that is not there, or has no
/// show line, and comes before the first instruction. Memory may be refused at any time.
pub fn trial(
    alloc: Global,
    catalogue: &Catalogue,
    program: &Program,
    visits: u64,
) -> Result<Outcome, TrialFault>
    requires { visits ≤ 10 ^ 15 }
    ensures { IsTrial (world_of catalogue.now) program.now visits result }
{
    let parts = program.parts();
    match misnamed_line(parts) {
        Some(_) => Err(TrialFault::Trap {
            at: 0,
            kind: TrapKind::Wrong(Fault::BadGroup),
        }),
        None => {
            let run = run_through(alloc, catalogue, parts, visits)?;
            Ok(run.into_outcome(alloc, catalogue, parts)?)
        }
    }
}
