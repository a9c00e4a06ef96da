// The check of a program over tables that are not loaded.

ghost use Rattle.std.specs.Prelude.{◌≡◌, None, IfErr, IfOk, OnOk};
ghost use Rattle.star_common.specs.Memory.{UnlessMemory};
ghost use Rattle.star_program.specs.World.{World};
ghost use Rattle.star_safety.specs.Admissible.{first_refusal};
ghost use Rattle.star_verify.specs.{declared.refusal.Refusal.TheVariants.OutOfMemory, Facts.AreFacts, Views.refusal_view};
ghost use Rattle.star_safety.specs.Quote as spec;

use crate::check::check;
use crate::facts::Facts;
use crate::refusal::Refusal;
use star_program::Program;
use star_schema::Limits;
use std::alloc::Global;

/// Returns the quote of a program over any tables with these facts, or its first refusal.
///
/// The tables need not be loaded. The result is that of `verify` over each catalogue with these
/// facts, within `limits.visits`. The only other error is `OutOfMemory`.
pub fn forecast(
    alloc: Global,
    program: &Program,
    facts: &Facts,
    limits: Limits,
) -> Result<u128, Refusal>
    ensures accepted { OnOk result ((w : World) → AreFacts w facts.now
        → first_refusal w limits.visits program.now ≡ None) }
    ensures quoted { IfOk result (λ quote. (w : World) → AreFacts w facts.now
        → quote ≡ spec.quote w.size program.now) }
    ensures refused { IfErr result (λ refusal. UnlessMemory OutOfMemory refusal
        ((w : World) → AreFacts w facts.now
        → first_refusal w limits.visits program.now ≡ refusal_view refusal)) }
{
    let accepted = check(alloc, program, facts, limits)?;
    Ok(accepted.visits)
}
