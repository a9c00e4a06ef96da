// The check of a whole program: its quote, then its instructions, then its report.

ghost use Rattle.std.specs.Prelude.{◌≡◌, ◌≤◌, ◌^◌, IfOk, MatchResult, None, length};
ghost use Rattle.star_schema.specs.Sizes.{size_of};
ghost use Rattle.star_program.specs.{Limits.IsWithinLimits, World.World};
ghost use Rattle.star_safety.specs.{Contexts.at_end, Contexts.at_first, Private.Forward.first_reason, Private.Forward.none_open};
ghost use Rattle.star_verify.specs.{Private.CheckResults.{AreFewAt, IsChecked, IsFirst, IsSized, KeepsContext}, Facts.AreFacts, Private.Kept.HasKeyShares};
ghost use Rattle.star_safety.specs.Quote as spec;

use crate::facts::Facts;
use crate::input::CheckInput;
use crate::instructions::{Position, VerifierState};
use crate::refusal::Refusal;
use crate::register::Register;
use crate::tally::{TALLIES, Tally};
use crate::visits::quote;
use star_kinds::misnamed_line;
use star_program::{MOST_GROUPS, Parts, Program};
use star_schema::Limits;
use std::alloc::{AllocError, Global};

// Returns the verifier state before the first instruction: no register fact, no written register,
// no put.
fn empty_state(alloc: Global, parts: &Parts) -> Result<VerifierState, AllocError>
    requires { IsWithinLimits parts.now }
    ensures kept { IfOk result (λ state. KeepsContext parts.now state at_first) }
    ensures sized { IfOk result (λ state. IsSized parts.now state) }
    ensures few { IfOk result (λ state. AreFewAt state 1) }
{
    let count = parts.registers as usize;
    Ok(VerifierState {
        registers: vec![in alloc; Register { known: None }; count]?,
        written: vec![in alloc; false; count]?,
        tallies: vec![in alloc; Tally::none(); TALLIES]?,
        keys: vec![in alloc; Tally::none(); TALLIES]?,
    })
}

// Checks the instructions in order. Returns the first refusal, or the facts about the keys of each
// group.
fn check_instructions(alloc: Global, parts: &Parts, facts: &Facts) -> Result<Vec<Tally>, Refusal>
    requires limits { IsWithinLimits parts.now }
    requires quote { spec.quote (size_of facts.now.sizes) parts.now ≤ 10 ^ 15 }
    ensures len { IfOk result (λ keys. length keys.items ≡ 64) }
    ensures first { (w : World) → AreFacts w facts.now
        → MatchResult result (λ keys. (first_reason w parts.now none_open at_first 1 parts.now.body
        ≡ None) × HasKeyShares parts.now keys.items (at_end w parts.now at_first parts.now.body))
        (λ refusal. IsFirst refusal (first_reason w parts.now none_open at_first 1 parts.now.body)) }
{
    let mut state = empty_state(alloc, parts)?;
    let pending = [false; MOST_GROUPS];
    let first = Position {
        at: 1,
        inside: false,
        met: 1,
        pending,
    };
    let input = CheckInput {
        alloc,
        parts,
        facts,
    };
    input.check_steps(&mut state, first, parts.body.as_slice())?;
    let VerifierState { keys, .. } = state;
    Ok(keys)
}

// Facts about the run of an accepted program: its quote, and facts about the keys of each group.
#[derive(Drop)]
pub(crate) struct Accepted {
    pub(crate) visits: u128,
    pub(crate) keys: Vec<Tally>,
}

// Checks a program. Returns its first refusal, or facts about its run. The quote is computed here
// even if a caller has computed it: it takes one pass over the body, and a given number would have
// to be proved to be this program's quote.
pub(crate) fn check(
    alloc: Global,
    program: &Program,
    facts: &Facts,
    limits: Limits,
) -> Result<Accepted, Refusal>
    ensures { (w : World) → AreFacts w facts.now → IsChecked result w limits.visits program.now }
{
    let visits = quote(program, &facts.sizes);
    if visits > u128::from(limits.visits) {
        return Err(Refusal::TooCostly { visits });
    }
    let parts = program.parts();
    let keys = check_instructions(alloc, parts, facts)?;
    match misnamed_line(parts) {
        None => Ok(Accepted { visits, keys }),
        Some(index) => Err(Refusal::BadShow { index }),
    }
}
