// The counts of a run.

ghost use Rattle.std.specs.Prelude.{◌≡◌, IfOk, string_bytes};
ghost use Rattle.star_partial.specs.Counts.{counts_line};

use star_program::Outcome;
use std::alloc::{AllocError, Global};

/// Returns the line of the counts of a run.
#[tactic(auto, unfolding(crate::specs::Counts::counts_line))]
pub fn counts_text(alloc: Global, outcome: &Outcome) -> Result<String, AllocError>
    ensures { IfOk result (λ text. string_bytes text
        ≡ counts_line outcome.now.visits outcome.now.lookups outcome.now.updates) }
{
    let Outcome {
        visits,
        lookups,
        updates,
        ..
    } = outcome;
    format!(in alloc; "visits {visits} lookups {lookups} updates {updates}\n")
}
