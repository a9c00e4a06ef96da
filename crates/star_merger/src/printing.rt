// The partial of a query over loaded tables, written.

ghost use Rattle.std.specs.Prelude.{IfOk, OnOk};
ghost use Rattle.star_engine.specs.Answered.{HasWritten, change};
ghost use Rattle.star_merger.specs.Texts.{IsPartialText};

use crate::spelled::spelled_law;
use crate::writing::write_text;
use star_common::Sink;
use star_engine::{Engine, EngineFault};
use std::alloc::Global;

/// Returns the text of the partial of a query over loaded tables.
pub fn partial_text(alloc: Global, engine: &Engine, query: &[u8]) -> Result<Vec<u8>, EngineFault>
    ensures { IfOk result (λ text.
        IsPartialText engine.now.visits engine.now.database query.now text.items) }
{
    engine.law();
    let partial = engine.partial(alloc, query)?;
    spelled_law(&partial);
    Ok(partial.to_text(alloc, query)?)
}

/// Writes the text of the partial of a query over loaded tables to `out`.
#[tactic(auto, using(crate::proofs::TextBytes::partial_some))]
pub fn write_partial<S: Sink>(
    alloc: Global,
    engine: &Engine,
    query: &[u8],
    out: &mut S,
) -> Result<(), EngineFault>
    ensures { OnOk result (HasWritten (change S.contents S.is_failed out.old out.new)
        (IsPartialText engine.now.visits engine.now.database query.now)) }
{
    let text = partial_text(alloc, engine, query)?;
    write_text(out, &text)
}
