// The text of a run, written.

ghost use Rattle.std.specs.Prelude.{◌≡◌, ◌<◌, IfOk, MatchResult, length, string_bytes};
ghost use Rattle.star_report.specs.Report.{report_text};
ghost use Rattle.star_engine.specs.{Answered.HasGained, Answered.IsWritten, Answered.change, declared.fault.EngineFault.TheVariants.Write, WithNotes.IsAnsweredWithNotes, Notes.counts_line, Notes.quote_line, Private.Steps.AreBothWritten, Private.Steps.IsPart};
ghost use Rattle.star_merger.specs.Private.Written.{IsRefusedAfter, run_text_of};

use star_common::{Sink, write_whole};
use star_engine::EngineFault;
use star_partial::counts_text;
use star_program::Outcome;
use star_report::report_text;
use star_verify::Refusal;
use std::alloc::{AllocError, Global};

/// Returns the note of a quote.
#[tactic(auto, unfolding(star_engine::specs::Notes::quote_line))]
pub(crate) fn quote_note(alloc: Global, visits: u64) -> Result<String, AllocError>
    ensures { IfOk result (λ note. string_bytes note ≡ quote_line visits) }
{
    format!(in alloc; "quote {visits}\n")
}

/// Writes a nonempty text.
pub(crate) fn write_text<S: Sink>(out: &mut S, text: &[u8]) -> Result<(), EngineFault>
    requires { 0 < length text.now }
    ensures { IsWritten (change S.contents S.is_failed out.old out.new) text.now result }
{
    Ok(write_whole(out, text)?)
}

// Writes a note, after `sent` bytes of the report.
fn write_note<N: Sink>(notes: &mut N, note: &[u8], sent: u64) -> Result<(), EngineFault>
    requires { 0 < length note.now }
    ensures { MatchResult result
        (λ _. HasGained (change N.contents N.is_failed notes.old notes.new) note.now)
        (λ fault. (fault ≡ Write sent)
        × IsPart (change N.contents N.is_failed notes.old notes.new) note.now) }
{
    match write_whole(notes, note) {
        Ok(()) => Ok(()),
        Err(_) => Err(EngineFault::Write { sent }),
    }
}

/// Writes the note of a quote, and fails by the refusal.
pub(crate) fn write_refused<N: Sink>(
    refusal: Refusal,
    note: &[u8],
    notes: &mut N,
) -> Result<(), EngineFault>
    requires { 0 < length note.now }
    ensures { IsRefusedAfter (change N.contents N.is_failed notes.old notes.new) note.now refusal
        result }
{
    match write_note(notes, note, 0) {
        Ok(()) => Err(EngineFault::from(refusal)),
        Err(fault) => Err(fault),
    }
}

// Writes the report of an outcome, and then the note of its counts.
#[tactic(auto, using(crate::proofs::TextBytes::some_report, crate::proofs::TextBytes::counts_some))]
fn write_run<S: Sink, N: Sink>(
    alloc: Global,
    outcome: &Outcome,
    out: &mut S,
    notes: &mut N,
) -> Result<(), EngineFault>
    ensures { AreBothWritten (change S.contents S.is_failed out.old out.new)
        (change N.contents N.is_failed notes.old notes.new)
        (report_text outcome.now.names outcome.now.rows)
        (counts_line outcome.now.visits outcome.now.lookups outcome.now.updates) result }
{
    let report = report_text(alloc, outcome)?;
    let done = counts_text(alloc, outcome)?;
    write_text(out, report.as_slice())?;
    write_note(notes, done.as_bytes(), report.len() as u64)
}

/// Writes the note of a quote, the report of an outcome, and the note of its counts.
pub(crate) fn write_outcome<S: Sink, N: Sink>(
    alloc: Global,
    outcome: &Outcome,
    note: &[u8],
    out: &mut S,
    notes: &mut N,
) -> Result<(), EngineFault>
    requires { 0 < length note.now }
    ensures { IsAnsweredWithNotes (change S.contents S.is_failed out.old out.new)
        (change N.contents N.is_failed notes.old notes.new) (λ quoted. quoted ≡ note.now)
        (λ run. run ≡ run_text_of note.now outcome.now) (λ fault. ⊥) result }
{
    write_note(notes, note, 0)?;
    write_run(alloc, outcome, out, notes)
}
