// The report of a query over all parts, from its partials.

ghost use Rattle.std.specs.{Prelude.{◌≡◌, ◌<◌, ◌∷◌, All, IfErr, ℕ, List, length, map, true}, List.Sorted.IsPermutation};
ghost use Rattle.star_schema.specs.Database.{TableTexts};
ghost use Rattle.star_merger.specs.{Partials.contents_of, Merged.{IsMerged, IsOverlap, IsUnprinted, spans_of}, Mergers.IsMergerOf, TextShares.{AreDistinct, IsTextShare, TextShare, all_contents, whole_texts}, Private.Outcomes.IsUnmerged, Private.Written.{IsMergedTelling, as_merge}};
ghost use Rattle.star_engine.specs.{Answered.change, Queries.IsQueryQuote, Queries.IsQueryRun, Queries.IsQueryRunError};

use crate::facts::checked_facts;
use crate::fault::PartialsFault;
use crate::merger::Merger;
use crate::outcome::outcome_of;
use crate::partial::Partial;
use crate::writing::{quote_note, write_outcome, write_refused};
use star_common::Sink;
use star_engine::EngineFault;
use star_engine::query_laws::queries_that_fit_are_answered;
use star_safety::law::admissible_programs_within_the_limit_are_not_refused;
use star_schema::Limits;
use star_verify::forecast;
use star_world::law::sound_rows_have_a_world;
use std::alloc::Global;

fn as_merge(result_of_call: Result<(), EngineFault>) -> Result<(), PartialsFault>
    ensures { result ≡ as_merge result_of_call }
{
    match result_of_call {
        Ok(()) => Ok(()),
        Err(fault) => Err(PartialsFault::Engine(fault)),
    }
}

// Writes the note of the quote, the report over all parts, and the note of its counts.
fn write_merged<S: Sink, N: Sink>(
    alloc: Global,
    merger: &Merger,
    partials: &[Partial],
    rows: u64,
    note: &[u8],
    out: &mut S,
    notes: &mut N,
) -> Result<(), PartialsFault>
    requires { 0 < length note.now }
    ensures merged { (query : List ℕ) (is : IsMergerOf query merger.now)
        → IsMerged (change S.contents S.is_failed out.old out.new)
        (change N.contents N.is_failed notes.old notes.new) (λ quoted. quoted ≡ note.now)
        (IsMergedTelling is.p (map contents_of partials.now) rows note.now) (λ fault. ⊥)
        (IsUnmerged is.p (map contents_of partials.now)) result }
    ensures unprinted { IfErr result (IsUnprinted (change S.contents S.is_failed out.old out.new)) }
{
    match outcome_of(alloc, merger, partials, rows) {
        Ok(outcome) => as_merge(write_outcome(alloc, &outcome, note, out, notes)),
        Err(fault) => Err(fault),
    }
}

impl Merger {
    /// Merges the partials of a query: writes the report over all parts to `out`, and its notes to
    /// `notes`, as `answer_query` does. There is at least one partial.
    ///
    /// All partials must have the same dimensions. Unless `is_distinct`, no two spans of keys may
    /// overlap. The query is refused if it does not fit the facts of all parts together.
    pub fn merge<S: Sink, N: Sink>(
        &self,
        alloc: Global,
        partials: &[Partial],
        is_distinct: bool,
        limits: Limits,
        out: &mut S,
        notes: &mut N,
    ) -> Result<(), PartialsFault>
        // Of partials of parts with the same dimensions, in any order; and of any partials.
        ensures merged { (query hash : List ℕ) (texts : TableTexts) (share other : TextShare)
            (shares others : List TextShare) → IsMergerOf query self.now
            → All (IsTextShare limits.rows limits.visits texts query hash) (share ∷ shares)
            → map contents_of partials.now ≡ all_contents (share ∷ shares)
            → IsPermutation (share ∷ shares) (other ∷ others)
            → (is_distinct ≡ true → AreDistinct (other ∷ others))
            → let whole = whole_texts texts (other ∷ others) in
            IsMerged (change S.contents S.is_failed out.old out.new)
            (change N.contents N.is_failed notes.old notes.new)
            (IsQueryQuote limits.rows whole query)
            (IsQueryRun limits.rows limits.visits whole query)
            (IsQueryRunError limits.rows limits.visits whole query)
            (IsOverlap is_distinct (spans_of (map contents_of partials.now))) result }
        ensures unprinted { IfErr result
            (IsUnprinted (change S.contents S.is_failed out.old out.new)) }
    {
        queries_that_fit_are_answered();
        admissible_programs_within_the_limit_are_not_refused();
        sound_rows_have_a_world();
        let facts = match checked_facts(&self.query, partials, is_distinct, limits) {
            Ok(facts) => facts,
            Err(fault) => return Err(fault),
        };
        let _bounds = facts.bounds;
        let rows = u64::from(facts.sizes.lineorder);
        let note = match quote_note(alloc, rows) {
            Ok(note) => note,
            Err(_) => return Err(PartialsFault::Engine(EngineFault::OutOfMemory)),
        };
        match forecast(alloc, &self.program, &facts, limits) {
            Ok(_) => write_merged(alloc, self, partials, rows, note.as_bytes(), out, notes),
            Err(refusal) => as_merge(write_refused(refusal, note.as_bytes(), notes)),
        }
    }
}
