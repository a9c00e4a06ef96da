// Spans of keys.

ghost use Rattle.std.specs.Prelude.{◌≡◌, ◌<◌, ℕ, MatchOption, MatchResult, None, false, length, map, slice_index_or, true};
ghost use Rattle.star_merger.specs.{Partials.contents_of, Merged.{DoOverlap, IsOverlap, spans_of}, Private.Checked.AreDisjointSpans};
ghost use Rattle.star_merge_laws.specs.Parts.{are_disjoint, key_list_cmp};
ghost use Rattle.star_engine.specs.Partials.{line_numbers, span_view};

use crate::fault::{PartialFault, PartialsFault};
use crate::partial::Partial;
use star_partial::{LineKey, Span};
use std::cmp::Ordering;

#[tactic(auto, using(star_engine::proofs::SpanLemmas::then_equal))]
fn compare(key: LineKey, other: LineKey) -> Ordering
    ensures { result ≡ key_list_cmp (line_numbers key) (line_numbers other) }
{
    key.order.cmp(&other.order).then(key.line.cmp(&other.line))
}

// Tests whether one of two spans ends before the other begins.
fn are_disjoint(a: &Option<Span>, b: &Option<Span>) -> bool
    ensures { result ≡ are_disjoint (span_view a.now) (span_view b.now) }
{
    match (a, b) {
        (Some(a), Some(b)) => compare(a.high, b.low).is_lt() || compare(b.high, a.low).is_lt(),
        _ => true,
    }
}

// Tests the same of the spans of the partials at two positions.
fn are_disjoint_at(partials: &[Partial], other: usize, index: usize) -> bool
    requires other { other < length partials.now }
    requires index { index < length partials.now }
    ensures { let spans = spans_of (map contents_of partials.now) in
        result ≡ are_disjoint (slice_index_or spans other None) (slice_index_or spans index None) }
{
    are_disjoint(&partials[other].span, &partials[index].span)
}

// Returns the first of the positions before `index` whose span overlaps that at `index`.
fn overlapped(partials: &[Partial], index: usize) -> Option<usize>
    requires { index < length partials.now }
    ensures { let spans = spans_of (map contents_of partials.now) in
        MatchOption result ((other : ℕ) → other < index → are_disjoint
        (slice_index_or spans other None) (slice_index_or spans index None) ≡ true)
        (λ other. DoOverlap spans index other) }
{
    for other in 0..index {
        if !are_disjoint_at(partials, other, index) {
            return Some(other);
        }
    }
    None
}

/// Fails if the spans of two partials overlap. `line` is that of the span in the partial's text.
pub(crate) fn check_spans(partials: &[Partial], line: usize) -> Result<(), PartialsFault>
    ensures { MatchResult result (λ _. AreDisjointSpans (spans_of (map contents_of partials.now)))
        (IsOverlap false (spans_of (map contents_of partials.now))) }
{
    for index in 0..partials.len() {
        if let Some(other) = overlapped(partials, index) {
            return Err(PartialsFault::Partial {
                index,
                fault: PartialFault::Overlap { line },
                other: Some(other),
            });
        }
    }
    Ok(())
}
