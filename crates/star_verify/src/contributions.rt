// What a put contributes to the aggregates and the keys of its group.

ghost use Rattle.std.specs.{Prelude.{◌≡◌, ◌+◌, ◌<◌, ◌≤◌, ◌∷◌, ◌⊎◌, ℕ, List, None, length, map, slice_index_or}, Option.option_map};
ghost use Rattle.star_schema.specs.declared.group.Aggregate.{Aggregate as Kind};
ghost use Rattle.star_program.specs.Faults.{value_count};
ghost use Rattle.star_safety.specs.{Contexts.known_share, Tallies.Share};
ghost use Rattle.star_verify.specs.{Private.Bounded.IsBounded, Private.Kept.HasTallyRoom, Private.Kept.IsTallyGrown, Private.Kept.numbers_known, Private.Made.IsTallyAt, Private.Views.known_in, Private.Views.known_view};

use crate::known::{Known, given, range_at, reach_at};
use crate::register::{Register, known_at};
use crate::tally::Tally;
use crate::totals::tally_at;
use star_interval::Interval;
use star_schema::Aggregate;

// Adds `met` numbers with these facts to the tally at an index.
fn add(tallies: &mut [Tally], index: usize, met: u64, known: Option<Known>)
    requires there { index < length tallies.old }
    requires room { (t : Tally) → HasTallyRoom (slice_index_or tallies.old index t) met }
    ensures given { (ss : List Share) → IsTallyAt tallies.old index ss
        → IsTallyAt tallies.new index (known_share met (option_map known_view known) ∷ ss) }
    ensures grown { (t : Tally) → IsTallyGrown (slice_index_or tallies.old index t)
        (slice_index_or tallies.new index t) met }
    ensures others { (p : ℕ) (t : Tally) → ¬ (p ≡ index)
        → slice_index_or tallies.new p t ≡ slice_index_or tallies.old p t }
    ensures len { length tallies.new ≡ length tallies.old }
{
    let tally = tally_at(tallies, index);
    tallies[index] = tally.with(met, range_at(known), reach_at(known));
}

// Returns the facts of the next aggregate's number, and the remaining values.
fn next_number<'v>(
    aggregate: Aggregate,
    registers: &[Register],
    values: &'v [u16],
) -> (Option<Known>, &'v [u16])
    ensures known { (others : List Kind) → length values.now ≡ value_count (aggregate ∷ others)
        → numbers_known (aggregate ∷ others) (known_in registers.now) values.now
        ≡ option_map known_view result.0
        ∷ numbers_known others (known_in registers.now) result.1.now }
    ensures left { (others : List Kind) → length values.now ≡ value_count (aggregate ∷ others)
        → length result.1.now ≡ value_count others }
{
    match (aggregate, values) {
        (Aggregate::Count, _) => (Some(given(Interval::point(1))), values),
        (_, [value, left @ ..]) => (known_at(registers, *value).known, left),
        (_, []) => (None, values),
    }
}

// Adds the contributions of a put to the tallies of its group, which begin at an index.
pub(crate) fn contribute(
    tallies: &mut [Tally],
    first: usize,
    registers: &[Register],
    aggregates: &[Aggregate],
    values: &[u16],
    met: u64,
)
    requires there { first + length aggregates.now ≤ length tallies.old }
    requires values { length values.now ≡ value_count aggregates.now }
    requires room { (p : ℕ) (t : Tally) → first ≤ p → p < length tallies.old
        → HasTallyRoom (slice_index_or tallies.old p t) met }
    ensures given { (a : ℕ) (ss : List Share) → a < length aggregates.now
        → IsTallyAt tallies.old (first + a) ss
        → IsTallyAt tallies.new (first + a) (known_share met (slice_index_or
        (numbers_known aggregates.now (known_in registers.now) values.now) a None) ∷ ss) }
    ensures grown { (p : ℕ) (t : Tally) → IsBounded (slice_index_or tallies.old p t)
        → IsTallyGrown (slice_index_or tallies.old p t) (slice_index_or tallies.new p t) met }
    ensures others { (p : ℕ) (t : Tally) → (p < first) ⊎ (first + length aggregates.now ≤ p)
        → slice_index_or tallies.new p t ≡ slice_index_or tallies.old p t }
    ensures len { length tallies.new ≡ length tallies.old }
{
    match aggregates {
        [] => {}
        [aggregate, others @ ..] => {
            let (known, left) = next_number(*aggregate, registers, values);
            add(tallies, first, met, known);
            contribute(tallies, first + 1, registers, others, left, met);
        }
    }
}

// Adds the contributions of a put to the tallies of the keys of its group, which begin at an index.
pub(crate) fn contribute_keys(
    tallies: &mut [Tally],
    first: usize,
    registers: &[Register],
    keys: &[u16],
    met: u64,
)
    requires there { first + length keys.now ≤ length tallies.old }
    requires room { (p : ℕ) (t : Tally) → first ≤ p → p < length tallies.old
        → HasTallyRoom (slice_index_or tallies.old p t) met }
    ensures given { (k : ℕ) (ss : List Share) → k < length keys.now
        → IsTallyAt tallies.old (first + k) ss
        → IsTallyAt tallies.new (first + k) (known_share met (slice_index_or
        (map (known_in registers.now) keys.now) k None) ∷ ss) }
    ensures grown { (p : ℕ) (t : Tally) → IsBounded (slice_index_or tallies.old p t)
        → IsTallyGrown (slice_index_or tallies.old p t) (slice_index_or tallies.new p t) met }
    ensures others { (p : ℕ) (t : Tally) → (p < first) ⊎ (first + length keys.now ≤ p)
        → slice_index_or tallies.new p t ≡ slice_index_or tallies.old p t }
    ensures len { length tallies.new ≡ length tallies.old }
{
    match keys {
        [] => {}
        [key, others @ ..] => {
            add(tallies, first, met, known_at(registers, *key).known);
            contribute_keys(tallies, first + 1, registers, others, met);
        }
    }
}
