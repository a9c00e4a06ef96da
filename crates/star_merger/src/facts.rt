// The facts of all parts of lineorder together.

ghost use Rattle.std.specs.Prelude.{◌≡◌, ◌++◌, ◌∷◌, All, ℕ, List, MatchResult, map};
ghost use Rattle.star_schema.specs.{Database.Database, Sizes.size_of};
ghost use Rattle.star_plan.specs.Meaning.{Row};
ghost use Rattle.star_partial.specs.Contents.{bounds_at};
ghost use Rattle.star_merge_laws.specs.Parts.{with_lineorder};
ghost use Rattle.star_merger.specs.{Merged.spans_of, Private.Checked.{AreChecked, AreFactsIf, AreFactsWithin, HasDimensions, IsUnchecked}, Private.Shares.{Share, contents_of_shares, whole_of}, Private.Shown.{HasFacts, HasOwnFacts}, Partials.contents_of};

use crate::dimensions::other_dimensions;
use crate::fault::{PartialFault, PartialsFault, fault_at};
use crate::partial::Partial;
use crate::reading::dimensions_line;
use crate::spans::check_spans;
use star_engine::{EngineFault, LoadFault};
use star_merge::join_bounds;
use star_merge_laws::parts::facts_are_made_of_those_of_parts;
use star_schema::{Limits, Sizes, TableId};
use star_verify::Facts;

// Returns the facts of a part and of further parts together, or none if lineorder has 2^32 rows.
fn joined(partial: &Partial, more: &Facts) -> Option<Facts>
    ensures { (database : Database) (rows others : List Row)
        → HasFacts (with_lineorder database rows) (size_of partial.now.sizes)
        (bounds_at partial.now.bounds)
        → HasFacts (with_lineorder database others) (size_of more.now.sizes)
        (bounds_at more.now.bounds) → AreFactsIf (with_lineorder database (rows ++ others)) result }
{
    facts_are_made_of_those_of_parts();
    let rows = partial.sizes.lineorder.checked_add(more.sizes.lineorder)?;
    let bounds = join_bounds(
        partial.sizes.lineorder,
        &partial.bounds,
        more.sizes.lineorder,
        &more.bounds,
    );
    let sizes = Sizes {
        lineorder: rows,
        ..partial.sizes
    };
    Some(Facts { sizes, bounds })
}

// Returns the facts of all parts together, or none if lineorder has 2^32 rows.
fn all_facts(first: &Partial, more: &[Partial]) -> Option<Facts>
    ensures { (database : Database) (share : Share) (shares : List Share)
        → map contents_of (first.now ∷ more.now) ≡ contents_of_shares (share ∷ shares)
        → All (HasOwnFacts database) (share ∷ shares)
        → AreFactsIf (whole_of database (share ∷ shares)) result }
{
    match more.split_first() {
        None => Some(Facts {
            sizes: first.sizes,
            bounds: first.bounds,
        }),
        Some((next, rest)) => {
            let facts = all_facts(next, rest)?;
            joined(first, &facts)
        }
    }
}

// Returns the facts of all parts together, or none if there is no part or too many rows.
fn facts_within(partials: &[Partial], limits: Limits) -> Option<Facts>
    ensures { (database : Database) (share : Share) (shares : List Share)
        → map contents_of partials.now ≡ contents_of_shares (share ∷ shares)
        → All (HasOwnFacts database) (share ∷ shares)
        → AreFactsWithin limits.rows (whole_of database (share ∷ shares)) result }
{
    let (first, more) = partials.split_first()?;
    let facts = all_facts(first, more)?;
    if facts.sizes.lineorder <= limits.rows {
        Some(facts)
    } else {
        None
    }
}

/// Returns the facts of all parts together. Fails if a partial has other dimensions, if there are
/// too many rows, and if spans overlap.
pub(crate) fn checked_facts(
    query: &[u8],
    partials: &[Partial],
    is_distinct: bool,
    limits: Limits,
) -> Result<Facts, PartialsFault>
    ensures { (hash : List ℕ) (database : Database) (share : Share) (shares : List Share)
        → map contents_of partials.now ≡ contents_of_shares (share ∷ shares)
        → All (HasOwnFacts database) (share ∷ shares)
        → All (λ partial. HasDimensions hash database (contents_of partial)) partials.now
        → MatchResult result (AreChecked limits.rows
        (whole_of database (share ∷ shares)) is_distinct (spans_of (map contents_of partials.now)))
        (IsUnchecked limits.rows (whole_of database (share ∷ shares)) is_distinct
        (spans_of (map contents_of partials.now))) }
{
    let line = dimensions_line(query);
    if let Some(index) = other_dimensions(partials) {
        return Err(fault_at(index, PartialFault::OtherDimensions { line }));
    }
    let Some(facts) = facts_within(partials, limits) else {
        return Err(PartialsFault::Engine(EngineFault::Load(LoadFault::TooManyRows {
            table: TableId::Lineorder,
        })));
    };
    if is_distinct {
        return Ok(facts);
    }
    match check_spans(partials, line.saturating_add(1)) {
        Ok(()) => Ok(facts),
        Err(fault) => Err(fault),
    }
}
