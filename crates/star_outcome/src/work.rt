// What a run has done so far, over stores of any kind.

ghost use Rattle.std.specs.Prelude.{◌≡◌, ◌<◌, ℕ, All, IfOk, List, None, Some, length, slice_get};
ghost use Rattle.star_schema.specs.Database.{Database};
ghost use Rattle.star_program.specs.{declared.program.Parts.Parts as Declared, Effects.State, Effects.empty_state, Faults.group_at, Limits.IsSmall, Limits.IsWithinLimits, Outcome.IsOutcome, Puts.Update, ShowLines.shown_fault};
ghost use Rattle.star_outcome.specs.Done.{AreStores, HasDone};
ghost use Rattle.star_world.specs.WorldOf.{world_of};
ghost use Rattle.star_program.specs.Puts as puts;

use crate::outcome::{names, reported_rows};
use star_catalogue::Catalogue;
use star_group::GroupStore;
use star_interval::Interval;
use star_program::{GroupDecl, Outcome, Parts};
use std::alloc::{AllocError, Global};

/// What a run has done so far: the stores of its groups, by their numbers, and how many turns of
/// scans were begun, how many finds were reached and how many puts went through.
#[derive(Drop)]
pub struct Work<S> {
    pub stores: Vec<S>,
    pub visits: u64,
    pub lookups: u64,
    pub updates: u64,
}

// The ranges in which the keys of the group of a number are expected; none if nothing is known.
fn ranges_of(ranges: &[Vec<Interval>], group: usize) -> &[Interval] {
    match ranges.get(group) {
        Some(ranges) => ranges.as_slice(),
        None => &[],
    }
}

// A store of no updates for each group.
fn empty_stores<S: GroupStore>(
    alloc: Global,
    groups: &[GroupDecl],
    ranges: &[Vec<Interval>],
) -> Result<Vec<S>, AllocError>
    requires { All IsSmall groups.now }
    ensures { IfOk result (λ stores. (parts : Declared) → parts.groups ≡ groups.now
        → AreStores S.group S.has parts stores.items empty_state.updates_of) }
{
    let mut stores = Vec::with_capacity(alloc, groups.len())?;
    for declared in groups {
        let expected = ranges_of(ranges, stores.len());
        stores.push(S::with_ranges(alloc, declared, expected)?)?;
    }
    Ok(stores)
}

// The store of the group of a number.
fn store_at<S: Drop>(mut stores: Vec<S>, group: u16) -> S
    requires { group < length stores.items }
    ensures { slice_get stores.items group ≡ Some result }
{
    stores.swap_remove(group as usize)
}

impl<S: GroupStore> Work<S> {
    /// What a run begins with: a store of no updates for each group. The keys of a group may be
    /// expected in ranges, by the group's number.
    pub fn new(
        alloc: Global,
        parts: &Parts,
        ranges: &[Vec<Interval>],
    ) -> Result<Work<S>, AllocError>
        requires { All IsSmall parts.now.groups }
        ensures { IfOk result (λ work. (database : Database)
            → HasDone S.group S.has database parts.now work empty_state) }
    {
        Ok(Work {
            stores: empty_stores(alloc, parts.groups.as_slice(), ranges)?,
            visits: 0,
            lookups: 0,
            updates: 0,
        })
    }

    /// The total of an aggregate over all updates of its group so far; `None` is NULL.
    pub fn total(&self, group: u16, aggregate: u16) -> Option<i128>
        requires there { group < length self.now.stores.items }
        requires declared { (store : S) → slice_get self.now.stores.items group ≡ Some store
            → aggregate < length (S.group store).aggregates }
        ensures { (parts : Declared) (updates_of : ℕ → List Update)
            → AreStores S.group S.has parts self.now.stores.items updates_of
            → result ≡ puts.total_over (group_at parts group).aggregates aggregate (updates_of group) }
    {
        self.stores[group as usize].total(aggregate as usize)
    }

    /// What a run gives that has come to its end: the rows of the reported group in order, cut to
    /// the show lines, and the counts.
    pub fn into_outcome(
        self,
        alloc: Global,
        catalogue: &Catalogue,
        parts: &Parts,
    ) -> Result<Outcome, AllocError>
        requires limits { IsWithinLimits parts.now }
        requires shown { shown_fault parts.now ≡ None }
        requires done { (s : State) × HasDone S.group S.has catalogue.now parts.now self s }
        ensures { (s : State) → HasDone S.group S.has catalogue.now parts.now self s
            → IfOk result (IsOutcome (world_of catalogue.now) parts.now s) }
    {
        let rows = store_at(self.stores, parts.report).into_rows()?;
        Ok(Outcome {
            names: names(alloc, parts.shows.as_slice())?,
            rows: reported_rows(alloc, catalogue, parts, rows)?,
            visits: self.visits,
            lookups: self.lookups,
            updates: self.updates,
        })
    }
}
