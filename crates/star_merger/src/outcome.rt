// The outcome of a query over all parts, from the outcomes over each.

ghost use Rattle.std.specs.{Prelude.{◌≡◌, ◌++◌, ◌∷◌, [], ℕ, All, IfErr, IfOk, List, OnOk, length, map}, List.flat_map};
ghost use Rattle.star_schema.specs.{Groups.GroupRow, Tables.Value};
ghost use Rattle.star_plan.specs.Meaning.{Plan, aggregate_of};
ghost use Rattle.star_compile_laws.specs.Compiled.{compiled};
ghost use Rattle.star_partial.specs.Contents.{Contents};
ghost use Rattle.star_merge.specs.{Cells.group_of, Merged.AreOfShape, Merged.AreSmall, Merged.IsMergedRows, declared.fault.MergeFault.TheVariants.OutOfMemory};
ghost use Rattle.star_merger.specs.{Mergers.IsMergerOf, Private.Outcomes.{IsMergedOutcome, IsUnmerged, all_shown}, Private.Shown.{IsUsable, counted, lookups_in, rows_shown, updates_in}, Partials.contents_of};

use crate::fault::{PartialFault, PartialsFault, fault_at};
use crate::merger::Merger;
use crate::partial::Partial;
use crate::reading::dimensions_line;
use star_engine::EngineFault;
use star_merge::{FlatRows, MergeFault, merge_rows};
use star_program::{CellRows, Items, Name, Outcome, Program, Show};
use star_schema::Aggregate;
use std::alloc::{AllocError, Global};

// Appends the rows of a partial's report. Only a partial without rows of lineorder may be refused.
fn push_report<'p>(
    partial: &'p Partial,
    index: usize,
    line: usize,
    reports: &mut Vec<&'p FlatRows>,
) -> Result<(), PartialsFault>
    ensures shown { OnOk result (map (λ rows. rows.now) reports.new.items
        ≡ map (λ rows. rows.now) reports.old.items ++ rows_shown partial.now.run) }
    ensures usable { OnOk result (IsUsable (contents_of partial.now)) }
    ensures failed { (p : Plan) (more : List Contents)
        → IfErr result (IsUnmerged p (contents_of partial.now ∷ more)) }
{
    match &partial.run {
        Some(outcome) => {
            reports.push(&outcome.rows)?;
            Ok(())
        }
        None if partial.sizes.lineorder == 0 => Ok(()),
        None => Err(fault_at(index, PartialFault::Refused { line })),
    }
}

// Appends the rows of the reports of partials, the first of which is at `index`.
fn push_reports<'p>(
    partials: &'p [Partial],
    index: usize,
    line: usize,
    reports: &mut Vec<&'p FlatRows>,
) -> Result<(), PartialsFault>
    ensures shown { OnOk result (map (λ rows. rows.now) reports.new.items
        ≡ map (λ rows. rows.now) reports.old.items ++ all_shown (map contents_of partials.now)) }
    ensures usable { OnOk result (All IsUsable (map contents_of partials.now)) }
    ensures failed { (p : Plan) → IfErr result (IsUnmerged p (map contents_of partials.now)) }
{
    match partials.split_first() {
        None => Ok(()),
        Some((first, rest)) => {
            push_report(first, index, line, reports)?;
            push_reports(rest, index.saturating_add(1), line, reports)
        }
    }
}

fn lookups_of(partial: &Partial) -> u64
    ensures { result ≡ lookups_in partial.now.run }
{
    match &partial.run {
        Some(outcome) => outcome.lookups,
        None => 0,
    }
}

fn updates_of(partial: &Partial) -> u64
    ensures { result ≡ updates_in partial.now.run }
{
    match &partial.run {
        Some(outcome) => outcome.updates,
        None => 0,
    }
}

// Returns the look-ups and the updates of partials, added up. The first is at `index`.
fn counts_of(partials: &[Partial], index: usize, line: usize) -> Result<(u64, u64), PartialsFault>
    ensures lookups { IfOk result
        (λ counts. counts.0 ≡ counted lookups_in (map contents_of partials.now)) }
    ensures updates { IfOk result
        (λ counts. counts.1 ≡ counted updates_in (map contents_of partials.now)) }
    ensures failed { (p : Plan) → IfErr result (IsUnmerged p (map contents_of partials.now)) }
{
    match partials.split_first() {
        None => Ok((0, 0)),
        Some((first, rest)) => {
            let (lookups, updates) = counts_of(rest, index.saturating_add(1), line)?;
            match (
                lookups_of(first).checked_add(lookups),
                updates_of(first).checked_add(updates),
            ) {
                (Some(lookups), Some(updates)) => Ok((lookups, updates)),
                _ => Err(fault_at(index, PartialFault::Overflow { line })),
            }
        }
    }
}

// Returns the names of shown columns.
fn names_of(alloc: Global, shows: &[Show]) -> Result<Items<Name>, AllocError>
    ensures { IfOk result (λ names. names ≡ map (λ show. show.name) shows.now) }
{
    let mut names = Vec::new(alloc);
    for show in shows {
        names.push(Items::from_vec(show.name.as_slice().to_vec(alloc)?))?;
    }
    Ok(Items::from_vec(names))
}

// Returns the aggregates of a query's program.
fn aggregates_of(alloc: Global, program: &Program) -> Result<Vec<Aggregate>, AllocError>
    ensures { (p : Plan) → program.now ≡ compiled p
        → IfOk result (λ aggregates. aggregates.items ≡ map aggregate_of p.measures) }
{
    match program.parts().groups.as_slice() {
        [group, ..] => group.aggregates.as_slice().to_vec(alloc),
        [] => Ok(Vec::new(alloc)),
    }
}

// Merges the rows of the reports, of the query of a merger.
fn merged_rows(
    alloc: Global,
    merger: &Merger,
    reports: &[&FlatRows],
) -> Result<CellRows, MergeFault>
    ensures merged { (query : List ℕ) (is : IsMergerOf query merger.now)
        (groups : List (GroupRow Value))
        → groups ≡ flat_map (λ rows. map (group_of (length is.p.keys)) rows.now) reports.now
        → AreOfShape (length is.p.keys) (map aggregate_of is.p.measures) groups
        → IfOk result (IsMergedRows is.p.shape (length is.p.keys) (map aggregate_of is.p.measures)
        is.p.sorts is.p.items groups) }
    ensures small { (query : List ℕ) (is : IsMergerOf query merger.now)
        (groups : List (GroupRow Value))
        → groups ≡ flat_map (λ rows. map (group_of (length is.p.keys)) rows.now) reports.now
        → AreSmall groups → IfErr result (λ fault. fault ≡ OutOfMemory) }
{
    let tree = merger.plan.tree();
    let aggregates = aggregates_of(alloc, &merger.program)?;
    merge_rows(
        alloc,
        tree.shape,
        tree.keys.len(),
        aggregates,
        &tree.sorts,
        &tree.items,
        reports,
    )
}

/// Returns the outcome of a query over all parts, with this number of visits.
pub(crate) fn outcome_of(
    alloc: Global,
    merger: &Merger,
    partials: &[Partial],
    visits: u64,
) -> Result<Outcome, PartialsFault>
    ensures merged { (query : List ℕ) (is : IsMergerOf query merger.now)
        → IfOk result (IsMergedOutcome is.p (map contents_of partials.now) visits) }
    ensures failed { (query : List ℕ) (is : IsMergerOf query merger.now)
        → IfErr result (IsUnmerged is.p (map contents_of partials.now)) }
{
    let line = dimensions_line(&merger.query).saturating_add(37);
    let mut reports = Vec::new(alloc);
    push_reports(partials, 0, line, &mut reports)?;
    let (lookups, updates) = counts_of(partials, 0, line)?;
    let names = names_of(alloc, merger.program.parts().shows.as_slice())?;
    match merged_rows(alloc, merger, &reports) {
        Ok(rows) => Ok(Outcome {
            names,
            rows,
            visits,
            lookups,
            updates,
        }),
        Err(MergeFault::OutOfMemory) => Err(PartialsFault::Engine(EngineFault::OutOfMemory)),
        Err(MergeFault::Overflow) => Err(fault_at(
            partials.len().saturating_sub(1),
            PartialFault::Overflow { line },
        )),
    }
}
