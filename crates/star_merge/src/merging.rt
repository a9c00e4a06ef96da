// Groups of partial reports, merged as they are read.

ghost use Rattle.std.specs.{Prelude.{◌≡◌, ◌++◌, ℕ, List, [], None, IfErr, IfOk, OnOk, map, replicate}, List.flat_map};
ghost use Rattle.star_schema.specs.{Groups.GroupRow, Order.value_cmp, Tables.Value};
ghost use Rattle.star_program.specs.RowCells.{cell_of};
ghost use Rattle.star_merge.specs.{Cells.group_of, Cells.key_of, Cells.total_of, Merged.AreOfShape, Merged.AreSmall, Merged.IsMergedRows, Private.Adding.HasMerged, Private.Adding.empty_total, declared.fault.MergeFault.TheVariants.OutOfMemory};
ghost use Rattle.star_merge_laws.specs.Regrouping.{all_added, added};

use crate::fault::MergeFault;
use crate::flat::FlatRows;
use crate::group::Group;
use crate::groupings::{is_grouping, push_groupings};
use crate::sums::{add_up, sort_groups};
use crate::totals::totals_over_none;
use star_program::{Cell, CellRows, CellView, KeptCell};
use star_schema::{Aggregate, GroupColumn, Shape, SortKey};
use std::alloc::{AllocError, Global};

// Groups that were added so far, each under every grouping of its keys. Groups with equal keys are
// merged whenever their number has doubled, so that no more memory is taken than twice that of the
// merged groups and the groups that were added last.
#[derive(Drop)]
pub(crate) struct Merging {
    pub(crate) shape: Shape,
    pub(crate) count: usize,
    pub(crate) aggregates: Vec<Aggregate>,
    pub(crate) groups: Vec<Group>,
    merged: usize,
}

// The fewest groups that are merged before the end.
const FEWEST: usize = 16_384;

// Keys that are all hidden.
fn hidden_keys(alloc: Global, count: usize) -> Result<Vec<KeptCell>, AllocError>
    ensures { IfOk result (λ keys. map key_of keys.items ≡ replicate count None) }
{
    let mut keys = Vec::with_capacity(alloc, count)?;
    for _index in 0..count {
        keys.push(KeptCell::new(alloc, Cell::All)?)?;
    }
    Ok(keys)
}

// The group of all rows, over none, if the shape has it.
fn groups_of_none(
    alloc: Global,
    shape: Shape,
    count: usize,
    aggregates: &[Aggregate],
) -> Result<Vec<Group>, AllocError>
    ensures { IfOk result
        (λ groups. groups.items ≡ empty_total {K = Value} shape count aggregates.now) }
{
    let mut groups = Vec::new(alloc);
    let keys = hidden_keys(alloc, count)?;
    if is_grouping(shape, &keys) {
        groups.push(Group::new(keys, totals_over_none(alloc, aggregates)?))?;
    }
    Ok(groups)
}

// The aggregates that some cells show.
fn totals_in(alloc: Global, cells: &[KeptCell]) -> Result<Vec<Option<i128>>, AllocError>
    ensures { IfOk result (λ totals. totals.items ≡ map total_of cells.now) }
{
    let mut totals = Vec::with_capacity(alloc, cells.len())?;
    for cell in cells {
        totals.push(match cell.as_view() {
            CellView::Number(number) => Some(number),
            _ => None,
        })?;
    }
    Ok(totals)
}

// Adds a group, given by its cells, under each grouping of its keys.
fn push_row(
    alloc: Global,
    shape: Shape,
    count: usize,
    row: &[KeptCell],
    groups: &mut Vec<Group>,
) -> Result<(), AllocError>
    ensures { OnOk result (groups.new.items
        ≡ groups.old.items ++ added shape (group_of count row.now)) }
{
    let (keys, totals) = row.split_at(count.min(row.len()));
    let totals = totals_in(alloc, totals)?;
    push_groupings(alloc, shape, &totals, Vec::new(alloc), keys, groups)
}

// Adds groups, given by their cells, each under every grouping of its keys.
#[tactic(auto, using(crate::proofs::Steps::rows_more))]
fn push_rows(
    alloc: Global,
    shape: Shape,
    count: usize,
    rows: &CellRows,
    groups: &mut Vec<Group>,
) -> Result<(), AllocError>
    ensures { OnOk result (groups.new.items
        ≡ groups.old.items ++ all_added shape (map (group_of count) rows.now)) }
{
    for number in 0..rows.len() {
        push_row(alloc, shape, count, rows.row(number), groups)?;
    }
    Ok(())
}

// The cells of a group in some columns.
fn push_cells(
    alloc: Global,
    group: &Group,
    items: &[GroupColumn],
    cells: &mut Vec<KeptCell>,
) -> Result<(), AllocError>
    ensures { OnOk result (cells.new.items ≡ cells.old.items ++ map (cell_of group.now) items.now) }
{
    for item in items {
        let cell = group.cell(alloc, *item)?;
        cells.push(KeptCell::new(alloc, cell)?)?;
    }
    Ok(())
}

// The cells of all groups in some columns, one group after another.
fn all_cells(
    alloc: Global,
    groups: &[Group],
    items: &[GroupColumn],
) -> Result<Vec<KeptCell>, AllocError>
    ensures { IfOk result (λ cells. cells.items
        ≡ flat_map (λ group. map (cell_of group) items.now) groups.now) }
{
    let mut cells = Vec::new(alloc);
    for group in groups {
        push_cells(alloc, group, items, &mut cells)?;
    }
    Ok(cells)
}

// The same, a row for each group.
fn cell_rows(alloc: Global, groups: &[Group], items: &[GroupColumn]) -> Result<CellRows, AllocError>
    ensures { IfOk result (λ rows. rows ≡ map (λ group. map (cell_of group) items.now) groups.now) }
{
    let cells = all_cells(alloc, groups, items)?;
    Ok(CellRows::from_cells(items.len(), groups.len(), cells))
}

impl Merging {
    // No group as yet, for groups of `count` keys.
    fn new(
        alloc: Global,
        shape: Shape,
        count: usize,
        aggregates: Vec<Aggregate>,
    ) -> Result<Merging, AllocError>
        ensures { IfOk result (λ merging. HasMerged shape count aggregates.items [] merging) }
    {
        let groups = groups_of_none(alloc, shape, count, &aggregates)?;
        let merged = groups.len();
        Ok(Merging {
            shape,
            count,
            aggregates,
            groups,
            merged,
        })
    }

    // The same, with groups of equal keys merged if there are many.
    fn compacted(self, alloc: Global) -> Result<Merging, MergeFault>
        ensures merged { (s : Shape) (count : ℕ) (gs : List Aggregate) (plain : List (GroupRow Value))
            → HasMerged s count gs plain self
            → IfOk result (HasMerged s count gs plain) }
        ensures small { (s : Shape) (count : ℕ) (gs : List Aggregate) (plain : List (GroupRow Value))
            → HasMerged s count gs plain self → AreSmall plain
            → IfErr result (λ fault. fault ≡ OutOfMemory) }
    {
        let Merging {
            shape,
            count,
            aggregates,
            groups,
            merged,
        } = self;
        if groups.len() / 2 <= merged.max(FEWEST) {
            return Ok(Merging {
                shape,
                count,
                aggregates,
                groups,
                merged,
            });
        }
        let groups = add_up(alloc, &aggregates, groups)?;
        let merged = groups.len();
        Ok(Merging {
            shape,
            count,
            aggregates,
            groups,
            merged,
        })
    }

    // Adds plain groups.
    fn with_rows(self, alloc: Global, rows: &FlatRows) -> Result<Merging, MergeFault>
        ensures merged { (s : Shape) (count : ℕ) (gs : List Aggregate) (plain : List (GroupRow Value))
            → HasMerged s count gs plain self
            → IfOk result (HasMerged s count gs (plain ++ map (group_of count) rows.now)) }
        ensures small { (s : Shape) (count : ℕ) (gs : List Aggregate) (plain : List (GroupRow Value))
            → HasMerged s count gs plain self → AreSmall (plain ++ map (group_of count) rows.now)
            → IfErr result (λ fault. fault ≡ OutOfMemory) }
    {
        let mut more = self;
        let rows = rows.unpacked(alloc)?;
        push_rows(alloc, more.shape, more.count, &rows, &mut more.groups)?;
        more.compacted(alloc)
    }

    // Returns the merged groups in the order of a report, cut to some columns.
    fn into_rows(
        self,
        alloc: Global,
        sorts: &[SortKey],
        items: &[GroupColumn],
    ) -> Result<CellRows, MergeFault>
        ensures merged { (s : Shape) (count : ℕ) (gs : List Aggregate) (plain : List (GroupRow Value))
            → HasMerged s count gs plain self → AreOfShape count gs plain
            → IfOk result (IsMergedRows s count gs sorts.now items.now plain) }
        ensures small { (s : Shape) (count : ℕ) (gs : List Aggregate) (plain : List (GroupRow Value))
            → HasMerged s count gs plain self → AreSmall plain
            → IfErr result (λ fault. fault ≡ OutOfMemory) }
    {
        let Merging {
            aggregates,
            groups,
            ..
        } = self;
        let mut sums = add_up(alloc, &aggregates, groups)?;
        sort_groups(&mut sums, sorts)?;
        Ok(cell_rows(alloc, &sums, items)?)
    }
}

/// Merges the plain groups of partial reports, groups of `count` keys, and returns the merged groups
/// of a shape in the order of a report, cut to some columns.
///
/// The first cells of each row are a group's keys, the others its aggregates. `Overflow` if a total
/// leaves 128 bits, which no total of small groups does.
pub fn merge_rows(
    alloc: Global,
    shape: Shape,
    count: usize,
    aggregates: Vec<Aggregate>,
    sorts: &[SortKey],
    items: &[GroupColumn],
    reports: &[&FlatRows],
) -> Result<CellRows, MergeFault>
    ensures merged { (groups : List (GroupRow Value))
        → groups ≡ flat_map (λ rows. map (group_of count) rows.now) reports.now
        → AreOfShape count aggregates.items groups
        → IfOk result (IsMergedRows shape count aggregates.items sorts.now items.now groups) }
    ensures small { (groups : List (GroupRow Value))
        → groups ≡ flat_map (λ rows. map (group_of count) rows.now) reports.now
        → AreSmall groups → IfErr result (λ fault. fault ≡ OutOfMemory) }
{
    let mut merging = Merging::new(alloc, shape, count, aggregates)?;
    for rows in reports {
        merging = merging.with_rows(alloc, rows)?;
    }
    merging.into_rows(alloc, sorts, items)
}
