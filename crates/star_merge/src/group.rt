// Groups that are merged, and how they compare.

ghost use Rattle.std.specs.{Prelude.{◌≡◌, None, IfOk, map, slice_index_or}, Cmp.Lexicographic.slice_cmp};
ghost use Rattle.star_schema.specs.Order.{key_cmp, value_cmp};
ghost use Rattle.star_program.specs.{CellViews.cell_viewed, RowCells.cell_of};
ghost use Rattle.star_merge.specs.{Cells.key_of, Private.RowOrder.column_order, Private.RowOrder.row_order, Private.RowOrder.sort_order};
ghost use Rattle.star_merge_laws.specs.Regrouping.{are_same};
ghost use Rattle.star_program.specs.RowCells as row_cells;

use star_program::{Cell, CellText, CellView, Items, KeptCell};
use star_schema::{Direction, GroupColumn, SortKey};
use std::alloc::{AllocError, Global};
use std::cmp::Ordering;
use std::marker::Model;

// A group: its keys, each a number, a text or ALL, and its aggregates.
#[derive(Drop)]
pub(crate) struct Group {
    keys: Vec<KeptCell>,
    totals: Vec<Option<i128>>,
}

impl Model for Group {
    ghost use Rattle.std.specs.Prelude.{map};
    ghost use Rattle.star_schema.specs.Groups.{GroupRow};
    ghost use Rattle.star_schema.specs.Tables.{Value as KeyValue};
    ghost use Rattle.star_merge.specs.Cells.{key_of};

    ghost Value = { GroupRow KeyValue };

    ghost view = { λ group. record {
      keys = map key_of group.keys.items;
      totals = group.totals.items;
    } };
}

// Keys of one position: ALL comes after every value.
fn compare_keys(a: &KeptCell, b: &KeptCell) -> Ordering
    ensures { result ≡ key_cmp value_cmp (key_of a.now) (key_of b.now) }
{
    compare_views(a.as_view(), b.as_view())
}

fn compare_views(a: CellView<'_>, b: CellView<'_>) -> Ordering
    ensures { result
        ≡ key_cmp value_cmp (key_of (cell_viewed a.entry)) (key_of (cell_viewed b.entry)) }
{
    match (a, b) {
        (CellView::Number(x), CellView::Number(y)) => x.cmp(&y),
        (CellView::Text(x), CellView::Text(y)) => x.cmp(y),
        (CellView::Number(_), _) => Ordering::Less,
        (CellView::Text(_), CellView::Number(_)) => Ordering::Greater,
        (CellView::Text(_), _) => Ordering::Less,
        (_, CellView::Number(_) | CellView::Text(_)) => Ordering::Greater,
        _ => Ordering::Equal,
    }
}

// All keys, from the left.
fn compare_key_lists(a: &[KeptCell], b: &[KeptCell]) -> Ordering
    ensures { result ≡ slice_cmp (key_cmp value_cmp) (map key_of a.now) (map key_of b.now) }
{
    match (a.split_first(), b.split_first()) {
        (Some((x, rest)), Some((y, others))) => match compare_keys(x, y) {
            Ordering::Equal => compare_key_lists(rest, others),
            decided => decided,
        },
        (Some(_), None) => Ordering::Greater,
        (None, Some(_)) => Ordering::Less,
        (None, None) => Ordering::Equal,
    }
}

impl Group {
    // The group of these keys and aggregates.
    pub(crate) fn new(keys: Vec<KeptCell>, totals: Vec<Option<i128>>) -> Group
        ensures { result ≡ record { keys = map key_of keys.items; totals = totals.items } }
    {
        Group { keys, totals }
    }

    // The aggregates.
    pub(crate) fn totals(&self) -> &[Option<i128>]
        ensures { result.now ≡ self.now.totals }
    {
        &self.totals
    }

    // The same keys with other aggregates.
    pub(crate) fn with_totals(self, totals: Vec<Option<i128>>) -> Group
        ensures { result ≡ record { keys = self.keys; totals = totals.items } }
    {
        let Group { keys, .. } = self;
        Group { keys, totals }
    }

    // The key at a position, or ALL past the last.
    fn key(&self, index: usize) -> CellView<'_>
        ensures { key_of (cell_viewed result) ≡ slice_index_or self.now.keys index None }
    {
        match self.keys.get(index) {
            Some(key) => key.as_view(),
            None => CellView::All,
        }
    }

    // The aggregate at a position, or NULL past the last.
    fn total(&self, index: usize) -> Option<i128>
        ensures { result ≡ slice_index_or self.now.totals index None }
    {
        match self.totals.get(index) {
            Some(total) => *total,
            None => None,
        }
    }

    // Whether two groups have the same keys.
    pub(crate) fn has_keys_of(&self, other: &Group) -> bool
        ensures { result ≡ are_same value_cmp self.now.keys other.now.keys }
    {
        compare_key_lists(&self.keys, &other.keys).is_eq()
    }

    // The cell of a column.
    pub(crate) fn cell(&self, alloc: Global, column: GroupColumn) -> Result<Cell, AllocError>
        ensures { IfOk result (λ cell. cell ≡ cell_of self.now column) }
    {
        match column {
            GroupColumn::Key(index) => key_cell(alloc, self.key(index as usize)),
            GroupColumn::Aggregate(index) => Ok(total_cell(self.total(index as usize))),
        }
    }
}

// A key as a report shows it.
pub(crate) fn key_cell(alloc: Global, key: CellView<'_>) -> Result<Cell, AllocError>
    ensures { IfOk result (λ cell. cell ≡ row_cells.key_cell (key_of (cell_viewed key.entry))) }
{
    match key {
        CellView::Number(number) => Ok(Cell::Number(number)),
        CellView::Text(text) => {
            let text = Items::from_vec(text.to_vec(alloc)?);
            Ok(Cell::Text(CellText::new(alloc, text)?))
        }
        CellView::All | CellView::Null => Ok(Cell::All),
    }
}

// An aggregate as a report shows it.
fn total_cell(total: Option<i128>) -> Cell
    ensures { result ≡ row_cells.total_cell total }
{
    match total {
        Some(number) => Cell::Number(number),
        None => Cell::Null,
    }
}

fn compare_at(column: GroupColumn, a: &Group, b: &Group) -> Ordering
    ensures { result ≡ column_order column a.now b.now }
{
    match column {
        GroupColumn::Key(index) => compare_views(a.key(index as usize), b.key(index as usize)),
        GroupColumn::Aggregate(index) => a.total(index as usize).cmp(&b.total(index as usize)),
    }
}

fn compare_by(sort: SortKey, a: &Group, b: &Group) -> Ordering
    ensures { result ≡ sort_order sort a.now b.now }
{
    match sort.direction {
        Direction::Ascending => compare_at(sort.column, a, b),
        Direction::Descending => compare_at(sort.column, b, a),
    }
}

// By the sort keys, and then by all keys of the groups. NULL comes before the numbers.
pub(crate) fn compare_groups(sorts: &[SortKey], a: &Group, b: &Group) -> Ordering
    ensures { result ≡ row_order sorts.now a.now b.now }
{
    match sorts {
        [] => compare_key_lists(&a.keys, &b.keys),
        [sort, rest @ ..] => match compare_by(*sort, a, b) {
            Ordering::Equal => compare_groups(rest, a, b),
            decided => decided,
        },
    }
}
