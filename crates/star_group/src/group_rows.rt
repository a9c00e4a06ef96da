// The rows that a store gives in the end.

ghost use Rattle.std.specs.Prelude.{◌≡◌, ◌≤◌, ◌&&◌, List, None, length, map, nat_eq, slice_index_or, take, IfOk};
ghost use Rattle.star_group.specs.{Base.AreGrouped, Base.group_with, Base.key_view, Keyed.all_rolled_up, Private.Coarser.AreOnce, Entries.listed_entries, StoreRows.AreRows, StoreRows.row_at};
ghost use Rattle.star_program.specs.Puts.{Update};
ghost use Rattle.star_schema.specs.Groups as groups;
ghost use Rattle.star_group.specs.Private.Given as spec;

use crate::KeyValue;
use crate::cell::{Held, shown};
use crate::keyed::ListedRows;
use crate::keyed::key::{ALL_HIDDEN, is_grouping};
use star_schema::{Aggregate, Shape};
use std::alloc::AllocError;
use std::marker::Model;

/// The rows of a group, in storage as wide as its keys and aggregates are many. A contract sees the
/// list of the rows.
#[derive(Drop)]
pub struct GroupRows {
    key_count: usize,
    rows: ListedRows,
    // The aggregates over no puts, if the rows are made of none: as many as a row has.
    nothing: Option<[Option<i128>; 8]>,
}

impl Model for GroupRows {
    ghost use Rattle.std.specs.{Prelude.{◌≤◌, List, map, take}, Option.option_map};
    ghost use Rattle.star_schema.specs.Groups.{GroupRow};
    ghost use Rattle.star_program.specs.declared.key.KeyValue.{KeyValue};
    ghost use Rattle.star_group.specs.{Private.Given.row_shown, Entries.listed_entries};

    ghost Value = { List (GroupRow KeyValue) };

    ghost view = { λ rows. map
        (row_shown (option_map (λ row. take rows.rows.aggregate_count row) rows.nothing)
        rows.key_count)
        (listed_entries rows.rows) };

    ghost invariant = { λ rows. (rows.key_count ≤ 6) × (rows.rows.aggregate_count ≤ 8) };
}

// The aggregate at a position, if there is one.
fn aggregate_at(aggregates: &[Option<i128>], index: usize) -> Option<i128>
    ensures { result ≡ slice_index_or aggregates.now index None }
{
    match aggregates.get(index) {
        Some(aggregate) => *aggregate,
        None => None,
    }
}

impl GroupRows {
    /// How many rows there are.
    pub fn len(&self) -> usize
        ensures { result ≡ length self.now }
    {
        self.rows.len()
    }

    /// The key at a position of the row of a number from 0, in which `None` is ALL; `None` if there
    /// is no such position or row.
    pub fn key(&self, number: usize, index: usize) -> Option<KeyValue>
        ensures { result ≡ slice_index_or (row_at self.now number).keys index None }
    {
        if index < self.key_count {
            self.rows.part(number, index)
        } else {
            None
        }
    }

    /// The aggregate at a position of the row of a number from 0, in which `None` is NULL; `None` if
    /// there is no such position or row.
    pub fn aggregate(&self, number: usize, index: usize) -> Option<i128>
        ensures { result ≡ slice_index_or (row_at self.now number).totals index None }
    {
        match &self.nothing {
            None => self.rows.cell(number, index),
            Some(row) => {
                if number < self.rows.len() {
                    aggregate_at(&row[..self.rows.aggregate_count], index)
                } else {
                    None
                }
            }
        }
    }
}

// The shown cells of aggregates over no puts.
fn over_nothing(aggregates: &[Aggregate]) -> [Option<i128>; 8]
    requires { length aggregates.now ≤ 8 }
    ensures { take (length aggregates.now) result ≡ map (λ g. spec.shown g None) aggregates.now }
{
    let mut row = [None; 8];
    for index in 0..aggregates.len() {
        row[index] = shown(aggregates[index], None);
    }
    row
}

// The row of all keys hidden over no puts, if that is a grouping.
fn nothing_given(
    rows: ListedRows,
    key_count: usize,
    aggregates: &[Aggregate],
) -> Result<GroupRows, AllocError>
    requires few_keys { key_count ≤ 6 }
    requires few { length aggregates.now ≤ 8 }
    requires aggregate_count { length aggregates.now ≡ rows.aggregate_count }
    requires none { length (listed_entries rows) ≡ 0 }
    ensures { IfOk result (λ given. given ≡ spec.nothing_given key_count aggregates.now) }
{
    let mut rows = rows;
    rows.push(&ALL_HIDDEN, &[Held::new(0); 8][..aggregates.len()])?;
    Ok(GroupRows {
        key_count,
        rows,
        nothing: Some(over_nothing(aggregates)),
    })
}

// Whether there are no rows, and a grouping hides all keys.
fn is_bare(rows: &ListedRows, shape: Shape, key_count: usize) -> bool
    requires { key_count ≤ 6 }
    ensures { result ≡ (nat_eq (length (listed_entries rows.now)) 0
        && groups.is_grouping shape (take key_count (key_view all_rolled_up))) }
{
    rows.len() == 0 && is_grouping(shape, key_count, &ALL_HIDDEN)
}

// The rows of a group; over no puts a grouping that hides all keys has its row too.
pub(crate) fn given(
    rows: ListedRows,
    shape: Shape,
    key_count: usize,
    aggregates: &[Aggregate],
) -> Result<GroupRows, AllocError>
    requires few_keys { key_count ≤ 6 }
    requires few { length aggregates.now ≤ 8 }
    requires aggregate_count { length aggregates.now ≡ rows.aggregate_count }
    ensures { IfOk result (λ given. AreOnce (listed_entries rows) → (puts : List Update)
        → AreGrouped (group_with shape key_count aggregates.now) (listed_entries rows) puts
        → AreRows (group_with shape key_count aggregates.now) puts given) }
{
    if is_bare(&rows, shape, key_count) {
        return nothing_given(rows, key_count, aggregates);
    }
    Ok(GroupRows {
        key_count,
        rows,
        nothing: None,
    })
}
