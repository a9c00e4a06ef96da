// The rows in which keys are ALL, made from those in which fewer are.

ghost use Rattle.std.specs.Prelude.{◌≡◌, ◌≤◌, ◌<◌, ◌+◌, ◌++◌, true, List, length, take, IfOk, OnOk};
ghost use Rattle.star_group.specs.{Private.Coarser.{IsMergedWhere, IsRolledUp, IsRolledUpWithRoom, NoneCoarser, RollsUp}, Base.{group_with, key_view, row_found}, Entries.{entries_of, listed_entries}, Private.Merged.RowsStay, Private.Numbers.{AreAsWide, FitsIn, IsNarrow}, StoreRows.AreRows};
ghost use Rattle.star_program.specs.Puts.{Update};
ghost use Rattle.star_schema.specs.Groups as groups;
ghost use Rattle.star_group.specs.Private.Coarser as spec;

use crate::GroupRows;
use crate::cell::Held;
use crate::group_rows::given;
use crate::keyed::key::{OrderedKey, is_grouping, with_all_at};
use crate::keyed::{KeyedRows, ListedRows};
use star_schema::{Aggregate, Shape};
use std::alloc::{AllocError, Global};

// A row merged into that of its coarser key, if that is a grouping.
fn merge_coarser(
    rows: &mut KeyedRows,
    shape: Shape,
    key_count: usize,
    key: &OrderedKey,
    aggregates: &[Aggregate],
    more: &[Held],
) -> Result<(), AllocError>
    requires key_count { key_count ≤ 6 }
    requires narrow { IsNarrow rows.old.listed.width key.now }
    requires fits { FitsIn rows.old aggregates.now more.now }
    requires stays { groups.is_grouping shape (take key_count (key_view key.now)) ≡ true
        → RowsStay aggregates.now (row_found (entries_of rows.old) (key_view key.now)) more.now }
    ensures ok { OnOk result (IsMergedWhere shape key_count aggregates.now (key_view key.now) more.now
        (entries_of rows.old) (entries_of rows.new)) }
    ensures widths { AreAsWide rows.old rows.new }
{
    if !is_grouping(shape, key_count, key) {
        return Ok(());
    }
    rows.merge(key, aggregates, more)
}

// The coarser rows of a pass: for each row from this one on that with ALL at this position, if that is
// a grouping, made of all rows that differ only there. The rows before have none.
fn coarser_rows(
    alloc: Global,
    rows: &ListedRows,
    shape: Shape,
    key_count: usize,
    index: usize,
    from: usize,
    aggregates: &[Aggregate],
) -> Result<KeyedRows, AllocError>
    requires key_count { key_count ≤ rows.now.width }
    requires index { index < key_count }
    requires few { length aggregates.now ≤ 8 }
    requires aggregate_count { length aggregates.now ≡ rows.now.aggregate_count }
    requires room { ∥ IsRolledUpWithRoom shape key_count aggregates.now (index + 1)
        (listed_entries rows.now) ∥₁ }
    requires from { from ≤ length (listed_entries rows.now) }
    requires none { NoneCoarser shape key_count index from (listed_entries rows.now) }
    ensures rows { IfOk result (λ made. RollsUp shape key_count aggregates.now
        (index + 1) (listed_entries rows.now) index (listed_entries rows.now ++ entries_of made)) }
    ensures width { IfOk result (λ made. made.listed.width ≡ rows.now.width) }
    ensures aggregate_count { IfOk result (λ made. made.listed.aggregate_count
        ≡ rows.now.aggregate_count) }
{
    let mut made = KeyedRows::new(alloc, rows.width, aggregates.len())?;
    for number in from..rows.len() {
        let key = with_all_at(&rows.key(number), index);
        merge_coarser(
            &mut made,
            shape,
            key_count,
            &key,
            aggregates,
            rows.row(number),
        )?;
    }
    Ok(made)
}

// The first key that may be ALL in a row of these groups.
fn first_hidden(shape: Shape, key_count: usize) -> usize
    ensures first { result ≡ spec.first_hidden shape key_count }
    ensures within { result ≤ key_count }
{
    match shape {
        Shape::Cube | Shape::Rollup => 0,
        Shape::Plain => key_count,
    }
}

// The first row that a pass makes a coarser one of, if there were `row_count` rows before the pass
// before it. The coarser rows of a rollup are a chain: each is made of those that were made last.
fn first_finer(shape: Shape, row_count: usize) -> usize
    ensures first { result ≡ spec.first_finer shape row_count }
    ensures within { result ≤ row_count }
{
    match shape {
        Shape::Rollup => row_count,
        Shape::Cube | Shape::Plain => 0,
    }
}

// The rows of the groups, from those of all keys.
fn add_coarser(
    alloc: Global,
    rows: &mut ListedRows,
    shape: Shape,
    key_count: usize,
    aggregates: &[Aggregate],
) -> Result<(), AllocError>
    requires key_count { key_count ≤ rows.old.width }
    requires few { length aggregates.now ≤ 8 }
    requires aggregate_count { length aggregates.now ≡ rows.old.aggregate_count }
    requires room { ∥ IsRolledUpWithRoom shape key_count aggregates.now key_count
        (listed_entries rows.old) ∥₁ }
    ensures rows { OnOk result (RollsUp shape key_count aggregates.now key_count
        (listed_entries rows.old) (spec.first_hidden shape key_count) (listed_entries rows.new)) }
    ensures aggregate_count { rows.new.aggregate_count ≡ rows.old.aggregate_count }
{
    let first = first_hidden(shape, key_count);
    let mut from = 0;
    let mut index = key_count;
    while index > first {
        index -= 1;
        let row_count = rows.len();
        let made = coarser_rows(alloc, rows, shape, key_count, index, from, aggregates)?;
        rows.append(&made.listed)?;
        from = first_finer(shape, row_count);
    }
    Ok(())
}

// The rows that a store gives in the end, from those of all keys.
pub(crate) fn rows_of_base(
    alloc: Global,
    base: ListedRows,
    shape: Shape,
    key_count: usize,
    aggregates: &[Aggregate],
) -> Result<GroupRows, AllocError>
    requires key_count { key_count ≤ base.width }
    requires few { length aggregates.now ≤ 8 }
    requires aggregate_count { length aggregates.now ≡ base.aggregate_count }
    requires room { ∥ IsRolledUpWithRoom shape key_count aggregates.now key_count
        (listed_entries base) ∥₁ }
    ensures { IfOk result (λ rows. (puts : List Update)
        → IsRolledUp (group_with shape key_count aggregates.now) key_count (listed_entries base) puts
        → AreRows (group_with shape key_count aggregates.now) puts rows) }
{
    let mut rows = base;
    add_coarser(alloc, &mut rows, shape, key_count, aggregates)?;
    given(rows, shape, key_count, aggregates)
}
