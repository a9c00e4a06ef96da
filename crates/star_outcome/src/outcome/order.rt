// The order of a group's rows.

ghost use Rattle.std.specs.{Prelude.{◌≡◌, ◌≤◌, List, IfOk, length, map}, List.AllByRecursion};
ghost use Rattle.star_schema.specs.Order.{key_cmp};
ghost use Rattle.star_group.specs.{StoreRows.AreRows, StoreRows.row_at, Stores.Group};
ghost use Rattle.star_program.specs.{Keys.key_value_cmp, Puts.Update};
ghost use Rattle.star_outcome.specs.{Private.Decoded.AreSortedGroups, Private.Leads.led_cmp, Private.RowOrder.column_order, Private.RowOrder.row_order, Private.RowOrder.sort_order};
ghost use Rattle.star_outcome.specs.Private.RowOrder as spec;

use super::leads::{Led, all_led, compare_leads, numbers_of};
use star_group::{GroupRows, KeyValue};
use star_schema::{Direction, GroupColumn, SortKey};
use std::alloc::{AllocError, Global};
use std::cmp::Ordering;

// Values of one key, by number or by code.
fn compare_values(a: KeyValue, b: KeyValue) -> Ordering
    ensures { result ≡ key_value_cmp a b }
{
    match (a, b) {
        (KeyValue::Number(x), KeyValue::Number(y)) => x.cmp(&y),
        (KeyValue::Code(m), KeyValue::Code(n)) => m.cmp(&n),
        (KeyValue::Number(_), KeyValue::Code(_)) => Ordering::Less,
        (KeyValue::Code(_), KeyValue::Number(_)) => Ordering::Greater,
    }
}

// Keys of one position: ALL comes after every value.
fn compare_keys(a: Option<KeyValue>, b: Option<KeyValue>) -> Ordering
    ensures { result ≡ key_cmp key_value_cmp a b }
{
    match (a, b) {
        (Some(x), Some(y)) => compare_values(x, y),
        (Some(_), None) => Ordering::Less,
        (None, Some(_)) => Ordering::Greater,
        (None, None) => Ordering::Equal,
    }
}

// In code this orders all rows, with NULL before the numbers. In the definition NULL meets no other
// row: an aggregate is NULL in all rows of a group or in none.
fn compare_at(column: GroupColumn, rows: &GroupRows, a: usize, b: usize) -> Ordering
    ensures { result ≡ column_order column (row_at rows.now a) (row_at rows.now b) }
{
    match column {
        GroupColumn::Key(index) => {
            compare_keys(rows.key(a, index as usize), rows.key(b, index as usize))
        }
        GroupColumn::Aggregate(index) => {
            rows.aggregate(a, index as usize)
                .cmp(&rows.aggregate(b, index as usize))
        }
    }
}

fn compare_by(sort: SortKey, rows: &GroupRows, a: usize, b: usize) -> Ordering
    ensures { result ≡ sort_order sort (row_at rows.now a) (row_at rows.now b) }
{
    match sort.direction {
        Direction::Ascending => compare_at(sort.column, rows, a, b),
        Direction::Descending => compare_at(sort.column, rows, b, a),
    }
}

fn compare_rows(sorts: &[SortKey], rows: &GroupRows, a: usize, b: usize) -> Ordering
    ensures { result ≡ row_order sorts.now (row_at rows.now a) (row_at rows.now b) }
{
    match sorts {
        [] => Ordering::Equal,
        [sort, rest @ ..] => match compare_by(*sort, rows, a, b) {
            Ordering::Equal => compare_rows(rest, rows, a, b),
            decided => decided,
        },
    }
}

// By the leads, so that rows are read only if these are level.
fn compare_led(sorts: &[SortKey], rows: &GroupRows, a: &Led, b: &Led) -> Ordering
    ensures { result ≡ led_cmp sorts.now rows.now a.now b.now }
{
    match compare_leads(a, b) {
        Ordering::Equal => compare_rows(sorts, rows, a.number(), b.number()),
        decided => decided,
    }
}

// The sort keys, and then all keys of rows that have `count`.
fn all_sorts(alloc: Global, sorts: &[SortKey], count: usize) -> Result<Vec<SortKey>, AllocError>
    requires { count ≤ 6 }
    ensures { IfOk result (λ all. all.items ≡ spec.all_sorts sorts.now count) }
{
    let mut all = sorts.to_vec(alloc)?;
    for index in 0..count {
        all.push(SortKey {
            column: GroupColumn::Key(index as u16),
            direction: Direction::Ascending,
        })?;
    }
    Ok(all)
}

// The numbers of the rows of a group that has `count` keys, in the order of the rows.
pub(super) fn sorted_numbers(
    alloc: Global,
    rows: &GroupRows,
    sorts: &[SortKey],
    count: usize,
) -> Result<Vec<usize>, AllocError>
    requires few { count ≤ 6 }
    requires are { (d : Group) × (updates : List Update) × (d.count ≡ count)
        × AreRows d updates rows.now × AllByRecursion (λ update. length update.keys ≡ count) updates }
    ensures { IfOk result (λ numbers. (d : Group) (updates : List Update)
        → AreRows d updates rows.now
        → AreSortedGroups d sorts.now updates (map (row_at rows.now) numbers.items)) }
{
    let columns = all_sorts(alloc, sorts, count)?;
    let columns = columns.as_slice();
    let mut all = all_led(alloc, columns, rows)?;
    all.sort_unstable_by(|a, b| compare_led(columns, rows, a, b));
    numbers_of(alloc, all.as_slice())
}
