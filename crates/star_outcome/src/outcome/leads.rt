// Rows by their numbers, each with its values in the two columns by which it is compared first, so
// that most comparisons of a sort read no row.

ghost use Rattle.std.specs.{Prelude.◌≡◌, Prelude.IfOk, Prelude.length, Prelude.map, List.range_with_len};
ghost use Rattle.star_group.specs.StoreRows.{row_at};
ghost use Rattle.star_outcome.specs.Private.Leads.{leads_cmp, led_at};
ghost use Rattle.star_outcome.specs.Private.Leads as spec;

use star_group::{GroupRows, KeyValue};
use star_schema::{Direction, GroupColumn, SortKey};
use std::alloc::{AllocError, Global};
use std::cmp::Ordering;

// What a key or an aggregate is compared by: NULL comes first, then numbers, codes, and ALL last;
// or the other way round. Numbers beyond an end have the lead of the end.
const NULL: i64 = i64::MIN;

const LEAST: i64 = i64::MIN + 1;

const GREATEST: i64 = 4_611_686_018_427_387_904;

const FIRST_CODE: i64 = GREATEST + 1;

const CODE_END: i64 = 4_611_686_022_722_355_201;

const ALL: i64 = i64::MAX;

// The number of a row, and its leads: in the column that is compared first, and in the next. The
// number takes four bytes, as in the links of a store: a group of 2^32 rows or more is reported as
// refused memory.
#[derive(Clone, Copy)]
pub(super) struct Led {
    lead: i64,
    next: i64,
    number: u32,
}

impl Led {
    // The number of the row.
    pub(super) fn number(&self) -> usize
        ensures { result ≡ self.now.number }
    {
        self.number as usize
    }
}

// By the leads only.
pub(super) fn compare_leads(a: &Led, b: &Led) -> Ordering
    ensures { result ≡ leads_cmp a.now b.now }
{
    match a.lead.cmp(&b.lead) {
        Ordering::Equal => a.next.cmp(&b.next),
        decided => decided,
    }
}

fn number_lead(number: i128) -> i64
    ensures { result ≡ spec.number_lead number }
{
    i128::from(LEAST).max(number.min(i128::from(GREATEST))) as i64
}

fn key_lead(key: Option<KeyValue>) -> i64
    ensures { result ≡ spec.key_lead key }
{
    match key {
        None => ALL,
        Some(KeyValue::Number(number)) => number_lead(i128::from(number)),
        Some(KeyValue::Code(code)) => FIRST_CODE + i64::from(code),
    }
}

fn total_lead(total: Option<i128>) -> i64
    ensures { result ≡ spec.total_lead total }
{
    match total {
        None => NULL,
        Some(number) => number_lead(number),
    }
}

fn column_lead(column: GroupColumn, rows: &GroupRows, number: usize) -> i64
    ensures { result ≡ spec.column_lead column (row_at rows.now number) }
{
    match column {
        GroupColumn::Key(index) => key_lead(rows.key(number, index as usize)),
        GroupColumn::Aggregate(index) => total_lead(rows.aggregate(number, index as usize)),
    }
}

// Whether several numbers may have this lead.
fn is_end(lead: i64) -> bool
    ensures { result ≡ spec.is_end lead }
{
    !(LEAST < lead) || lead == GREATEST || lead == CODE_END
}

// Descending, the greater value is less.
fn directed(direction: Direction, lead: i64) -> i64
    ensures { result ≡ spec.directed direction lead }
{
    match direction {
        Direction::Ascending => lead,
        Direction::Descending => -1 - lead,
    }
}

// By the first sort key.
fn first_lead(sorts: &[SortKey], rows: &GroupRows, number: usize) -> i64
    ensures { result ≡ spec.first_lead sorts.now (row_at rows.now number) }
{
    match sorts {
        [] => NULL,
        [sort, ..] => directed(sort.direction, column_lead(sort.column, rows, number)),
    }
}

fn led_row(sorts: &[SortKey], rows: &GroupRows, number: u32) -> Led
    ensures { result ≡ led_at sorts.now rows.now number }
{
    match sorts {
        [] => Led {
            lead: NULL,
            next: NULL,
            number,
        },
        [sort, rest @ ..] => {
            let lead = column_lead(sort.column, rows, number as usize);
            Led {
                lead: directed(sort.direction, lead),
                next: if is_end(lead) {
                    NULL
                } else {
                    first_lead(rest, rows, number as usize)
                },
                number,
            }
        }
    }
}

// All rows, from the first one on.
pub(super) fn all_led(
    alloc: Global,
    sorts: &[SortKey],
    rows: &GroupRows,
) -> Result<Vec<Led>, AllocError>
    ensures { IfOk result
        (λ all. all.items ≡ map (led_at sorts.now rows.now) (range_with_len 0 (length rows.now))) }
{
    let count = u32::try_from(rows.len()).map_err(|_| AllocError)?;
    let mut all = Vec::with_capacity(alloc, rows.len())?;
    for number in 0..count {
        all.push(led_row(sorts, rows, number))?;
    }
    Ok(all)
}

// The numbers of the rows.
pub(super) fn numbers_of(alloc: Global, all: &[Led]) -> Result<Vec<usize>, AllocError>
    ensures { IfOk result (λ numbers. numbers.items ≡ map (λ led. led.number) all.now) }
{
    all.iter().map(|led| led.number()).collect(alloc)
}
