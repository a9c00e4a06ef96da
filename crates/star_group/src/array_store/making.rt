// Array aggregation before the first put, for keys that are expected in some ranges.

ghost use Rattle.std.specs.Prelude.{◌≡◌, ◌≤◌, ◌<◌, ◌+◌, ◌*◌, ◌^◌, ◌++◌, ℕ, [], length, pos, replicate, slice_index_or, IfOk, OnOk};
ghost use Rattle.star_schema.specs.declared.group.Aggregate.TheVariants.{Count};
ghost use Rattle.star_program.specs.Rows.{cut};
ghost use Rattle.star_group.specs.ById as spec;
ghost use Rattle.star_group.specs.Ids.{IsOf, id_count};

use super::span::Span;
use star_interval::Interval;
use star_program::GroupKey;
use star_schema::Aggregate;
use std::alloc::{AllocError, Global};

// The most group ids of a store. A run asks for fewer, by what it scans.
const MOST_PLACES: u32 = 1 << 28;

// A range of the one value 0.
fn single(is_code: bool) -> Span
    ensures kind { result.is_code ≡ is_code }
    ensures low { result.low ≡ pos 0 }
    ensures last { result.last ≡ 0 }
{
    Span {
        is_code,
        low: 0,
        last: 0,
    }
}

// The values of a key from one to another.
fn span_between(is_code: bool, low: i64, last: u32) -> Span
    ensures kind { result.is_code ≡ is_code }
    ensures last { result.last ≤ last }
{
    let least = if is_code { 0 } else { i64::MIN };
    let most = if is_code {
        i64::from(u32::MAX)
    } else {
        i64::MAX
    };
    match low.checked_add(i64::from(last)) {
        Some(high) if least <= low && high <= most => Span { is_code, low, last },
        _ => single(is_code),
    }
}

// The range of a key, if one is expected of at most `most` values; else that of the one value 0.
fn span_of(key: GroupKey, range: Option<&Interval>, most: u32) -> Span
    requires { 0 < most }
    ensures kind { IsOf result key }
    ensures last { result.last < most }
{
    let is_code = match key {
        GroupKey::Number => false,
        GroupKey::Text(_) => true,
    };
    let Some(range) = range else {
        return single(is_code);
    };
    match u32::try_from(range.high.abs_diff(range.low)) {
        Ok(last) if last < most => span_between(is_code, range.low, last),
        _ => single(is_code),
    }
}

// The ranges of keys and the number of group ids: a key whose range would make more than the most
// has the one value 0.
pub(super) fn spans_of(
    alloc: Global,
    keys: &[GroupKey],
    ranges: &[Interval],
) -> Result<(Vec<Span>, usize), AllocError>
    ensures keys { IfOk result (λ made. length made.0.items ≡ length keys.now) }
    ensures ids { IfOk result (λ made. made.1 ≡ id_count made.0.items) }
    ensures few { IfOk result (λ made. made.1 ≤ 2 ^ 28) }
{
    let mut spans = Vec::with_capacity(alloc, keys.len())?;
    let mut count = 1;
    let mut left = MOST_PLACES;
    for index in 0..keys.len() {
        let span = span_of(keys[index], ranges.get(index), left);
        let size = span.last + 1;
        count *= size as usize;
        left /= size;
        spans.push(span)?;
    }
    Ok((spans, count))
}

// What a cell has of an aggregate before there is a put: no number changes by it.
fn neutral(aggregate: Aggregate) -> i128
    ensures { result ≡ spec.neutral aggregate }
{
    match aggregate {
        Aggregate::Sum | Aggregate::Count => 0,
        Aggregate::Min => i128::from(i64::MAX),
        Aggregate::Max => i128::from(i64::MIN),
    }
}

// Adds the cells of one aggregate before there is a put.
fn add_blank_column(
    cells: &mut Vec<i128>,
    aggregate: Aggregate,
    ids: usize,
) -> Result<(), AllocError>
    ensures { OnOk result
        (cells.new.items ≡ cells.old.items ++ replicate ids (spec.neutral aggregate)) }
{
    let end = cells.len().checked_add(ids).ok_or(AllocError)?;
    cells.resize(end, neutral(aggregate))
}

// The cells of each aggregate before there is a put.
pub(super) fn blank_cells(
    alloc: Global,
    aggregates: &[Aggregate],
    ids: usize,
) -> Result<Vec<i128>, AllocError>
    ensures cells { IfOk result (λ cells. (a : ℕ) → a < length aggregates.now
        → slice_index_or (cut ids (length aggregates.now) cells.items) a []
        ≡ replicate ids (spec.neutral (slice_index_or aggregates.now a Count))) }
    ensures len { IfOk result (λ cells. length cells.items ≡ length aggregates.now * ids) }
{
    let all = aggregates.len().checked_mul(ids).ok_or(AllocError)?;
    let mut cells = Vec::with_capacity(alloc, all)?;
    for aggregate in aggregates {
        add_blank_column(&mut cells, *aggregate, ids)?;
    }
    Ok(cells)
}
