// The ranges in which the keys of groups are expected.

use star_catalogue::Catalogue;
use star_interval::Interval;
use star_program::{GroupDecl, GroupKey, Op, Operation, Step};
use star_schema::is_text;
use star_verify::Verified;
use std::alloc::{AllocError, Global};

// The most dense group ids of a group whatever the size of the scanned tables, and how many turns
// have to be expected for each.
const FEW_IDS: u64 = 65536;

const TURNS_AN_ID: u64 = 16;

// The most cells, aggregates times group ids, for each row of a scan that puts all of its rows: a
// group takes at most 51 bytes for each.
const CELLS_A_ROW: u64 = 3;

// The number of values in a range, if it fits 64 bits.
fn width(range: &Interval) -> Option<u64> {
    range.high.abs_diff(range.low).checked_add(1)
}

// The number of key lists in these ranges, if it fits 64 bits.
fn ids(ranges: &[Interval]) -> Option<u64> {
    let mut ids = 1_u64;
    for range in ranges {
        ids = ids.checked_mul(width(range)?)?;
    }
    Some(ids)
}

// Whether some steps of a body have a filter.
fn has_filter(steps: &[Step]) -> bool {
    for step in steps {
        if matches!(step, Step::Act(Op::Keep { .. })) {
            return true;
        }
    }
    false
}

// The number of rows of the longest table that is scanned outside of other scans; of those whose
// rows are all put, if filtered ones don't count.
fn most_rows(verified: &Verified<'_>, counts_filtered: bool) -> u64 {
    let mut most = 0;
    for step in verified.program().parts().body.as_slice() {
        if let Step::Scan { table, body, .. } = step {
            if counts_filtered || !has_filter(body.as_slice()) {
                most = most.max(verified.catalogue().rows(*table));
            }
        }
    }
    u64::from(most)
}

// The range of the codes of `entries` texts, if there is one.
fn codes(entries: u32) -> Option<Interval> {
    let high = i64::from(entries.checked_sub(1)?);
    Some(Interval { low: 0, high })
}

// The range of a key, if one is known.
fn range_of(
    verified: &Verified<'_>,
    group: usize,
    index: usize,
    key: GroupKey,
) -> Option<Interval> {
    match key {
        GroupKey::Text(column) if is_text(column) => codes(verified.catalogue().entries(column)),
        GroupKey::Text(_) => None,
        GroupKey::Number => verified.expected(group, index),
    }
}

// Whether an instruction reads a total of the group.
fn reads(op: &Op, group: usize) -> bool {
    match op {
        Op::Assign {
            operation: Operation::Read { group: read, .. },
            ..
        } => *read as usize == group,
        _ => false,
    }
}

// Whether some instruction does.
fn is_read(steps: &[Step], group: usize) -> bool {
    let mut read = false;
    for step in steps {
        match step {
            Step::Act(op) => read |= reads(op, group),
            Step::Scan { body, .. } => read |= is_read(body.as_slice(), group),
        }
    }
    read
}

// The ranges of the keys of a group, up to the first key whose range is not known.
fn known_ranges(
    alloc: Global,
    verified: &Verified<'_>,
    group: usize,
    declared: &GroupDecl,
) -> Result<Vec<Interval>, AllocError> {
    let mut ranges = Vec::new(alloc);
    for (index, key) in declared.keys.as_slice().iter().enumerate() {
        match range_of(verified, group, index, *key) {
            Some(range) => ranges.push(range)?,
            None => return Ok(ranges),
        }
    }
    Ok(ranges)
}

// Whether the key lists in these ranges are few enough for array aggregation: few compared with the
// turns of the run or the rows that are scanned, or with aggregates that are few compared with the
// rows that are put.
fn are_dense(verified: &Verified<'_>, declared: &GroupDecl, ranges: &[Interval]) -> bool {
    let Some(ids) = ids(ranges) else {
        return false;
    };
    if ids <= FEW_IDS && u128::from(ids) <= verified.quote() / u128::from(TURNS_AN_ID) {
        return true;
    }
    if ids <= most_rows(verified, true) / TURNS_AN_ID {
        return true;
    }
    let aggregates = declared.aggregates.as_slice().len() as u64;
    match ids.checked_mul(aggregates.max(1)) {
        Some(cells) => cells <= CELLS_A_ROW.saturating_mul(most_rows(verified, false)),
        None => false,
    }
}

// The ranges in which the keys of a group are expected. None is given if totals of the group are
// read, which would be added up each time, nor if more would be cleared than a run fills. (A group
// without keys has its one id all the same.)
fn ranges_of(
    alloc: Global,
    verified: &Verified<'_>,
    group: usize,
    declared: &GroupDecl,
) -> Result<Vec<Interval>, AllocError> {
    if is_read(verified.program().parts().body.as_slice(), group) {
        return Ok(Vec::new(alloc));
    }
    let ranges = known_ranges(alloc, verified, group, declared)?;
    let are_all = ranges.len() == declared.keys.as_slice().len();
    if are_all && are_dense(verified, declared, ranges.as_slice()) {
        return Ok(ranges);
    }
    Ok(Vec::new(alloc))
}

// The ranges of the keys of each group. No clause has them: they may make a run faster and change
// no answer.
pub(crate) fn expected_ranges(
    alloc: Global,
    verified: &Verified<'_>,
) -> Result<Vec<Vec<Interval>>, AllocError> {
    let groups = verified.program().parts().groups.as_slice();
    let mut ranges = Vec::with_capacity(alloc, groups.len())?;
    for (group, declared) in groups.iter().enumerate() {
        ranges.push(ranges_of(alloc, verified, group, declared)?)?;
    }
    Ok(ranges)
}
