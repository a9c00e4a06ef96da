// One more put of the rows of its keys.

ghost use Rattle.std.specs.{Prelude.{◌≡◌, ◌+◌, ℕ, length, map, IfErr, MatchBool, OnErr, OnOk}, List.IsDistinct};
ghost use Rattle.star_common.specs.Memory.{TellsMemory, UnlessMemory};
ghost use Rattle.star_group.specs.{Private.Numbers.{AreAsWide, AreNarrow, FitsIn, HasSpace, IsNarrow}, Private.Rows.{AllStay, MergesAll, PutsRows, SomeLeaves, is_one_of}, Base.{key_view, row_found}, BaseKeys.key_eq, Entries.entries_of, Private.Merged.{IsMergedAt, RowsStay}, declared.rows.PutFault.TheVariants.OutOfMemory};

use crate::cell::Held;
use crate::keyed::KeyedRows;
use crate::keyed::key::OrderedKey;
use crate::keyed::merge::row_stays;
use star_schema::Aggregate;
use std::alloc::AllocError;

/// Why a put is refused.
#[derive(Clone, Copy, Debug, PartialEq, Eq)]
pub enum PutFault {
    OutOfMemory,
    Overflow,
}

impl From<AllocError> for PutFault {
    ghost from_gives = { TellsMemory OutOfMemory };

    fn from(_error: AllocError) -> PutFault {
        PutFault::OutOfMemory
    }
}

// Whether no aggregate of the rows of these keys leaves its bits with one more merged in.
fn all_take(
    rows: &KeyedRows,
    row_keys: &[OrderedKey],
    aggregates: &[Aggregate],
    more: &[Held],
) -> bool
    requires narrow { AreNarrow rows.now.listed.width row_keys.now }
    requires fits { FitsIn rows.now aggregates.now more.now }
    ensures { MatchBool result
        (AllStay (row_found (entries_of rows.now)) (is_one_of row_keys.now) aggregates.now more.now)
        (SomeLeaves (row_found (entries_of rows.now)) (is_one_of row_keys.now) aggregates.now more.now) }
{
    for index in 0..row_keys.len() {
        if !row_stays(aggregates, rows.found(&row_keys[index]), more) {
            return false;
        }
    }
    true
}

// Merges a row into that of this key.
fn merge_one(rows: &mut KeyedRows, key: &OrderedKey, aggregates: &[Aggregate], more: &[Held])
    requires narrow { IsNarrow rows.old.listed.width key.now }
    requires fits { FitsIn rows.old aggregates.now more.now }
    requires stays { RowsStay aggregates.now
        (row_found (entries_of rows.old) (key_view key.now)) more.now }
    requires space { HasSpace rows.old 1 }
    ensures rows { IsMergedAt aggregates.now (key_view key.now) more.now
        (entries_of rows.old) (entries_of rows.new) }
    ensures space { (count : ℕ) → HasSpace rows.old (count + 1) → HasSpace rows.new count }
    ensures widths { AreAsWide rows.old rows.new }
{
    match rows.merge(key, aggregates, more) {
        Ok(()) => {}
        Err(AllocError) => unreachable!(),
    }
}

// A row merged into each of these keys.
fn merge_all(rows: &mut KeyedRows, row_keys: &[OrderedKey], aggregates: &[Aggregate], more: &[Held])
    requires narrow { AreNarrow rows.old.listed.width row_keys.now }
    requires distinct { IsDistinct key_eq (map key_view row_keys.now) }
    requires fits { FitsIn rows.old aggregates.now more.now }
    requires stay { AllStay (row_found (entries_of rows.old)) (is_one_of row_keys.now) aggregates.now more.now }
    requires space { HasSpace rows.old (length row_keys.now) }
    ensures rows { MergesAll (is_one_of row_keys.now) aggregates.now more.now
        (row_found (entries_of rows.old)) (row_found (entries_of rows.new)) }
    ensures widths { AreAsWide rows.old rows.new }
{
    for index in 0..row_keys.len() {
        merge_one(rows, &row_keys[index], aggregates, more);
    }
}

// The row of one put merged into those of its keys, which are made if they are missing; or
// nothing changes: all room is there before the first one changes.
pub(crate) fn put_rows(
    rows: &mut KeyedRows,
    row_keys: &[OrderedKey],
    aggregates: &[Aggregate],
    more: &[Held],
) -> Result<(), PutFault>
    requires narrow { AreNarrow rows.old.listed.width row_keys.now }
    requires distinct { IsDistinct key_eq (map key_view row_keys.now) }
    requires fits { FitsIn rows.old aggregates.now more.now }
    ensures ok { OnOk result (PutsRows (is_one_of row_keys.now) aggregates.now more.now
        (row_found (entries_of rows.old)) (row_found (entries_of rows.new))) }
    ensures refused { OnErr result (entries_of rows.new ≡ entries_of rows.old) }
    ensures overflow { IfErr result (λ fault. UnlessMemory PutFault.OutOfMemory fault
        (SomeLeaves (row_found (entries_of rows.old)) (is_one_of row_keys.now) aggregates.now
        more.now)) }
    ensures widths { AreAsWide rows.old rows.new }
{
    if !all_take(rows, row_keys, aggregates, more) {
        return Err(PutFault::Overflow);
    }
    rows.reserve(row_keys.len())?;
    merge_all(rows, row_keys, aggregates, more);
    Ok(())
}
