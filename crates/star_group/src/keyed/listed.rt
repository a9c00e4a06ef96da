// Rows with their keys, one after another, with nothing to find them by.

ghost use Rattle.std.specs.Prelude.{◌≡◌, ◌<◌, ◌+◌, ◌++◌, ◌∷◌, ℕ, [], None, length, slice_index_or, take, IsOk, OnErr, OnOk};
ghost use Rattle.star_group.specs.{Base.key_view, Entries.listed_entries, Private.Numbers.HasRowSpace, Private.Numbers.IsNarrow, Private.Numbers.listed_keys};

use super::ListedRows;
use super::key::{KeyPart, OrderedKey, in_six_slots, value_in};
use crate::KeyValue;
use crate::cell::Held;
use star_program::row_of;
use std::alloc::AllocError;

// The key at a position, if there is one.
fn part_in(parts: &[KeyPart], index: usize) -> Option<KeyValue>
    ensures { result ≡ slice_index_or (key_view parts.now) index None }
{
    match parts.get(index) {
        Some(part) => value_in(*part),
        None => None,
    }
}

// The aggregate at a position, if there is one.
fn held_in(row: &[Held], index: usize) -> Option<i128>
    ensures { result ≡ slice_index_or row.now index None }
{
    match row.get(index) {
        Some(held) => Some(held.number()),
        None => None,
    }
}

impl ListedRows {
    // How many rows there are.
    pub(crate) fn len(&self) -> usize
        ensures { result ≡ length (listed_entries self.now) }
    {
        self.len
    }

    // The key of the row of a number.
    pub(crate) fn key(&self, number: usize) -> OrderedKey
        requires { number < length (listed_entries self.now) }
        ensures key { result ≡ (slice_index_or (listed_entries self.now) number ([], [])).0 }
        ensures narrow { IsNarrow self.now.width result }
    {
        in_six_slots(row_of(self.keys.as_slice(), self.width, self.len, number))
    }

    // The aggregates of the row of a number.
    pub(crate) fn row(&self, number: usize) -> &[Held]
        requires { number < length (listed_entries self.now) }
        ensures row { result.now ≡ (slice_index_or (listed_entries self.now) number ([], [])).1 }
        ensures wide { length result.now ≡ self.now.aggregate_count }
    {
        row_of(
            self.cells.as_slice(),
            self.aggregate_count,
            self.len,
            number,
        )
    }
    // The key at a position of the row of a number; past the row's own there is none.
    pub(crate) fn part(&self, number: usize, index: usize) -> Option<KeyValue>
        ensures { result ≡ slice_index_or
            (key_view (slice_index_or (listed_entries self.now) number ([], [])).0) index None }
    {
        part_in(
            row_of(self.keys.as_slice(), self.width, self.len, number),
            index,
        )
    }

    // The aggregate at a position of the row of a number, if there is one.
    pub(crate) fn cell(&self, number: usize, index: usize) -> Option<i128>
        ensures { result ≡ slice_index_or
            (slice_index_or (listed_entries self.now) number ([], [])).1 index None }
    {
        held_in(
            row_of(
                self.cells.as_slice(),
                self.aggregate_count,
                self.len,
                number,
            ),
            index,
        )
    }

    // Makes room for `additional` more rows.
    pub(crate) fn reserve(&mut self, additional: usize) -> Result<(), AllocError>
        ensures ok { OnOk result (HasRowSpace self.new additional) }
        ensures rows { listed_entries self.new ≡ listed_entries self.old }
        ensures keys { listed_keys self.new ≡ listed_keys self.old }
        ensures width { self.new.width ≡ self.old.width }
        ensures aggregate_count { self.new.aggregate_count ≡ self.old.aggregate_count }
    {
        self.len.checked_add(additional).ok_or(AllocError)?;
        let parts = additional.checked_mul(self.width).ok_or(AllocError)?;
        let cells = additional
            .checked_mul(self.aggregate_count)
            .ok_or(AllocError)?;
        self.keys.reserve(parts)?;
        self.cells.reserve(cells)
    }

    // One more row.
    pub(crate) fn push(&mut self, key: &OrderedKey, row: &[Held]) -> Result<(), AllocError>
        requires narrow { IsNarrow self.old.width key.now }
        requires wide { length row.now ≡ self.old.aggregate_count }
        ensures keys { OnOk result (listed_keys self.new
            ≡ listed_keys self.old ++ take self.old.width key.now ∷ []) }
        ensures rows { OnOk result (listed_entries self.new
            ≡ listed_entries self.old ++ (key.now, row.now) ∷ []) }
        ensures len { OnOk result (self.new.len ≡ self.old.len + 1) }
        ensures refused { OnErr result (listed_entries self.new ≡ listed_entries self.old) }
        ensures refused_keys { OnErr result (listed_keys self.new ≡ listed_keys self.old) }
        ensures refused_len { OnErr result (self.new.len ≡ self.old.len) }
        ensures space { (left : ℕ) → HasRowSpace self.old (left + 1)
            → IsOk result × HasRowSpace self.new left }
        ensures width { self.new.width ≡ self.old.width }
        ensures aggregate_count { self.new.aggregate_count ≡ self.old.aggregate_count }
    {
        let len = self.len.checked_add(1).ok_or(AllocError)?;
        let end = self.keys.len();
        self.keys.extend_from_slice(&key[..self.width])?;
        if self.cells.extend_from_slice(row).is_err() {
            self.keys.truncate(end);
            return Err(AllocError);
        }
        self.len = len;
        Ok(())
    }

    // The rows of others after these.
    pub(crate) fn append(&mut self, more: &ListedRows) -> Result<(), AllocError>
        requires width { more.now.width ≡ self.old.width }
        requires aggregate_count { more.now.aggregate_count ≡ self.old.aggregate_count }
        ensures rows { OnOk result (listed_entries self.new
            ≡ listed_entries self.old ++ listed_entries more.now) }
        ensures width { self.new.width ≡ self.old.width }
        ensures aggregate_count { self.new.aggregate_count ≡ self.old.aggregate_count }
    {
        let len = self.len.checked_add(more.len).ok_or(AllocError)?;
        let end = self.keys.len();
        self.keys.extend_from_slice(more.keys.as_slice())?;
        if self.cells.extend_from_slice(more.cells.as_slice()).is_err() {
            self.keys.truncate(end);
            return Err(AllocError);
        }
        self.len = len;
        Ok(())
    }
}
