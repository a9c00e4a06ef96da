// Rows by their keys: making, finding and changing them.

ghost use Rattle.std.specs.{Prelude.{◌≡◌, ◌≤◌, ◌+◌, ◌++◌, ◌∷◌, ℕ, [], length, max, take, IfOk, IsOk, MatchOption, OnErr, OnOk}, Option.option_copied};
ghost use Rattle.star_group.specs.{Private.Numbers.{AreAsWide, FitsIn, HasSpace, IsNarrow, keys_in}, Base.{key_view, row_found}, Entries.entries_of, Private.Merged.{IsMergedAt, RowsStay}, Private.Tries.IsMissing};

use super::cells::merge_at;
use super::key::OrderedKey;
use super::trie::Slot;
use super::{KeyedRows, ListedRows};
use crate::cell::Held;
use star_schema::Aggregate;
use std::alloc::{AllocError, Global};

impl KeyedRows {
    // Makes no rows yet, of `key_count` keys and `aggregate_count` aggregates.
    pub(crate) fn new(
        alloc: Global,
        key_count: usize,
        aggregate_count: usize,
    ) -> Result<KeyedRows, AllocError>
        requires few_keys { key_count ≤ 6 }
        requires few { aggregate_count ≤ 8 }
        ensures empty { IfOk result (λ rows. entries_of rows ≡ []) }
        ensures width { IfOk result (λ rows. rows.listed.width ≡ max key_count 1) }
        ensures aggregate_count { IfOk result (λ rows. rows.listed.aggregate_count ≡ aggregate_count) }
    {
        let mut links = Vec::new(alloc);
        links.push([0; 4])?;
        let listed = ListedRows {
            width: key_count.max(1),
            len: 0,
            keys: Vec::new(alloc),
            aggregate_count,
            cells: Vec::new(alloc),
        };
        Ok(KeyedRows { listed, links })
    }

    // The row with this key, if there is one.
    pub(crate) fn found(&self, key: &OrderedKey) -> Option<&[Held]>
        requires { IsNarrow self.now.listed.width key.now }
        ensures row { option_copied result ≡ row_found (entries_of self.now) (key_view key.now) }
        ensures wide { MatchOption result (Unit {0})
            (λ row. length row.now ≡ self.now.listed.aggregate_count) }
    {
        match self.find(&key[..self.listed.width]) {
            Slot::Held(number) => Some(self.listed.row(number)),
            Slot::Missing { .. } => None,
        }
    }

    // Makes room for `additional` more rows.
    pub(crate) fn reserve(&mut self, additional: usize) -> Result<(), AllocError>
        ensures ok { OnOk result (HasSpace self.new additional) }
        ensures rows { entries_of self.new ≡ entries_of self.old }
        ensures widths { AreAsWide self.old self.new }
    {
        let nodes = additional.checked_add(self.links.len()).ok_or(AllocError)?;
        u32::try_from(nodes).map_err(|_error| AllocError)?;
        self.links.reserve(additional)?;
        self.listed.reserve(additional)
    }

    // One more row, for a key that no row has, below the node at which the key's digits end.
    fn push(
        &mut self,
        node: usize,
        digit: usize,
        key: &OrderedKey,
        row: &[Held],
    ) -> Result<(), AllocError>
        requires narrow { IsNarrow self.old.listed.width key.now }
        requires wide { length row.now ≡ self.old.listed.aggregate_count }
        requires missing { IsMissing self.old.listed.width (keys_in self.old) self.old.links.items
            (take self.old.listed.width key.now) node digit }
        ensures ok { OnOk result (entries_of self.new ≡ entries_of self.old ++ (key.now, row.now) ∷ []) }
        ensures refused { OnErr result (entries_of self.new ≡ entries_of self.old) }
        ensures space { (count : ℕ) → HasSpace self.old (count + 1)
            → IsOk result × HasSpace self.new count }
        ensures widths { AreAsWide self.old self.new }
    {
        let number = u32::try_from(self.links.len()).map_err(|_error| AllocError)?;
        self.links.push([0; 4])?;
        if self.listed.push(key, row).is_err() {
            self.links.pop();
            return Err(AllocError);
        }
        self.links[node][digit] = number;
        Ok(())
    }

    // One more row for this key, merged into the row that is there.
    pub(crate) fn merge(
        &mut self,
        key: &OrderedKey,
        aggregates: &[Aggregate],
        more: &[Held],
    ) -> Result<(), AllocError>
        requires narrow { IsNarrow self.old.listed.width key.now }
        requires fits { FitsIn self.old aggregates.now more.now }
        requires stays { RowsStay aggregates.now
            (row_found (entries_of self.old) (key_view key.now)) more.now }
        ensures ok { OnOk result (IsMergedAt aggregates.now (key_view key.now) more.now
            (entries_of self.old) (entries_of self.new)) }
        ensures refused { OnErr result (entries_of self.new ≡ entries_of self.old) }
        ensures enough { HasSpace self.old 1 → IsOk result }
        ensures space { (count : ℕ) → HasSpace self.old (count + 1) → HasSpace self.new count }
        ensures widths { AreAsWide self.old self.new }
    {
        match self.find(&key[..self.listed.width]) {
            Slot::Held(number) => {
                let count = self.listed.len;
                merge_at(
                    self.listed.cells.as_mut_slice(),
                    count,
                    number,
                    aggregates,
                    more,
                );
                Ok(())
            }
            Slot::Missing { node, digit } => {
                let aggregate_count = self.listed.aggregate_count;
                self.push(node, digit, key, &more[..aggregate_count])
            }
        }
    }
}
