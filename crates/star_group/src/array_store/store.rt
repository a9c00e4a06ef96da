// Array aggregation is a store of groups.

ghost use Rattle.std.specs.Prelude.{◌≡◌, ◌≤◌, ◌<◌, ℕ, List, [], IfOk, OnErr, OnOk, length};
ghost use Rattle.star_group.specs.{Batches.HasRoomForRows, Batches.IsPutBatch, Batches.puts_after, Batches.put_in, ArrayStores.group_view, ArrayStores.Has, Private.ArrayPut.AreAtIds, Stores.group_declared};
ghost use Rattle.star_program.specs.Puts.{Update};

use super::ArrayStore;
use super::cells::{are_narrow, mark, take_put, take_vectors};
use super::ids::{find_ids, id_of};
use super::listing::{count_seen, push_ids};
use super::making::{blank_cells, spans_of};
use crate::batch::PutBatch;
use crate::cell::shown;
use crate::deferred::DeferredStore;
use crate::deferred::coarser::rows_of_base;
use crate::store::GroupStore;
use crate::{GroupRows, KeyValue};
use star_interval::Interval;
use star_program::GroupDecl;
use std::alloc::{AllocError, Global};

impl ArrayStore {
    // The puts of some rows whose keys have these group ids, one after another in order.
    fn put_at(&mut self, batch: &PutBatch<'_>, ids: &[u32])
        requires declared { group_declared batch.now.declared.now ≡ group_view self.old }
        requires batch { IsPutBatch batch.now }
        requires rows { length ids.now ≡ batch.now.rows }
        requires at { AreAtIds self.old.spans.items batch.now ids.now }
        requires room { (puts : List Update) × Has self.old puts
            × HasRoomForRows (group_view self.old) (put_in batch.now) puts batch.now.rows }
        ensures has { (puts : List Update) → Has self.old puts
            → Has self.new (puts_after (put_in batch.now) puts batch.now.rows) }
        ensures group { group_view self.new ≡ group_view self.old }
    {
        let rest = &self.rest;
        let aggregates = rest.aggregates.as_slice();
        let all = self.seen.as_slice().len();
        take_vectors(self.cells.as_mut_slice(), all, aggregates, ids, batch);
        mark(self.seen.as_mut_slice(), ids);
    }
}

impl GroupStore for ArrayStore {
    ghost group = { group_view };

    ghost has = { Has };

    fn new(alloc: Global, declared: &GroupDecl) -> Result<ArrayStore, AllocError> {
        ArrayStore::with_ranges(alloc, declared, &[])
    }

    // The rows of keys in the ranges have group ids, at most 2^28.
    fn with_ranges(
        alloc: Global,
        declared: &GroupDecl,
        ranges: &[Interval],
    ) -> Result<ArrayStore, AllocError> {
        let rest = DeferredStore::new(alloc, declared)?;
        let (spans, ids) = spans_of(alloc, declared.keys.as_slice(), ranges)?;
        let seen = vec![in alloc; false; ids]?;
        let cells = blank_cells(alloc, declared.aggregates.as_slice(), ids)?;
        Ok(ArrayStore {
            rest,
            spans,
            seen,
            cells,
        })
    }

    fn put(&mut self, keys: &[KeyValue], values: &[i64]) -> Result<(), AllocError> {
        match id_of(self.spans.as_slice(), keys) {
            None => self.rest.add(keys, values),
            Some(id) => {
                let rest = &self.rest;
                let aggregates = rest.aggregates.as_slice();
                let all = self.seen.as_slice().len();
                let at = [id as u32];
                are_narrow(values);
                take_put(self.cells.as_mut_slice(), all, aggregates, &at, values);
                mark(self.seen.as_mut_slice(), &at);
                Ok(())
            }
        }
    }

    // If there is only one group id, few rows have it, and each is put by itself.
    fn put_together(&mut self, batch: &PutBatch<'_>) -> bool {
        if self.seen.len() == 1 && !batch.keys.is_empty() {
            return false;
        }
        let mut ids = [0; 1024];
        let at = &mut ids[..batch.rows];
        if !find_ids(self.spans.as_slice(), batch, at) {
            return false;
        }
        self.put_at(batch, at);
        true
    }

    fn total(&self, aggregate: usize) -> Option<i128> {
        shown(
            self.rest.aggregates[aggregate],
            self.whole_total().get(aggregate),
        )
    }

    fn into_rows(self) -> Result<GroupRows, AllocError> {
        let ArrayStore {
            rest,
            spans,
            seen,
            cells,
        } = self;
        let base = rest.rows;
        let mut rows = base.listed;
        let aggregates = rest.aggregates.as_slice();
        let seen = seen.as_slice();
        rows.reserve(count_seen(seen))?;
        push_ids(
            &mut rows,
            spans.as_slice(),
            seen,
            cells.as_slice(),
            aggregates,
        )?;
        rows_of_base(rest.alloc, rows, rest.shape, rest.key_count, aggregates)
    }
}
