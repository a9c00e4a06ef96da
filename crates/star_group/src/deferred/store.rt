// A deferred store is a store of groups.

ghost use Rattle.std.specs.Prelude.{◌≡◌, ◌∷◌, List, length, OnErr, OnOk};
ghost use Rattle.star_group.specs.{Base.AreInBits, Deferred.group_view, Deferred.Has};
ghost use Rattle.star_program.specs.Puts.{Update};

use super::DeferredStore;
use super::coarser::rows_of_base;
use crate::cell::{Total, shown};
use crate::keyed::KeyedRows;
use crate::keyed::key::base_key;
use crate::keyed::merge::row_of_put;
use crate::store::{GroupStore, aggregates_of};
use crate::{GroupRows, KeyValue};
use star_program::GroupDecl;
use std::alloc::{AllocError, Global};

impl DeferredStore {
    // One more put of the row of its keys and of the total; or nothing changes.
    pub(crate) fn add(&mut self, keys: &[KeyValue], values: &[i64]) -> Result<(), AllocError>
        requires keys { length keys.now ≡ (group_view self.old).count }
        requires values { length values.now ≡ length (group_view self.old).aggregates }
        requires room { (puts : List Update) × Has self.old puts
            × AreInBits (group_view self.old)
            (record { keys = keys.now; values = values.now } ∷ puts) }
        ensures ok { OnOk result ((puts : List Update) → Has self.old puts
            → Has self.new (record { keys = keys.now; values = values.now } ∷ puts)) }
        ensures refused { OnErr result ((puts : List Update) → Has self.old puts
            → Has self.new puts) }
        ensures group { group_view self.new ≡ group_view self.old }
    {
        let aggregates = self.aggregates.as_slice();
        let row = row_of_put(aggregates, values);
        if self.rows.merge(&base_key(keys), aggregates, &row).is_err() {
            return Err(AllocError);
        }
        self.total.merge(aggregates, &row);
        Ok(())
    }
}

impl GroupStore for DeferredStore {
    ghost group = { group_view };

    ghost has = { Has };

    fn new(alloc: Global, declared: &GroupDecl) -> Result<DeferredStore, AllocError> {
        let aggregates = aggregates_of(alloc, declared)?;
        let key_count = declared.keys.as_slice().len();
        let rows = KeyedRows::new(alloc, key_count, aggregates.len())?;
        Ok(DeferredStore {
            alloc,
            shape: declared.shape,
            key_count,
            aggregates,
            rows,
            total: Total::new(),
        })
    }

    fn put(&mut self, keys: &[KeyValue], values: &[i64]) -> Result<(), AllocError> {
        self.add(keys, values)
    }

    fn total(&self, aggregate: usize) -> Option<i128> {
        shown(self.aggregates[aggregate], self.total.get(aggregate))
    }

    fn into_rows(self) -> Result<GroupRows, AllocError> {
        let rows = self.rows;
        let aggregates = self.aggregates.as_slice();
        rows_of_base(
            self.alloc,
            rows.listed,
            self.shape,
            self.key_count,
            aggregates,
        )
    }
}
