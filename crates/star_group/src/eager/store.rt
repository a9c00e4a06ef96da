// An eager store is a store of groups, which also refuses puts that overflow.

ghost use Rattle.star_group.specs.Eager.{group_view, Has};

use super::EagerStore;
use super::row_keys::fill_row_keys;
use crate::cell::{Total, shown};
use crate::group_rows::given;
use crate::keyed::KeyedRows;
use crate::keyed::merge::row_of_put;
use crate::rows::{PutFault, put_rows};
use crate::store::{GroupStore, TryPut, aggregates_of};
use crate::{GroupRows, KeyValue};
use star_program::GroupDecl;
use std::alloc::{AllocError, Global};

// The most rows that a put changes: those of a cube of six keys.
const MOST_OWN: usize = 64;

impl GroupStore for EagerStore {
    ghost group = { group_view };

    ghost has = { Has };

    fn new(alloc: Global, declared: &GroupDecl) -> Result<EagerStore, AllocError> {
        let aggregates = aggregates_of(alloc, declared)?;
        let key_count = declared.keys.as_slice().len();
        let rows = KeyedRows::new(alloc, key_count, aggregates.len())?;
        Ok(EagerStore {
            shape: declared.shape,
            key_count,
            aggregates,
            rows,
            total: Total::new(),
            row_keys: Vec::with_capacity(alloc, MOST_OWN)?,
        })
    }

    fn put(&mut self, keys: &[KeyValue], values: &[i64]) -> Result<(), AllocError> {
        match self.try_put(keys, values) {
            Ok(()) => Ok(()),
            Err(PutFault::OutOfMemory) => Err(AllocError),
            Err(PutFault::Overflow) => unreachable!(),
        }
    }

    fn total(&self, aggregate: usize) -> Option<i128> {
        shown(self.aggregates[aggregate], self.total.get(aggregate))
    }

    fn into_rows(self) -> Result<GroupRows, AllocError> {
        let rows = self.rows;
        let aggregates = self.aggregates.as_slice();
        given(rows.listed, self.shape, self.key_count, aggregates)
    }
}

impl TryPut for EagerStore {
    fn try_put(&mut self, keys: &[KeyValue], values: &[i64]) -> Result<(), PutFault> {
        let aggregates = self.aggregates.as_slice();
        let more = row_of_put(aggregates, values);
        if !self.total.stays(aggregates, &more) {
            return Err(PutFault::Overflow);
        }
        fill_row_keys(&mut self.row_keys, self.shape, keys)?;
        put_rows(&mut self.rows, self.row_keys.as_slice(), aggregates, &more)?;
        self.total.merge(aggregates, &more);
        Ok(())
    }
}
