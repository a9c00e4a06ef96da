// Rows that are read before they are asked for.

use star_group::{GroupRows, KeyValue};
use std::alloc::{AllocError, Global};

// How many rows are read ahead.
const AHEAD: usize = 16;

// Rows in their order are far from each other in memory, which serves several reads in the time of
// one if nothing waits between them. Therefore the first parts of some rows are read together
// before the cells of these are made; they are kept, since a compiler omits a read whose value is
// unused.
#[derive(Drop)]
pub(super) struct Ahead<'a> {
    rest: &'a [usize],
    left: usize,
    keys: Vec<Option<KeyValue>>,
    aggregates: Vec<Option<i128>>,
}

impl Ahead<'_> {
    // Nothing is read as yet of the rows of these numbers.
    pub(super) fn new(alloc: Global, numbers: &[usize]) -> Result<Ahead<'_>, AllocError> {
        Ok(Ahead {
            rest: numbers,
            left: 0,
            keys: Vec::with_capacity(alloc, AHEAD)?,
            aggregates: Vec::with_capacity(alloc, AHEAD)?,
        })
    }

    // Reads the first parts of the rows of these numbers.
    fn read(&mut self, rows: &GroupRows, numbers: &[usize]) -> Result<(), AllocError> {
        self.keys.clear();
        self.aggregates.clear();
        for number in numbers {
            self.keys.push(rows.key(*number, 0))?;
            self.aggregates.push(rows.aggregate(*number, 0))?;
        }
        Ok(())
    }

    // Goes on to the next row: if all that were read are done, reads some more.
    pub(super) fn turn(&mut self, rows: &GroupRows) -> Result<(), AllocError> {
        if self.left == 0 {
            let (next, rest) = self.rest.split_at(self.rest.len().min(AHEAD));
            self.read(rows, next)?;
            self.rest = rest;
            self.left = next.len();
        }
        self.left = self.left.saturating_sub(1);
        Ok(())
    }
}
