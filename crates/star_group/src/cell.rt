// What rows of a group have of its aggregates, and the row of all puts.

ghost use Rattle.std.specs.{Prelude.{◌≡◌, ◌≤◌, [], Some, None, length, slice_index_or, MatchBool, MatchOption}, Option.{option_copied, unwrap_or}};
ghost use Rattle.star_group.specs.Private.Given as spec;
ghost use Rattle.star_group.specs.Private.Merged.{IsMerged, MergeLeaves, MergeStays};

use crate::keyed::merge::{merge_into, row_stays};
use star_schema::Aggregate;
use std::marker::Model;

/// What a row has of an aggregate: only the row of all puts can be over none, so it is a number. A
/// contract sees an aggregate, which is not NULL.
#[derive(Clone, Copy)]
pub(crate) struct Held {
    number: i128,
}

impl Model for Held {
    ghost use Rattle.std.specs.Prelude.{ℤ, pos, Option, Some, unwrap_or};

    ghost Value = { Option ℤ };

    ghost view = { λ held. Some held.number };

    ghost inverse = { λ aggregate. record { number = unwrap_or aggregate (pos 0) } };
}

impl Held {
    pub(crate) fn new(number: i128) -> Held
        ensures { result ≡ Some number }
    {
        Held { number }
    }

    pub(crate) fn number(self) -> i128
        ensures { self ≡ Some result }
    {
        self.number
    }
}

// One number for each aggregate; past the group's aggregates they don't matter.
pub(crate) type Row = [Held; 8];

/// The row of all puts. A contract sees its aggregates, none before the first put.
#[derive(Drop)]
pub(crate) struct Total {
    row: Row,
    begun: bool,
}

impl Model for Total {
    ghost use Rattle.std.specs.Prelude.{ℤ, [], List, Option, if◌then◌else◌};

    ghost Value = { List (Option ℤ) };

    ghost view = { λ total. if total.begun then total.row else [] };
}

impl Total {
    // Of no puts.
    pub(crate) fn new() -> Total
        ensures { result ≡ [] }
    {
        Total {
            row: [Held::new(0); 8],
            begun: false,
        }
    }

    // The same row once more.
    pub(crate) fn copied(&self) -> Total
        ensures { result ≡ self.now }
    {
        Total {
            row: self.row,
            begun: self.begun,
        }
    }

    // The row, if there was a put.
    fn as_row(&self) -> Option<&[Held]>
        ensures row { unwrap_or (option_copied result) [] ≡ self.now }
        ensures wide { MatchOption result (Unit {0}) (λ row. length row.now ≡ 8) }
    {
        if self.begun { Some(&self.row) } else { None }
    }

    // An aggregate, by its position.
    pub(crate) fn get(&self, index: usize) -> Option<i128>
        ensures { result ≡ slice_index_or self.now index None }
    {
        match self.as_row()?.get(index) {
            Some(held) => Some(held.number()),
            None => None,
        }
    }

    // Whether no aggregate leaves its bits with one more row merged in.
    pub(crate) fn stays(&self, aggregates: &[Aggregate], more: &Row) -> bool
        requires { length aggregates.now ≤ 8 }
        ensures { MatchBool result (MergeStays aggregates.now self.now more.now)
            (MergeLeaves aggregates.now self.now more.now) }
    {
        row_stays(aggregates, self.as_row(), more)
    }

    // One more row merged in.
    pub(crate) fn merge(&mut self, aggregates: &[Aggregate], more: &Row)
        requires few { length aggregates.now ≤ 8 }
        requires stays { MergeStays aggregates.now self.old more.now }
        ensures { IsMerged aggregates.now self.old more.now self.new }
    {
        if self.begun {
            merge_into(aggregates, &mut self.row, more);
        } else {
            self.row = *more;
            self.begun = true;
        }
    }
}

// The shown cell of an aggregate.
pub(crate) fn shown(aggregate: Aggregate, cell: Option<i128>) -> Option<i128>
    ensures { result ≡ spec.shown aggregate cell }
{
    match (aggregate, cell) {
        (Aggregate::Count, None) => Some(0),
        _ => cell,
    }
}
