// The declarations of groups.

use star_common::Items;
use star_schema::{Aggregate, ColumnId, Shape};

/// One key of a group: a number, or a text of one column.
#[derive(Clone, Copy, Debug, PartialEq, Eq)]
pub enum GroupKey {
    Number,
    Text(ColumnId),
}

/// The keys of a group, in order.
pub type GroupKeys = Items<GroupKey>;

/// The aggregates of a group, in order.
pub type Aggregates = Items<Aggregate>;

/// A declared group: the groupings of its keys, and the aggregates over each group of rows.
#[derive(Drop)]
pub struct GroupDecl {
    pub shape: Shape,
    pub keys: GroupKeys,
    pub aggregates: Aggregates,
}
