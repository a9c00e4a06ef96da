// The tree of a plan: a query's tree with its names resolved.

use star_query::{Comparison, Condition, Measure};
use star_schema::{ColumnId, GroupColumn, Shape, SortKey};

/// A dimension is joined: the foreign key of lineorder, and the key that it references.
#[derive(Clone, Copy, PartialEq, Eq)]
pub struct Join {
    pub foreign: ColumnId,
    pub key: ColumnId,
}

/// A condition on a joined row. No two columns are compared in it.
pub type RowCondition = Condition<Comparison<ColumnId>>;

/// An aggregate, with the name under which it is shown.
#[derive(Drop)]
pub struct Aggregate {
    pub measure: Measure<ColumnId>,
    pub name: Vec<u8>,
}

/// The content of a plan: which rows of lineorder are joined and selected, how they are grouped,
/// what is computed over each group, and which items are shown in which order.
pub struct PlanTree {
    pub joins: Vec<Join>,
    /// All of these hold of a selected row.
    pub conjuncts: Vec<RowCondition>,
    pub shape: Shape,
    pub keys: Vec<ColumnId>,
    /// In the order of SELECT.
    pub aggregates: Vec<Aggregate>,
    /// The items that are shown of a group, in the order of SELECT.
    pub items: Vec<GroupColumn>,
    pub sorts: Vec<SortKey>,
}

impl Drop for PlanTree {
    fn drop(self) {
        let Self {
            joins,
            conjuncts,
            shape,
            keys,
            aggregates,
            items,
            sorts,
        } = self;
    }
}
