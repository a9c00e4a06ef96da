// The row counts of the tables.

ghost use Rattle.std.specs.Prelude.{◌≡◌};
ghost use Rattle.star_schema.specs.Sizes.{size_of};

use crate::table::TableId;

/// The number of rows of each table.
#[derive(Clone, Copy, Debug, PartialEq, Eq)]
pub struct Sizes {
    pub date: u32,
    pub customer: u32,
    pub supplier: u32,
    pub part: u32,
    pub lineorder: u32,
}

impl Sizes {
    /// Returns the number of rows of a table.
    pub fn of(&self, table: TableId) -> u32
        ensures { result ≡ size_of self.now table }
    {
        match table {
            TableId::Date => self.date,
            TableId::Customer => self.customer,
            TableId::Supplier => self.supplier,
            TableId::Part => self.part,
            TableId::Lineorder => self.lineorder,
        }
    }
}
