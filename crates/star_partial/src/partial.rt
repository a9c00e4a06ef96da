// Partials as values.

use star_interval::Interval;
use star_program::Outcome;
use star_schema::Sizes;

/// A key of lineorder: an lo_orderkey and an lo_linenumber. Keys compare by the first, then by the
/// second.
#[derive(Clone, Copy)]
pub struct LineKey {
    pub order: i64,
    pub line: i64,
}

/// A least and a greatest key.
#[derive(Clone, Copy)]
pub struct Span {
    pub low: LineKey,
    pub high: LineKey,
}

/// The values of a column of a partial's report.
#[derive(Clone, Copy)]
pub enum ColumnKind {
    NumberKey,
    TextKey,
    Total,
}

/// The state of a query over one part of lineorder.
#[derive(Drop)]
pub struct Partial {
    /// A digest of the four dimensions.
    pub digest: [u8; 32],
    /// The least and the greatest key of lineorder, if it has a row.
    pub span: Option<Span>,
    /// The row counts of the five tables.
    pub sizes: Sizes,
    /// The least and the greatest number of each of the 58 columns, in order. They are 0 and 0 for
    /// text columns, and for columns without rows.
    pub bounds: [Interval; 58],
    /// The outcome of the query's plain program, or `None` if it is refused.
    pub run: Option<Outcome>,
}
