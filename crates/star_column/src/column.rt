// What every column offers, whatever its encoding.

ghost use Rattle.std.specs.Prelude.{◌≡◌, ◌<◌, ℤ, List, All, Some, length, slice_get};
ghost use Rattle.star_schema.specs.Bounds.{least, greatest};
ghost use Rattle.star_interval.specs.{Range.Holds, Interval.range_of};

use star_interval::Interval;

/// A column of 64-bit values, one for each row of its table. Rows count from 0. No call allocates.
pub trait ColumnData {
    // The values, in the order of the rows.
    ghost values: { Self → List ℤ };

    /// Returns the number of rows.
    fn len(&self) -> u32
        ensures { result ≡ length (values self.now) };

    /// Returns the value of a row.
    fn at(&self, row: u32) -> i64
        requires { row < length (values self.now) }
        ensures { slice_get (values self.now) row ≡ Some result };

    /// Returns the least and the greatest value, 0 and 0 without rows. Each value lies between
    /// them.
    fn bounds(&self) -> Interval
        ensures low { result.low ≡ least (values self.now) }
        ensures high { result.high ≡ greatest (values self.now) }
        ensures held { All (Holds (range_of result)) (values self.now) };
}
