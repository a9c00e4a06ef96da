//! Intervals of 64-bit numbers, and interval arithmetic with least results.
#![tactic(auto)]

ghost use Rattle.std.specs.Prelude.{◌≡◌, ◌⊎◌, ◌↔◌, IsTrue, IsOk, IsSome, IfSome, pos, ◌+ℤ◌, ◌-ℤ◌, ◌*ℤ◌, ◌≤ℤ◌};

use std::fmt;

pub mod law;

/// The numbers from `low` to `high`, both included. An interval is never empty.
#[derive(Clone, Copy, Debug, PartialEq, Eq)]
pub struct Interval {
    pub low: i64,
    pub high: i64,
    pub ghost ordered: { low ≤ℤ high },
}

/// Bounds that may leave 64 bits.
#[derive(Clone, Copy, Debug, PartialEq, Eq)]
pub struct Wide {
    pub low: i128,
    pub high: i128,
    pub ghost ordered: { low ≤ℤ high },
}

impl Interval {
    ghost use Rattle.star_interval.specs.{Range.{Holds, FitsI64, IsLeast, IsResult, IsMultiple, only, hull, corner_range, multiple_range}, Interval.{range_of, wide_range_of, bounds_of}};

    /// Returns the interval that holds one number.
    pub fn point(value: i64) -> Interval
        ensures { range_of result ≡ only value }
    {
        Interval {
            low: value,
            high: value,
        }
    }

    /// Tests whether a number lies in the interval.
    pub fn holds(&self, value: i64) -> bool
        ensures { IsTrue result ↔ Holds (range_of self.now) value }
    {
        self.low <= value && value <= self.high
    }

    /// Returns the least interval that holds both intervals.
    pub fn hull(&self, other: &Interval) -> Interval
        ensures least { IsLeast (λ z. Holds (range_of self.now) z ⊎ Holds (range_of other.now) z)
            (range_of result) }
        ensures ends { range_of result ≡ hull (range_of self.now) (range_of other.now) }
    {
        Interval {
            low: self.low.min(other.low),
            high: self.high.max(other.high),
        }
    }

    /// Returns the least interval that holds this one and 0.
    pub fn with_zero(&self) -> Interval
        ensures least { IsLeast (λ z. Holds (range_of self.now) z ⊎ (z ≡ pos 0)) (range_of result) }
        ensures ends { range_of result ≡ hull (range_of self.now) (only (pos 0)) }
    {
        self.hull(&Interval::point(0))
    }

    /// Returns the least interval that holds every sum of a number of `self` and a number of
    /// `other`.
    ///
    /// If its bounds leave 64 bits, they are returned as the error.
    pub fn add(&self, other: &Interval) -> Result<Interval, Wide>
        ensures least { IsLeast (IsResult ◌+ℤ◌ (range_of self.now) (range_of other.now))
            (bounds_of result) }
        ensures fits { IsOk result ↔ FitsI64 (bounds_of result) }

        // For callers that compute with ends.
        ensures corners { bounds_of result
            ≡ corner_range ◌+ℤ◌ (range_of self.now) (range_of other.now) }
    {
        self.add_wide(other).narrow()
    }

    /// Returns the least interval that holds every difference of a number of `self` and a number of
    /// `other`.
    ///
    /// If its bounds leave 64 bits, they are returned as the error.
    pub fn sub(&self, other: &Interval) -> Result<Interval, Wide>
        ensures least { IsLeast (IsResult ◌-ℤ◌ (range_of self.now) (range_of other.now))
            (bounds_of result) }
        ensures fits { IsOk result ↔ FitsI64 (bounds_of result) }

        // For callers that compute with ends.
        ensures corners { bounds_of result
            ≡ corner_range ◌-ℤ◌ (range_of self.now) (range_of other.now) }
    {
        self.sub_wide(other).narrow()
    }

    /// Returns the least interval that holds every product of a number of `self` and a number of
    /// `other`. The two may be equal: the product of `-3..3` with itself is `-9..9`.
    ///
    /// If its bounds leave 64 bits, they are returned as the error.
    pub fn mul(&self, other: &Interval) -> Result<Interval, Wide>
        ensures least { IsLeast (IsResult ◌*ℤ◌ (range_of self.now) (range_of other.now))
            (bounds_of result) }
        ensures fits { IsOk result ↔ FitsI64 (bounds_of result) }

        // For callers that compute with ends.
        ensures corners { bounds_of result
            ≡ corner_range ◌*ℤ◌ (range_of self.now) (range_of other.now) }
    {
        self.mul_wide(other).narrow()
    }

    /// Returns the least interval that holds `n` times each number of this one.
    ///
    /// If its bounds leave 64 bits, they are returned as the error.
    pub fn times(&self, n: u64) -> Result<Interval, Wide>
        ensures least { IsLeast (IsMultiple n (range_of self.now)) (bounds_of result) }
        ensures fits { IsOk result ↔ FitsI64 (bounds_of result) }

        // For callers that compute with ends.
        ensures ends { bounds_of result ≡ multiple_range n (range_of self.now) }
    {
        self.times_wide(n).narrow()
    }

    /// Returns the bounds of the sums.
    fn add_wide(&self, other: &Interval) -> Wide
        ensures { wide_range_of result
            ≡ corner_range ◌+ℤ◌ (range_of self.now) (range_of other.now) }
    {
        Wide {
            low: i128::from(self.low) + i128::from(other.low),
            high: i128::from(self.high) + i128::from(other.high),
        }
    }

    /// Returns the bounds of the differences.
    fn sub_wide(&self, other: &Interval) -> Wide
        ensures { wide_range_of result
            ≡ corner_range ◌-ℤ◌ (range_of self.now) (range_of other.now) }
    {
        Wide {
            low: i128::from(self.low) - i128::from(other.high),
            high: i128::from(self.high) - i128::from(other.low),
        }
    }

    /// Returns the bounds of the products. The least and the greatest are among the products of
    /// ends.
    fn mul_wide(&self, other: &Interval) -> Wide
        ensures { wide_range_of result
            ≡ corner_range ◌*ℤ◌ (range_of self.now) (range_of other.now) }
    {
        let at_low = other.scale_wide(self.low);
        let at_high = other.scale_wide(self.high);
        at_low.hull(&at_high)
    }

    /// Returns the bounds of the multiples by a factor. A negative factor exchanges the ends.
    fn scale_wide(&self, factor: i64) -> Wide
        ensures { wide_range_of result
            ≡ hull (only (factor *ℤ self.now.low)) (only (factor *ℤ self.now.high)) }
    {
        let at_low = product(factor, self.low);
        let at_high = product(factor, self.high);
        Wide::between(at_low, at_high)
    }

    /// Returns the least bounds of `n` times each number of this interval. They have at most 128
    /// bits for every `n`.
    pub fn times_wide(&self, n: u64) -> Wide
        ensures least { IsLeast (IsMultiple n (range_of self.now)) (wide_range_of result) }

        // For callers that compute with ends.
        ensures ends { wide_range_of result ≡ multiple_range n (range_of self.now) }
    {
        Wide {
            low: multiple(n, self.low),
            high: multiple(n, self.high),
        }
    }
}

impl Wide {
    ghost use Rattle.star_interval.specs.{Range.{FitsI64, FitsI128, IsLeast, IsResult, only, hull, corner_range}, Interval.{wide_range_of, bounds_of}};

    /// Returns the least bounds of the sums of a number within these bounds and a number within the
    /// others, or None if they leave 128 bits.
    pub fn add(&self, others: &Wide) -> Option<Wide>
        ensures least { IfSome result (λ sums.
            IsLeast (IsResult ◌+ℤ◌ (wide_range_of self.now) (wide_range_of others.now))
            (wide_range_of sums)) }
        ensures fits { IsSome result
            ↔ FitsI128 (corner_range ◌+ℤ◌ (wide_range_of self.now) (wide_range_of others.now)) }

        // For callers that compute with ends.
        ensures corners { IfSome result (λ sums. wide_range_of sums
            ≡ corner_range ◌+ℤ◌ (wide_range_of self.now) (wide_range_of others.now)) }
    {
        let low = self.low.checked_add(others.low)?;
        let high = self.high.checked_add(others.high)?;
        Some(Wide { low, high })
    }

    /// Returns the interval with these bounds.
    ///
    /// If they leave 64 bits, they are returned as the error.
    pub fn narrow(self) -> Result<Interval, Wide>
        ensures bounds { bounds_of result ≡ wide_range_of self }
        ensures fits { IsOk result ↔ FitsI64 (wide_range_of self) }
    {
        match (i64::try_from(self.low), i64::try_from(self.high)) {
            (Ok(low), Ok(high)) => Ok(Interval { low, high }),
            _ => Err(self),
        }
    }

    /// Returns the least bounds of two numbers.
    fn between(x: i128, y: i128) -> Wide
        ensures { wide_range_of result ≡ hull (only x) (only y) }
    {
        Wide {
            low: x.min(y),
            high: x.max(y),
        }
    }

    /// Returns the least bounds that hold both.
    fn hull(&self, others: &Wide) -> Wide
        ensures { wide_range_of result ≡ hull (wide_range_of self.now) (wide_range_of others.now) }
    {
        Wide {
            low: self.low.min(others.low),
            high: self.high.max(others.high),
        }
    }
}

fn product(x: i64, y: i64) -> i128
    ensures { result ≡ x *ℤ y }
{
    i128::from(x) * i128::from(y)
}

fn multiple(n: u64, x: i64) -> i128
    ensures { result ≡ pos n *ℤ x }
{
    i128::from(n) * i128::from(x)
}

/// Returns the same bounds.
impl From<Interval> for Wide {
    ghost use Rattle.std.specs.Prelude.{◌≡◌};
    ghost use Rattle.star_interval.specs.Interval.{range_of, wide_range_of};

    ghost from_gives = { λ i w. wide_range_of w ≡ range_of i };

    fn from(interval: Interval) -> Wide {
        Wide {
            low: i128::from(interval.low),
            high: i128::from(interval.high),
        }
    }
}

/// Prints as `low..high`.
impl fmt::Display for Wide {
    ghost use Rattle.std.specs.Prelude.{Some};
    ghost use Rattle.star_interval.specs.{Range.text_of, Interval.wide_range_of};

    ghost output = { λ w. Some (text_of (wide_range_of w)) };

    fn fmt<W: fmt::Write>(&self, f: &mut fmt::Formatter<W>) -> fmt::Result {
        let low = self.low;
        let high = self.high;
        write!(f, "{low}..{high}")
    }
}

/// Prints as `low..high`.
impl fmt::Display for Interval {
    ghost use Rattle.std.specs.Prelude.{Some};
    ghost use Rattle.star_interval.specs.{Range.text_of, Interval.range_of};

    ghost output = { λ i. Some (text_of (range_of i)) };

    fn fmt<W: fmt::Write>(&self, f: &mut fmt::Formatter<W>) -> fmt::Result {
        let bounds = Wide::from(*self);
        write!(f, "{bounds}")
    }
}
