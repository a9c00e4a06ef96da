// Columns of 64-bit numbers.

ghost use Rattle.std.specs.{Prelude.{◌≡◌, ◌<◌, ◌^◌, [], All, Contains, IfSome, IsOkAnd, MatchOption, false, length, map, vec_len}, Ordering.{is_gt, is_lt}};
ghost use Rattle.star_column.specs.Private.Bounds.{AreBounds};

use crate::column::ColumnData;
use star_flat::SignedWord;
use star_interval::Interval;
use std::alloc::AllocError;
use std::marker::Model;

/// A column of numbers, seen in contracts as the list of them in the order of the rows.
#[derive(Drop)]
pub struct NumberColumn {
    numbers: Vec<i64>,
    bounds: Interval,
}

impl Model for NumberColumn {
    ghost use Rattle.std.specs.Prelude.{◌<◌, ◌^◌, ℤ, List, length};
    ghost use Rattle.star_column.specs.Private.Bounds.{AreBounds};

    ghost Value = { List ℤ };

    ghost view = { λ column. column.numbers.items };

    ghost invariant = { λ column. (length column.numbers.items < 2 ^ 32)
        × AreBounds column.bounds column.numbers.items };
}

impl NumberColumn {
    /// Makes a column of these numbers, at most 4,294,967,295.
    ///
    /// The column takes the vector, without its spare capacity, and allocates nothing. It always
    /// returns `Ok`; the `Result` is that of every other kind of column.
    pub fn build(mut numbers: Vec<i64>) -> Result<NumberColumn, AllocError>
        requires { vec_len numbers < 2 ^ 32 }
        ensures { IsOkAnd result (λ column. column ≡ numbers.items) }
    {
        numbers.shrink_to_fit();
        let bounds = bounds_of(numbers.as_slice());
        Ok(NumberColumn { numbers, bounds })
    }

    /// Returns the numbers.
    pub(crate) fn numbers(&self) -> &[i64]
        ensures numbers { result.now ≡ self.now }
        ensures few { length result.now < 2 ^ 32 }
    {
        self.numbers.as_slice()
    }
}

impl ColumnData for NumberColumn {
    ghost values = { λ column. column };

    fn len(&self) -> u32 {
        self.numbers.len() as u32
    }

    fn at(&self, row: u32) -> i64 {
        self.numbers[row as usize]
    }

    fn bounds(&self) -> Interval {
        self.bounds
    }
}

/// Returns the least and the greatest of some numbers, 0 and 0 if there are none.
pub(crate) fn bounds_of<S: SignedWord>(numbers: &[S]) -> Interval
    ensures { AreBounds result (map S.number numbers.now) }
{
    S::order_law();
    let (Some(low), Some(high)) = (least_of(numbers), greatest_of(numbers)) else {
        return Interval::point(0);
    };
    Interval {
        low: low.value(),
        high: high.value(),
    }
}

fn least_of<S: SignedWord>(numbers: &[S]) -> Option<S>
    ensures reached { MatchOption result (numbers.now ≡ []) (Contains numbers.now) }
    ensures bound { IfSome result
        (λ least. All (λ number. is_lt (S.cmp number least) ≡ false) numbers.now) }
{
    numbers.iter().copied().min()
}

fn greatest_of<S: SignedWord>(numbers: &[S]) -> Option<S>
    ensures reached { MatchOption result (numbers.now ≡ []) (Contains numbers.now) }
    ensures bound { IfSome result
        (λ greatest. All (λ number. is_gt (S.cmp number greatest) ≡ false) numbers.now) }
{
    numbers.iter().copied().max()
}
