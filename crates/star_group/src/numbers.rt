// The numbers of a put.

ghost use Rattle.std.specs.Prelude.{◌≡◌, ◌≤◌, ◌+◌, ℕ, ℤ, All, List, [], ◌∷◌, pos, length, map, take};
ghost use Rattle.star_program.specs.Faults as faults;
ghost use Rattle.star_program.specs.Puts.{aligned};

use star_schema::Aggregate;

// The number of a put for an aggregate, which for a count is 1, and the remaining values for
// the others.
#[inline]
fn next_number<'a, F: Fn(u16) -> i64>(
    aggregate: Aggregate,
    values: &'a [u16],
    number_in: &F,
) -> (i64, &'a [u16])
    requires enough { faults.value_count (aggregate ∷ []) ≤ length values.now }
    requires readable { All (λ r. F.pre number_in.now r) values.now }
    ensures next { (number : ℕ → ℤ) → ((r : ℕ) (z : ℤ) → F.post number_in.now r z → z ≡ number r)
        → (gs : List Aggregate) → aligned (pos 1) (aggregate ∷ gs) (map number values.now)
        ≡ result.0 ∷ aligned (pos 1) gs (map number result.1.now) }
    ensures left { faults.value_count (aggregate ∷ []) + length result.1.now ≡ length values.now }
    ensures readable { All (λ r. F.pre number_in.now r) result.1.now }
{
    match aggregate {
        Aggregate::Count => (1, values),
        _ => (number_in(values[0]), &values[1..]),
    }
}

/// The numbers of a put, one for each of at most eight aggregates, in order: 1 for a count, which
/// takes no value, and for each other what `number_in` gives for the register that is its value.
#[inline]
pub fn numbers_put<F: Fn(u16) -> i64>(
    aggregates: &[Aggregate],
    values: &[u16],
    number_in: F,
) -> [i64; 8]
    requires few { length aggregates.now ≤ 8 }
    requires values { length values.now ≡ faults.value_count aggregates.now }
    requires readable { All (λ r. F.pre number_in r) values.now }
    ensures { (number : ℕ → ℤ) → ((r : ℕ) (z : ℤ) → F.post number_in r z → z ≡ number r)
        → take (length aggregates.now) result
        ≡ aligned (pos 1) aggregates.now (map number values.now) }
{
    let mut put = [1; 8];
    let mut left = values;
    for index in 0..aggregates.len() {
        let (number, rest) = next_number(aggregates[index], left, &number_in);
        put[index] = number;
        left = rest;
    }
    put
}
