//! Laws of ranges: functions with empty bodies, whose clauses are the laws.

ghost use Rattle.std.specs.{Prelude.{◌≡◌, ℕ, ◌⊎◌, ◌↔◌, IsTrue, ℤ, pos, ◌+ℤ◌, ◌-ℤ◌, ◌*ℤ◌, FitsSigned}, Int.{w64, w128}};
ghost use Rattle.star_interval.specs.{Range.{Range, Holds, IsWithin, FitsI64, fits_i64, FitsI128, is_i128, IsLeast, IsResult, IsMultiple, only, hull, corner_range, multiple_range}, Laws.{KeepsValues, KeepsOrder}};

/// States that the range of an operation holds the result for each pair of numbers that its
/// operands hold.
pub fn results_of_held_numbers_are_held()
    ensures sums { KeepsValues ◌+ℤ◌ (corner_range ◌+ℤ◌) }
    ensures differences { KeepsValues ◌-ℤ◌ (corner_range ◌-ℤ◌) }
    ensures products { KeepsValues ◌*ℤ◌ (corner_range ◌*ℤ◌) }
    ensures multiples { (n : ℕ) (r : Range) (z : ℤ)
        → Holds r z → Holds (multiple_range n r) (pos n *ℤ z) }
    ensures hulls { (a b : Range) (z : ℤ) → Holds a z ⊎ Holds b z → Holds (hull a b) z }
    ensures with_zero { (r : Range) (z : ℤ)
        → Holds r z ⊎ (z ≡ pos 0) → Holds (hull r (only (pos 0))) z }
{}

/// States that the result of an operation on smaller ranges is a smaller range.
pub fn smaller_ranges_make_smaller_ranges()
    ensures sums { KeepsOrder (corner_range ◌+ℤ◌) }
    ensures differences { KeepsOrder (corner_range ◌-ℤ◌) }
    ensures products { KeepsOrder (corner_range ◌*ℤ◌) }
    ensures multiples { (n : ℕ) (a b : Range)
        → IsWithin a b → IsWithin (multiple_range n a) (multiple_range n b) }
    ensures hulls { (a b c d : Range)
        → IsWithin a c → IsWithin b d → IsWithin (hull a b) (hull c d) }
    ensures with_zero { (a b : Range)
        → IsWithin a b → IsWithin (hull a (only (pos 0))) (hull b (only (pos 0))) }
{}

/// States that a range whose ends have 64 bits holds only numbers of 64 bits, and likewise for 128
/// bits, and that tests decide both.
pub fn numbers_of_fitting_ranges_fit()
    ensures held { (r : Range) (z : ℤ) → FitsI64 r → Holds r z → FitsSigned w64 z }
    ensures test { (r : Range) → IsTrue (fits_i64 r) ↔ FitsI64 r }
    ensures held_128 { (r : Range) (z : ℤ) → FitsI128 r → Holds r z → FitsSigned w128 z }
    ensures test_128 { (z : ℤ) → IsTrue (is_i128 z) ↔ FitsSigned w128 z }
{}

/// States that a least range lies within each range that holds the same numbers.
pub fn least_ranges_are_least()
    ensures results { (operation : ℤ → ℤ → ℤ) (a b r s : Range) → IsLeast (IsResult operation a b) r
        → ((z : ℤ) → IsResult operation a b z → Holds s z) → IsWithin r s }
    ensures multiples { (n : ℕ) (a r s : Range)
        → IsLeast (IsMultiple n a) r → ((z : ℤ) → IsMultiple n a z → Holds s z) → IsWithin r s }
    ensures hulls { (a b r s : Range) → IsLeast (λ z. Holds a z ⊎ Holds b z) r
        → ((z : ℤ) → Holds a z ⊎ Holds b z → Holds s z) → IsWithin r s }
    ensures with_zero { (a r s : Range) → IsLeast (λ z. Holds a z ⊎ (z ≡ pos 0)) r
        → ((z : ℤ) → Holds a z ⊎ (z ≡ pos 0) → Holds s z) → IsWithin r s }
{}
