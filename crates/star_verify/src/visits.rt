// The quote of a program.

ghost use Rattle.std.specs.Prelude.{◌≡◌, ◌≤◌, ◌*◌, ◌^◌};
ghost use Rattle.star_schema.specs.Sizes.{size_of};
ghost use Rattle.star_program.specs.Code.{code_size, scan_depth};
ghost use Rattle.star_safety.specs.Quote as spec;

use star_program::{Body, Program, Step};
use star_schema::Sizes;

// Returns the visits of a body that is executed `times` times. Each nested scan multiplies by at
// most 32 bits, and scans nest at most three deep; the sum over all instructions fits 128 bits.
fn turns_met(sizes: &Sizes, times: u128, body: &Body) -> u128
    requires few { code_size body.now ≤ 4096 }
    requires deep { times * (2 ^ 32) ^ scan_depth body.now ≤ 2 ^ 96 }
    ensures turns { result ≡ spec.turns_met (size_of sizes.now) times body.now }
    ensures bound { result ≤ code_size body.now * 2 ^ 96 }
{
    let mut total = 0;
    for step in body.as_slice() {
        match step {
            Step::Act(_) => {}
            Step::Scan { table, body, .. } => {
                let turns = times * u128::from(sizes.of(*table));
                total += turns + turns_met(sizes, turns, body);
            }
        }
    }
    total
}

/// Returns the maximum number of visits of a program over tables of these sizes: the sum, over its
/// scans, of the product of the row counts of that scan and of the enclosing scans.
pub fn quote(program: &Program, sizes: &Sizes) -> u128
    ensures { result ≡ spec.quote (size_of sizes.now) program.now }
{
    turns_met(sizes, 1, &program.parts().body)
}
