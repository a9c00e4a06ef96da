// The groups that some steps put to.

ghost use Rattle.std.specs.Prelude.{◌≡◌, ◌<◌, ◌||◌, ℕ, false, length, nat_eq, slice_index_or};
ghost use Rattle.star_program.specs.CodeOfSteps.{code_of_steps};
ghost use Rattle.star_safety.specs.{Private.Forward.code_puts_to, Standing.op_puts_to};

use star_program::{Op, Step};

// Marks the group with a number, if it is declared.
#[tactic(auto, using(crate::proofs::Marks::marked_at))]
fn mark(pending: &mut [bool], group: u16)
    ensures marked { (g : ℕ) → g < length pending.old → slice_index_or pending.new g false
        ≡ (slice_index_or pending.old g false || nat_eq g group) }
    ensures len { length pending.new ≡ length pending.old }
{
    if (group as usize) < pending.len() {
        pending[group as usize] = true;
    }
}

fn mark_op(pending: &mut [bool], op: &Op)
    ensures marked { (g : ℕ) → g < length pending.old → slice_index_or pending.new g false
        ≡ (slice_index_or pending.old g false || op_puts_to g op.now) }
    ensures len { length pending.new ≡ length pending.old }
{
    match op {
        Op::Put { group, .. } => mark(pending, *group),
        Op::Assign { .. } | Op::Keep { .. } => {}
    }
}

// Marks the groups that these steps put to.
pub(crate) fn mark_puts(pending: &mut [bool], steps: &[Step])
    ensures marked { (g : ℕ) → g < length pending.old → slice_index_or pending.new g false
        ≡ (slice_index_or pending.old g false || code_puts_to g (code_of_steps steps.now)) }
    ensures len { length pending.new ≡ length pending.old }
{
    for step in steps {
        match step {
            Step::Act(op) => mark_op(pending, op),
            Step::Scan { body, .. } => mark_puts(pending, body.as_slice()),
        }
    }
}
