// The input of a check, which does not change.

ghost use Rattle.star_program.specs.Limits.{IsWithinLimits};

use crate::facts::Facts;
use star_program::Parts;
use std::alloc::Global;

// A program within its limits, the facts of the tables, and an allocator.
#[derive(Clone, Copy)]
pub(crate) struct CheckInput<'a> {
    pub(crate) alloc: Global,
    pub(crate) parts: &'a Parts,
    pub(crate) facts: &'a Facts,
    ghost limits: { IsWithinLimits parts.now },
}
