// What walks over a program read and never change.

ghost use Rattle.std.specs.Prelude.{◌≤◌, ◌<◌, ◌+◌, ◌^◌, All};
ghost use Rattle.star_program.specs.{Code.code_size, Limits.IsSmall};

use crate::compute::Register;
use star_catalogue::Catalogue;
use star_program::{Body, Parts};
use star_schema::TableId;

// The tables, the program, and how many turns may begin in all.
#[derive(Clone, Copy)]
pub(crate) struct Machine<'a> {
    pub(crate) catalogue: &'a Catalogue,
    pub(crate) parts: &'a Parts,
    pub(crate) most: u64,
    ghost small: { All IsSmall parts.now.groups },
    ghost bounded: { most ≤ 10 ^ 15 },
}

// A scan: of a table, into a register; its body, its number, and the registers before it.
#[derive(Clone, Copy)]
pub(crate) struct Scanned<'a> {
    pub(crate) table: TableId,
    pub(crate) target: u16,
    pub(crate) body: &'a Body,
    pub(crate) at: u16,
    pub(crate) before: &'a [Register],
    ghost size: { code_size body.now < 4096 },
    ghost numbered: { at + 1 + code_size body.now < 2 ^ 16 },
}
