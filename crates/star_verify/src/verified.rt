// Programs that are accepted over a catalogue.

ghost use Rattle.std.specs.Prelude.{◌≡◌, None, IfErr, IfOk, OnOk};
ghost use Rattle.star_common.specs.Memory.{UnlessMemory};
ghost use Rattle.star_world.specs.WorldOf.{world_of};
ghost use Rattle.star_safety.specs.Admissible.{first_refusal};
ghost use Rattle.star_program.specs.Limits.{IsWithinLimits};
ghost use Rattle.star_verify.specs.{declared.refusal.Refusal.TheVariants.OutOfMemory, Checked.IsVerified, Views.refusal_view};
ghost use Rattle.star_safety.specs.MostRows as bound;
ghost use Rattle.star_safety.specs.Quote as spec;

use crate::check::check;
use crate::facts::Facts;
use crate::refusal::Refusal;
use crate::rows::most_rows;
use crate::tally::Tally;
use star_catalogue::Catalogue;
use star_interval::Interval;
use star_program::{MOST_AGGREGATES, MOST_GROUPS, MOST_KEYS, Program};
use star_safety::law::admissible_programs_within_the_limit_are_not_refused;
use star_schema::Limits;
use std::alloc::Global;
use std::marker::Model;

/// A program that is accepted over the catalogue that it borrows. A contract sees the rows of that
/// catalogue and the parts of the program.
#[derive(Drop)]
pub struct Verified<'c> {
    catalogue: &'c Catalogue,
    program: Program,
    quote: u128,
    most_rows: u128,
    keys: Vec<Tally>,
}

impl<'c> Model for Verified<'c> {
    ghost use Rattle.std.specs.{Prelude.◌≡◌, Coded.codes};
    ghost use Rattle.star_safety.specs.MostRows as bound;
    ghost use Rattle.star_safety.specs.Quote as spec;
    ghost use Rattle.star_world.specs.WorldOf.{world_of};
    ghost use Rattle.star_program.specs.contracts.program.Parts.{the_row};
    ghost use Rattle.star_verify.specs.Checked.{Checked, IsVerified};

    ghost Value = { Checked };

    ghost coded = { Prim.hlevel (codes, the_row.coded) };

    ghost view = { λ v. record { database = v.catalogue.now; program = v.program } };

    ghost invariant = { λ v. (IsVerified (record {
      database = v.catalogue.now;
      program = v.program;
    })) × (v.quote ≡ spec.quote (world_of v.catalogue.now).size v.program)
        × (v.most_rows ≡ bound.most_report_rows (world_of v.catalogue.now) v.program) };
}

/// The first refusal of a program, with the program, unchanged.
#[derive(Drop)]
pub struct Refused {
    pub program: Program,
    pub refusal: Refusal,
}

impl<'c> Verified<'c> {
    /// States the properties of every verified program: it is admissible over the rows of its
    /// catalogue, its quote does not exceed the maximum of any run, and it is within the limits of
    /// programs.
    pub fn law(&self)
        ensures verified { IsVerified self.now }
        ensures limits { IsWithinLimits self.now.program }
    {
        self.program.parts();
    }

    /// Returns the catalogue that the program was checked against.
    pub fn catalogue(&self) -> &'c Catalogue
        ensures { result.now ≡ self.now.database }
    {
        self.catalogue
    }

    /// Returns the program.
    pub fn program(&self) -> &Program
        ensures { result.now ≡ self.now.program }
    {
        &self.program
    }

    /// Returns the quote: the maximum number of visits of a run.
    pub fn quote(&self) -> u128
        ensures { result ≡ spec.quote (world_of self.now.database).size self.now.program }
    {
        self.quote
    }

    /// Returns the maximum number of rows of a run's report, computed before the run. A grouping
    /// that shows no key has one row. Any other has no more rows than there are updates of the
    /// group, and than there are lists of values of the keys that it shows.
    pub fn most_rows(&self) -> u128
        ensures { result ≡ bound.most_report_rows (world_of self.now.database) self.now.program }
    {
        self.most_rows
    }

    /// Returns the least range of the numbers that are put to a key of a group, both by number,
    /// computed before a run; `None` if no number is known. No clause mentions it: it may make a
    /// run faster and changes no answer.
    pub fn expected(&self, group: usize, index: usize) -> Option<Interval> {
        if index < MOST_KEYS && group < MOST_GROUPS {
            self.keys.get(MOST_AGGREGATES * group + index)?.each
        } else {
            None
        }
    }

    /// Returns the program, which may be checked again.
    pub fn into_program(self) -> Program
        ensures { result ≡ self.entry.program }
    {
        let Verified { program, .. } = self;
        program
    }
}

/// Checks a program against a catalogue, for at most `visits` visits. It is accepted exactly if it
/// is admissible and its quote is within the limit, unless memory runs out. Otherwise it is
/// returned with its first refusal: too many visits, then the first refused instruction, then the
/// report.
pub fn verify<'c>(
    alloc: Global,
    catalogue: &'c Catalogue,
    program: Program,
    limits: Limits,
) -> Result<Verified<'c>, Refused>
    ensures verified { IfOk result
        (λ verified. (verified.database ≡ catalogue.now) × (verified.program ≡ program)) }
    ensures accepted { OnOk result
        (first_refusal (world_of catalogue.now) limits.visits program ≡ None) }
    ensures refused { IfErr result (λ refused.
        UnlessMemory OutOfMemory refused.refusal (first_refusal
        (world_of catalogue.now) limits.visits program ≡ refusal_view refused.refusal)) }
    ensures handed_back { IfErr result (λ refused. refused.program ≡ program) }
{
    admissible_programs_within_the_limit_are_not_refused();
    let facts = Facts::of(catalogue);
    match check(alloc, &program, &facts, limits) {
        Ok(accepted) => {
            let most_rows = most_rows(catalogue, program.parts(), &accepted.keys);
            Ok(Verified {
                catalogue,
                program,
                quote: accepted.visits,
                most_rows,
                keys: accepted.keys,
            })
        }
        Err(refusal) => Err(Refused { program, refusal }),
    }
}
