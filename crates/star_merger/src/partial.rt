// Partials that were read.

ghost use Rattle.std.specs.Prelude.{◌≡◌, IfOk};
ghost use Rattle.star_partial.specs.Contents.{contents_of as contents_of_whole};
ghost use Rattle.star_merger.specs.Partials.{contents_of};

use star_interval::Interval;
use star_merge::FlatRows;
use star_partial::{Partial as Whole, Span};
use star_program::{Items, Name, Outcome};
use star_schema::Sizes;
use std::alloc::{AllocError, Global};
use std::marker::Model;

/// The outcome of a partial's plain program, in little memory. A contract sees the outcome.
#[derive(Drop)]
pub struct Run {
    pub(crate) names: Items<Name>,
    pub(crate) rows: FlatRows,
    pub(crate) visits: u64,
    pub(crate) lookups: u64,
    pub(crate) updates: u64,
}

impl Model for Run {
    ghost use Rattle.star_program.specs.declared.outcome.Outcome.{Outcome as Shown};

    ghost Value = { Shown };

    ghost view = { λ run. record {
      names = run.names;
      rows = run.rows;
      visits = run.visits;
      lookups = run.lookups;
      updates = run.updates;
    } };
}

/// A partial that was read, as `star_partial` has it, in little memory.
#[derive(Drop)]
pub struct Partial {
    pub(crate) digest: [u8; 32],
    pub(crate) span: Option<Span>,
    pub(crate) sizes: Sizes,
    pub(crate) bounds: [Interval; 58],
    pub(crate) run: Option<Run>,
}

fn copied_names(alloc: Global, names: &[Name]) -> Result<Items<Name>, AllocError>
    ensures { IfOk result (λ copies. copies ≡ names.now) }
{
    let mut copies = Vec::with_capacity(alloc, names.len())?;
    for name in names {
        copies.push(Items::from_vec(name.as_slice().to_vec(alloc)?))?;
    }
    Ok(Items::from_vec(copies))
}

// Returns an outcome by cells.
fn outcome_of(alloc: Global, run: &Run) -> Result<Outcome, AllocError>
    ensures { IfOk result (λ outcome. outcome ≡ run.now) }
{
    Ok(Outcome {
        names: copied_names(alloc, run.names.as_slice())?,
        rows: run.rows.unpacked(alloc)?,
        visits: run.visits,
        lookups: run.lookups,
        updates: run.updates,
    })
}

fn outcome_if(alloc: Global, run: &Option<Run>) -> Result<Option<Outcome>, AllocError>
    ensures { IfOk result (λ outcome. outcome ≡ run.now) }
{
    match run {
        Some(run) => Ok(Some(outcome_of(alloc, run)?)),
        None => Ok(None),
    }
}

impl Partial {
    /// Returns the partial as `star_partial` has it.
    pub(crate) fn unpacked(&self, alloc: Global) -> Result<Whole, AllocError>
        ensures { IfOk result (λ whole. contents_of_whole whole ≡ contents_of self.now) }
    {
        Ok(Whole {
            digest: self.digest,
            span: self.span,
            sizes: self.sizes,
            bounds: self.bounds,
            run: outcome_if(alloc, &self.run)?,
        })
    }
}
