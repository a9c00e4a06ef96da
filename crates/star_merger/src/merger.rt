// A query whose partials are merged.

ghost use Rattle.std.specs.Prelude.{◌≡◌, ℕ, IfOk, List, MatchResult};
ghost use Rattle.star_schema.specs.Database.{Database};
ghost use Rattle.star_partial.specs.{Contents.Contents, Text.partial_text};
ghost use Rattle.star_merger.specs.{Partials.contents_of, Columns.{column_kinds, column_names, plan_columns}, Mergers.IsMergerOf, Spelled.IsSpelled, Texts.IsPartialText};
ghost use Rattle.star_engine.specs.{Answered.OrMemory, Queries.IsQueryError};

use crate::columns::{PartialColumn, columns_of};
use crate::fault::PartialFault;
use crate::partial::Partial;
use crate::reading::read_partial;
use star_compile::compile;
use star_engine::EngineFault;
use star_plan::{Plan, plan};
use star_program::Program;
use star_query::Query;
use std::alloc::Global;
use std::marker::Model;

/// A query whose partials are merged. It is read before any partial. A contract sees its text and
/// its plan.
pub struct Merger {
    pub(crate) query: Vec<u8>,
    pub(crate) plan: Plan,
    pub(crate) program: Program,
    columns: Vec<PartialColumn>,
}

impl Drop for Merger {
    fn drop(self) {
        let Self {
            query,
            plan,
            program,
            columns,
        } = self;
    }
}

impl Model for Merger {
    ghost use Rattle.std.specs.Coded.{codes};
    ghost use Rattle.star_plan.specs.contracts.tree.PlanTree.{the_row};
    ghost use Rattle.star_merger.specs.Mergers.{PlannedQuery};

    ghost Value = { PlannedQuery };

    ghost coded = { Prim.hlevel (codes, the_row.coded) };

    ghost use Rattle.star_merger.specs.Private.Inside.{IsOfPlan, planned_query};

    ghost view = { planned_query };

    ghost invariant = { IsOfPlan };
}

impl Merger {
    /// Reads a query, or returns its first error.
    pub fn of_query(alloc: Global, text: &[u8]) -> Result<Merger, EngineFault>
        ensures { MatchResult result (IsMergerOf text.now) (OrMemory (IsQueryError text.now)) }
    {
        let query = Query::parse(alloc, text)?;
        let plan = plan(alloc, &query)?;
        let program = compile(alloc, &plan)?;
        let columns = columns_of(alloc, plan.tree())?;
        Ok(Merger {
            query: text.to_vec(alloc)?,
            plan,
            program,
            columns,
        })
    }

    /// Reads the text of a partial of the query, or returns its first fault. It is exactly the text
    /// that `write_partial` writes of the result, and that of no other partial.
    pub fn read(&self, alloc: Global, text: &[u8]) -> Result<Partial, PartialFault>
        ensures text { (query : List ℕ) → IsMergerOf query self.now
            → IfOk result (λ partial. text.now ≡ partial_text query (contents_of partial)) }
        ensures same { (query : List ℕ) (written : Contents) (is : IsMergerOf query self.now)
            → let columns = plan_columns is.p in
            IsSpelled (column_names columns) (column_kinds columns) written
            → text.now ≡ partial_text query written
            → IfOk result (λ partial. contents_of partial ≡ written) }
        ensures written { (most : ℕ) (database : Database) (query : List ℕ)
            (is : IsPartialText most database query text.now) → IsMergerOf query self.now
            → IfOk result (λ partial. contents_of partial ≡ is.contents) }
    {
        read_partial(alloc, &self.query, &self.columns, text)
    }
}
