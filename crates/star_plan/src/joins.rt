// The comparisons of two columns in a query's condition.

ghost use Rattle.std.specs.{Prelude.{◌≡◌, ◌++◌, OnOk, IfOk, map, option_map}, List.list_any, Result.result_err};
ghost use Rattle.star_common.specs.First.{first_answer};
ghost use Rattle.star_query.specs.Views.{condition_view, name_view};
ghost use Rattle.star_plan.specs.{First.first_beside, Faults.missing_fault, Faults.pair_fault, Private.Stages.join_fault, Private.Found.pair_view, Private.Found.pairs_view};
ghost use Rattle.star_schema.specs.Schema as schema;
ghost use Rattle.star_plan.specs.Joins as spec;

use crate::fault::PlanFault;
use crate::names::{column_at, table_at};
use crate::tree::Join;
use star_query::{Condition, Name, Test};
use star_schema::{ColumnId, Key, TableId, is_table, key_of, references, table_of};
use std::alloc::{AllocError, Global};

/// Two columns that are compared.
#[derive(Clone, Copy)]
pub(crate) struct Pair {
    /// The join that they make, if they make one and the comparison is a conjunct of the whole
    /// condition.
    join: Option<Join>,
    /// The position of the first of them.
    at: usize,
}

// Whether the column by itself is the key.
fn is_lone_key(column: ColumnId, key: Key) -> bool
    ensures { result ≡ spec.is_lone_key column key }
{
    match key {
        Key::One(lone) => column as usize == lone as usize,
        Key::Two(_, _) => false,
    }
}

// Whether the column refers to the table.
fn refers(foreign: ColumnId, table: TableId) -> bool
    ensures { result ≡ spec.refers (schema.references foreign) table }
{
    match references(foreign) {
        None => false,
        Some(referred) => is_table(referred, table),
    }
}

// Whether the first column is a foreign key, and the second the key that it references.
fn is_foreign(foreign: ColumnId, key: ColumnId) -> bool
    ensures { result ≡ spec.is_foreign foreign key }
{
    let table = table_of(key);
    refers(foreign, table) && is_lone_key(key, key_of(table))
}

fn join_by(foreign: ColumnId, key: ColumnId) -> Option<Join>
    ensures { result ≡ spec.join_by foreign key }
{
    if is_foreign(foreign, key) {
        Some(Join { foreign, key })
    } else {
        None
    }
}

// The join that two columns make, in either order.
fn join_of(first: Option<ColumnId>, second: Option<ColumnId>) -> Option<Join>
    ensures { result ≡ spec.join_of first second }
{
    match (first, second) {
        (Some(first), Some(second)) => match join_by(first, second) {
            Some(join) => Some(join),
            None => join_by(second, first),
        },
        _ => None,
    }
}

fn add_pairs(
    pairs: &mut Vec<Pair>,
    is_conjunct: bool,
    condition: &Condition<Test>,
) -> Result<(), AllocError>
    ensures { OnOk result (pairs_view pairs.new.items ≡ pairs_view pairs.old.items
        ++ spec.pairs_of is_conjunct (condition_view condition.now)) }
{
    match condition {
        Condition::And(left, right) => {
            add_pairs(pairs, is_conjunct, left)?;
            add_pairs(pairs, is_conjunct, right)?;
        }
        Condition::Or(left, right) => {
            add_pairs(pairs, false, left)?;
            add_pairs(pairs, false, right)?;
        }
        Condition::Not(negated) => add_pairs(pairs, false, negated)?,
        Condition::Test(Test::Pair(first, second)) => {
            let join = if is_conjunct {
                join_of(column_at(first), column_at(second))
            } else {
                None
            };
            let at = first.offset;
            pairs.push(Pair { join, at })?;
        }
        Condition::Test(Test::Comparison(_)) => {}
    }
    Ok(())
}

/// The comparisons of two columns, from the left.
pub(crate) fn pairs_of(
    alloc: Global,
    condition: &Option<Condition<Test>>,
) -> Result<Vec<Pair>, AllocError>
    ensures { IfOk result (λ pairs. pairs_view pairs.items
        ≡ spec.where_pairs (option_map condition_view condition.now)) }
{
    let mut pairs = Vec::new(alloc);
    if let Some(condition) = condition {
        add_pairs(&mut pairs, true, condition)?;
    }
    Ok(pairs)
}

/// The joins among the comparisons.
pub(crate) fn joins_of(alloc: Global, pairs: &[Pair]) -> Result<Vec<Join>, AllocError>
    ensures { IfOk result (λ joins. joins.items ≡ spec.joins_of (pairs_view pairs.now)) }
{
    let mut joins = Vec::new(alloc);
    for pair in pairs {
        if let Some(join) = pair.join {
            joins.push(join)?;
        }
    }
    Ok(joins)
}

fn any_joins(pairs: &[Pair], table: TableId) -> bool
    ensures { result ≡ list_any (λ p. spec.joins table p.join) pairs.now }
{
    pairs.iter().any(|pair| joins(table, pair.join))
}

// Whether one of the comparisons joins the table.
fn is_joined(pairs: &[Pair], table: TableId) -> bool
    ensures { result ≡ spec.is_joined (pairs_view pairs.now) table }
{
    any_joins(pairs, table)
}

fn joins(table: TableId, join: Option<Join>) -> bool
    ensures { result ≡ spec.joins table join }
{
    match join {
        None => false,
        Some(join) => is_table(table, table_of(join.key)),
    }
}

impl Pair {
    // Whether the columns join, and their dimension has no join before.
    fn check(&self, before: &[Pair]) -> Result<(), PlanFault>
        ensures { result_err result ≡ pair_fault (pairs_view before.now) (pair_view self.now) }
    {
        match self.join {
            None => Err(PlanFault::NotAKeyPair { at: self.at }),
            Some(join) if is_joined(before, table_of(join.key)) => {
                Err(PlanFault::JoinTwice { at: self.at })
            }
            Some(_) => Ok(()),
        }
    }
}

#[tactic(auto, using(crate::proofs::Viewed::beside_passed, crate::proofs::Viewed::beside_whole))]
// Whether each comparison joins a dimension that has no join before.
fn check_pairs(pairs: &[Pair]) -> Result<(), PlanFault>
    ensures { result_err result ≡ first_beside pair_fault (pairs_view pairs.now) }
{
    for index in 0..pairs.len() {
        pairs[index].check(&pairs[..index])?;
    }
    Ok(())
}

// Whether a name of FROM is lineorder's, or a dimension's that is joined.
fn check_dimension(pairs: &[Pair], name: &Name) -> Result<(), PlanFault>
    ensures { result_err result ≡ missing_fault (pairs_view pairs.now) (name_view name.now) }
{
    match table_at(name) {
        Some(table) if table != TableId::Lineorder && !is_joined(pairs, table) => {
            Err(PlanFault::JoinMissing { at: name.offset })
        }
        _ => Ok(()),
    }
}

#[tactic(auto, using(crate::proofs::Viewed::answer_passed, crate::proofs::Viewed::answer_whole))]
// Whether each dimension of FROM is joined.
fn check_dimensions(pairs: &[Pair], tables: &[Name]) -> Result<(), PlanFault>
    ensures { result_err result ≡ first_answer (missing_fault (pairs_view pairs.now))
        (map name_view tables.now) }
{
    for name in tables {
        check_dimension(pairs, name)?;
    }
    Ok(())
}

/// Whether each comparison of two columns joins a dimension, and each dimension of FROM is joined
/// once.
pub(crate) fn check_joins(tables: &[Name], pairs: &[Pair]) -> Result<(), PlanFault>
    ensures { result_err result ≡ join_fault (map name_view tables.now) (pairs_view pairs.now) }
{
    check_pairs(pairs)?;
    check_dimensions(pairs, tables)
}
