// The columns that a query names, from the left.

ghost use Rattle.std.specs.{Prelude.{◌≡◌, ◌++◌, OnOk, IfOk, map}, Result.result_err};
ghost use Rattle.star_common.specs.First.{first_answer};
ghost use Rattle.star_query.specs.Views.{condition_view, expression_view, item_view, literal_view, measure_view, name_view, test_view, tree_view};
ghost use Rattle.star_schema.specs.Tables.{kind_of_value};
ghost use Rattle.star_plan.specs.{Faults.use_kind_fault, Faults.scope_fault, Private.Found.use_view, Private.Found.uses_view};
ghost use Rattle.star_plan.specs.Private.Stages as stages;
ghost use Rattle.star_plan.specs.Uses as spec;

use crate::fault::PlanFault;
use crate::names::{column_at, has_name, is_of};
use star_query::{Comparison, Condition, Expression, Item, Literal, Measure, Name, Test, Tree};
use star_schema::{ColumnId, Kind, name_of, table_of};
use std::alloc::{AllocError, Global};

/// A use of a column in a query.
#[derive(Clone, Copy)]
pub(crate) struct Use {
    /// The column, if there is one of this name.
    column: Option<ColumnId>,
    /// Whether it is of the kind that is asked of it there.
    fits: bool,
    at: usize,
}

impl Use {
    // A column of any kind.
    fn any(name: &Name) -> Use
        ensures { use_view result ≡ stages.any_use (name_view name.now) }
    {
        Use {
            column: column_at(name),
            fits: true,
            at: name.offset,
        }
    }

    fn of_kind(kind: Kind, name: &Name) -> Use
        ensures { use_view result ≡ stages.use_as kind (name_view name.now) }
    {
        let column = column_at(name);
        Use {
            column,
            fits: is_of(kind, column),
            at: name.offset,
        }
    }

    fn between(from: &Literal, upto: &Literal, name: &Name) -> Use
        ensures { use_view result ≡ stages.use_between (literal_view from.now)
            (literal_view upto.now) (name_view name.now) }
    {
        let column = column_at(name);
        Use {
            column,
            fits: is_of(kind_of_literal(from), column) && is_of(kind_of_literal(upto), column),
            at: name.offset,
        }
    }

    fn scope_fault(&self, tables: &[Name]) -> Result<(), PlanFault>
        ensures { result_err result ≡ scope_fault (map name_view tables.now) (use_view self.now) }
    {
        match self.column {
            None => Err(PlanFault::UnknownName { at: self.at }),
            Some(column) if !has_name(tables, name_of(table_of(column)).as_bytes()) => {
                Err(PlanFault::TableNotNamed { at: self.at })
            }
            Some(_) => Ok(()),
        }
    }

    fn kind_fault(&self) -> Result<(), PlanFault>
        ensures { result_err result ≡ use_kind_fault (use_view self.now) }
    {
        if self.fits {
            Ok(())
        } else {
            Err(PlanFault::WrongKind { at: self.at })
        }
    }
}

fn kind_of_literal(literal: &Literal) -> Kind
    ensures { result ≡ kind_of_value (literal_view literal.now) }
{
    match literal {
        Literal::Number(_) => Kind::Number,
        Literal::Text(_) => Kind::Text,
    }
}

fn add_expression(uses: &mut Vec<Use>, expression: &Expression<Name>) -> Result<(), AllocError>
    ensures { OnOk result (uses_view uses.new.items ≡ uses_view uses.old.items
        ++ spec.expression_uses (expression_view expression.now)) }
{
    match expression {
        Expression::Column(name) => {
            uses.push(Use::of_kind(Kind::Number, name))?;
            Ok(())
        }
        Expression::Number(_) => Ok(()),
        Expression::Add(left, right)
        | Expression::Sub(left, right)
        | Expression::Mul(left, right) => {
            add_expression(uses, left)?;
            add_expression(uses, right)
        }
    }
}

fn add_measure(uses: &mut Vec<Use>, measure: &Measure<Name>) -> Result<(), AllocError>
    ensures { OnOk result (uses_view uses.new.items ≡ uses_view uses.old.items
        ++ spec.measure_uses (measure_view measure.now)) }
{
    match measure {
        Measure::Count => Ok(()),
        Measure::Fold(_, expression) => add_expression(uses, expression),
    }
}

fn add_item(uses: &mut Vec<Use>, item: &Item) -> Result<(), AllocError>
    ensures { OnOk result (uses_view uses.new.items ≡ uses_view uses.old.items
        ++ spec.item_uses (item_view item.now)) }
{
    match item {
        Item::Column(name) => {
            uses.push(Use::any(name))?;
            Ok(())
        }
        Item::Aggregate(aggregate) => add_measure(uses, &aggregate.measure),
    }
}

fn add_test(uses: &mut Vec<Use>, test: &Test) -> Result<(), AllocError>
    ensures { OnOk result (uses_view uses.new.items ≡ uses_view uses.old.items
        ++ spec.test_uses (test_view test.now)) }
{
    match test {
        Test::Pair(left, right) => {
            uses.push(Use::any(left))?;
            uses.push(Use::any(right))?;
        }
        Test::Comparison(Comparison::Compare(name, _, literal)) => {
            uses.push(Use::of_kind(kind_of_literal(literal), name))?;
        }
        Test::Comparison(Comparison::Between(name, from, upto)) => {
            uses.push(Use::between(from, upto, name))?;
        }
    }
    Ok(())
}

fn add_condition(uses: &mut Vec<Use>, condition: &Condition<Test>) -> Result<(), AllocError>
    ensures { OnOk result (uses_view uses.new.items ≡ uses_view uses.old.items
        ++ stages.condition_uses (condition_view condition.now)) }
{
    match condition {
        Condition::Or(left, right) | Condition::And(left, right) => {
            add_condition(uses, left)?;
            add_condition(uses, right)?;
        }
        Condition::Not(negated) => add_condition(uses, negated)?,
        Condition::Test(test) => add_test(uses, test)?,
    }
    Ok(())
}

fn add_items(uses: &mut Vec<Use>, items: &[Item]) -> Result<(), AllocError>
    ensures { OnOk result (uses_view uses.new.items ≡ uses_view uses.old.items
        ++ stages.items_uses (map item_view items.now)) }
{
    for item in items {
        add_item(uses, item)?;
    }
    Ok(())
}

fn add_groups(uses: &mut Vec<Use>, names: &[Name]) -> Result<(), AllocError>
    ensures { OnOk result (uses_view uses.new.items ≡ uses_view uses.old.items
        ++ stages.groups_uses (map name_view names.now)) }
{
    for name in names {
        uses.push(Use::any(name))?;
    }
    Ok(())
}

/// The columns that a query names: in SELECT, in WHERE and in GROUP BY.
pub(crate) fn uses_of(alloc: Global, tree: &Tree) -> Result<Vec<Use>, AllocError>
    ensures { IfOk result (λ uses. uses_view uses.items ≡ spec.uses_of (tree_view tree.now)) }
{
    let mut uses = Vec::new(alloc);
    add_items(&mut uses, &tree.items)?;
    if let Some(condition) = &tree.condition {
        add_condition(&mut uses, condition)?;
    }
    add_groups(&mut uses, &tree.grouping.columns)?;
    Ok(uses)
}

#[tactic(auto, using(crate::proofs::Viewed::answer_passed, crate::proofs::Viewed::answer_whole))]
/// Whether each name is a column's whose table is named.
pub(crate) fn check_scope(tables: &[Name], uses: &[Use]) -> Result<(), PlanFault>
    ensures { result_err result ≡ first_answer (scope_fault (map name_view tables.now))
        (uses_view uses.now) }
{
    for named in uses {
        named.scope_fault(tables)?;
    }
    Ok(())
}

#[tactic(auto, using(crate::proofs::Viewed::answer_passed, crate::proofs::Viewed::answer_whole))]
/// Whether each column is of the kind that is asked of it.
pub(crate) fn check_kinds(uses: &[Use]) -> Result<(), PlanFault>
    ensures { result_err result ≡ first_answer use_kind_fault (uses_view uses.now) }
{
    for named in uses {
        named.kind_fault()?;
    }
    Ok(())
}
