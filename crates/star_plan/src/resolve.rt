// A query's names resolved, if each of them names something.

ghost use Rattle.std.specs.Prelude.{◌≡◌, ◌+◌, ◌≤◌, [], ◌∷◌, IfOk, length, map, option_map};
ghost use Rattle.star_query.specs.{Views.{aggregate_view, condition_view, expression_view, item_view, literal_view, measure_view, name_view, test_view}, Maxima.most_items, Tree.{between, compare, comparison}};
ghost use Rattle.star_plan.specs.{Names.column_at, WellNamed.IsThere, Private.Answers.Resolves, Private.Answers.conditions_view};
ghost use Rattle.star_plan.specs.Naming as naming;
ghost use Rattle.star_plan.specs.Private.Stages as stages;
ghost use Rattle.star_plan.specs.Resolved as spec;
ghost use Rattle.star_plan.specs.Views as shown;

use crate::names::column_at;
use crate::tree::{Aggregate, RowCondition};
use star_query as query;
use star_query::{Comparison, Condition, Expression, Item, Literal, Measure, Name, Relation, Test};
use star_schema::ColumnId;
use std::alloc::{AllocError, Global};

// The column of a name.
fn resolve_column(name: &Name) -> ColumnId
    requires { IsThere (column_at (name_view name.now)) }
    ensures { Some result ≡ column_at (name_view name.now) }
{
    match column_at(name) {
        Some(column) => column,
        None => unreachable!(),
    }
}

#[tactic(auto, using(crate::proofs::Options::left_there, crate::proofs::Options::right_there, crate::proofs::Options::both_there, crate::proofs::Options::mapped_there))]
#[cycle(expression)]
fn resolve_expression(
    alloc: Global,
    expression: &Expression<Name>,
) -> Result<Expression<ColumnId>, AllocError>
    requires { IsThere (spec.resolved_expression (expression_view expression.now)) }
    ensures { Resolves shown.column_expression_view
        (spec.resolved_expression (expression_view expression.now)) result }
{
    match expression {
        Expression::Column(name) => Ok(Expression::Column(resolve_column(name))),
        Expression::Number(number) => Ok(Expression::Number(*number)),
        Expression::Add(left, right) => Ok(Expression::Add(
            resolve_operand(alloc, left)?,
            resolve_operand(alloc, right)?,
        )),
        Expression::Sub(left, right) => Ok(Expression::Sub(
            resolve_operand(alloc, left)?,
            resolve_operand(alloc, right)?,
        )),
        Expression::Mul(left, right) => Ok(Expression::Mul(
            resolve_operand(alloc, left)?,
            resolve_operand(alloc, right)?,
        )),
    }
}

// What an operator joins.
#[cycle(expression)]
fn resolve_operand(
    alloc: Global,
    operand: &Expression<Name>,
) -> Result<Box<Expression<ColumnId>>, AllocError>
    requires { IsThere (spec.resolved_expression (expression_view operand.now)) }
    ensures { Resolves (λ boxed. shown.column_expression_view boxed.value)
        (spec.resolved_expression (expression_view operand.now)) result }
{
    let operand = resolve_expression(alloc, operand)?;
    Ok(Box::new(alloc, operand)?)
}

/// What an aggregate computes.
fn resolve_measure(alloc: Global, measure: &Measure<Name>) -> Result<Measure<ColumnId>, AllocError>
    requires { IsThere (spec.resolved_measure (measure_view measure.now)) }
    ensures { Resolves shown.column_measure_view (spec.resolved_measure (measure_view measure.now))
        result }
{
    match measure {
        Measure::Count => Ok(Measure::Count),
        Measure::Fold(fold, expression) => {
            let expression = resolve_expression(alloc, expression)?;
            Ok(Measure::Fold(*fold, expression))
        }
    }
}

fn copy_literal(alloc: Global, literal: &Literal) -> Result<Literal, AllocError>
    ensures { IfOk result (λ copy. literal_view copy ≡ literal_view literal.now) }
{
    match literal {
        Literal::Number(number) => Ok(Literal::Number(*number)),
        Literal::Text(text) => Ok(Literal::Text(Vec::from_slice(alloc, text)?)),
    }
}

fn resolve_compare(
    alloc: Global,
    name: &Name,
    relation: Relation,
    literal: &Literal,
) -> Result<Comparison<ColumnId>, AllocError>
    requires { IsThere (column_at (name_view name.now)) }
    ensures { Resolves shown.comparison_view (spec.resolved_test (comparison (compare
        (name_view name.now) relation (literal_view literal.now)))) result }
{
    let column = resolve_column(name);
    let literal = copy_literal(alloc, literal)?;
    Ok(Comparison::Compare(column, relation, literal))
}

fn resolve_between(
    alloc: Global,
    name: &Name,
    from: &Literal,
    upto: &Literal,
) -> Result<Comparison<ColumnId>, AllocError>
    requires { IsThere (column_at (name_view name.now)) }
    ensures { Resolves shown.comparison_view (spec.resolved_test (comparison (between
        (name_view name.now) (literal_view from.now) (literal_view upto.now)))) result }
{
    let column = resolve_column(name);
    let from = copy_literal(alloc, from)?;
    let upto = copy_literal(alloc, upto)?;
    Ok(Comparison::Between(column, from, upto))
}

// What a test of a row compares.
fn resolve_test(alloc: Global, test: &Test) -> Result<Comparison<ColumnId>, AllocError>
    requires { IsThere (spec.resolved_test (test_view test.now)) }
    ensures { Resolves shown.comparison_view (spec.resolved_test (test_view test.now)) result }
{
    match test {
        Test::Pair(_, _) => unreachable!(),
        Test::Comparison(Comparison::Compare(name, relation, literal)) => {
            resolve_compare(alloc, name, *relation, literal)
        }
        Test::Comparison(Comparison::Between(name, from, upto)) => {
            resolve_between(alloc, name, from, upto)
        }
    }
}

// A condition in which no two columns are compared.
#[tactic(auto, using(crate::proofs::Options::left_there, crate::proofs::Options::right_there, crate::proofs::Options::both_there, crate::proofs::Options::mapped_there))]
#[cycle(condition)]
fn resolve_condition(alloc: Global, condition: &Condition<Test>) -> Result<RowCondition, AllocError>
    requires { IsThere (spec.resolved_condition (condition_view condition.now)) }
    ensures { Resolves shown.row_condition_view (spec.resolved_condition
        (condition_view condition.now)) result }
{
    match condition {
        Condition::Or(left, right) => {
            Ok(Condition::Or(resolve_part(alloc, left)?, resolve_part(alloc, right)?))
        }
        Condition::And(left, right) => {
            Ok(Condition::And(resolve_part(alloc, left)?, resolve_part(alloc, right)?))
        }
        Condition::Not(negated) => Ok(Condition::Not(resolve_part(alloc, negated)?)),
        Condition::Test(test) => Ok(Condition::Test(resolve_test(alloc, test)?)),
    }
}

// What a logical operator joins.
#[cycle(condition)]
fn resolve_part(alloc: Global, part: &Condition<Test>) -> Result<Box<RowCondition>, AllocError>
    requires { IsThere (spec.resolved_condition (condition_view part.now)) }
    ensures { Resolves (λ boxed. shown.row_condition_view boxed.value)
        (spec.resolved_condition (condition_view part.now)) result }
{
    let part = resolve_condition(alloc, part)?;
    Ok(Box::new(alloc, part)?)
}

#[tactic(auto, using(crate::proofs::Options::mapped_there))]
fn lone_conjunct(
    alloc: Global,
    condition: &Condition<Test>,
) -> Result<Vec<RowCondition>, AllocError>
    requires { IsThere (option_map (λ c. c ∷ [])
        (spec.resolved_condition (condition_view condition.now))) }
    ensures { Resolves conditions_view (option_map (λ c. c ∷ [])
        (spec.resolved_condition (condition_view condition.now))) result }
{
    let conjunct = resolve_condition(alloc, condition)?;
    let mut conjuncts = Vec::new(alloc);
    conjuncts.push(conjunct)?;
    Ok(conjuncts)
}

// The conjuncts that don't compare two columns, from the left.
#[tactic(auto, using(crate::proofs::Options::left_there, crate::proofs::Options::right_there, crate::proofs::Options::both_there, crate::proofs::Options::mapped_there, crate::proofs::Options::conditions_join))]
fn conjuncts_of(alloc: Global, condition: &Condition<Test>) -> Result<Vec<RowCondition>, AllocError>
    requires { IsThere (spec.conjuncts_of (condition_view condition.now)) }
    ensures { Resolves conditions_view (spec.conjuncts_of (condition_view condition.now)) result }
{
    match condition {
        Condition::And(left, right) => {
            let mut conjuncts = conjuncts_of(alloc, left)?;
            let mut others = conjuncts_of(alloc, right)?;
            conjuncts.append(&mut others)?;
            Ok(conjuncts)
        }
        Condition::Test(Test::Pair(_, _)) => Ok(Vec::new(alloc)),
        Condition::Or(_, _) | Condition::Not(_) | Condition::Test(Test::Comparison(_)) => {
            lone_conjunct(alloc, condition)
        }
    }
}

/// The conjuncts of WHERE that don't compare two columns, from the left.
pub(crate) fn resolve_where(
    alloc: Global,
    condition: &Option<Condition<Test>>,
) -> Result<Vec<RowCondition>, AllocError>
    requires { IsThere (spec.where_conjuncts (option_map condition_view condition.now)) }
    ensures { Resolves conditions_view (spec.where_conjuncts
        (option_map condition_view condition.now)) result }
{
    match condition {
        None => Ok(Vec::new(alloc)),
        Some(condition) => conjuncts_of(alloc, condition),
    }
}

/// The group columns.
#[tactic(auto, using(crate::proofs::Options::all_there, crate::proofs::Options::all_more, crate::proofs::Options::all_whole, crate::proofs::Options::all_first))]
pub(crate) fn resolve_groups(alloc: Global, groups: &[Name]) -> Result<Vec<ColumnId>, AllocError>
    requires { IsThere (spec.option_all column_at (map name_view groups.now)) }
    ensures { Resolves (λ keys. keys.items) (spec.option_all column_at (map name_view groups.now))
        result }
{
    let mut keys = Vec::new(alloc);
    for name in groups {
        keys.push(resolve_column(name))?;
    }
    Ok(keys)
}

// The word of an aggregate's function.
#[tactic(auto, unfolding(crate::specs::Naming::function_word))]
fn function_word(measure: &Measure<Name>) -> &'static str
    ensures { result.now ≡ naming.function_word (measure_view measure.now) }
{
    match measure {
        Measure::Count => "count",
        Measure::Fold(query::Fold::Sum, _) => "sum",
        Measure::Fold(query::Fold::Min, _) => "min",
        Measure::Fold(query::Fold::Max, _) => "max",
    }
}

fn default_name(
    alloc: Global,
    measure: &Measure<Name>,
    number: usize,
) -> Result<Vec<u8>, AllocError>
    ensures { IfOk result (λ name. name.items
        ≡ naming.default_name (measure_view measure.now) number) }
{
    let word = function_word(measure);
    let name = format!(in alloc; "{word}{number}")?;
    Ok(name.into_bytes())
}

// The name of an aggregate: its own, or its function and its number among the aggregates.
fn aggregate_name(
    alloc: Global,
    number: usize,
    aggregate: &query::Aggregate,
) -> Result<Vec<u8>, AllocError>
    ensures { IfOk result (λ name. name.items
        ≡ naming.name_of_aggregate number (aggregate_view aggregate.now)) }
{
    match &aggregate.name {
        Some(name) => name.text.clone(),
        None => default_name(alloc, &aggregate.measure, number),
    }
}

// An aggregate, with its number among the aggregates.
fn resolve_aggregate(
    alloc: Global,
    number: usize,
    aggregate: &query::Aggregate,
) -> Result<Aggregate, AllocError>
    requires { IsThere (spec.resolved_measure (measure_view aggregate.now.measure)) }
    ensures measure { Resolves (λ a. shown.column_measure_view a.measure)
        (spec.resolved_measure (measure_view aggregate.now.measure)) result }
    ensures name { IfOk result (λ a. a.name.items
        ≡ naming.name_of_aggregate number (aggregate_view aggregate.now)) }
{
    let measure = resolve_measure(alloc, &aggregate.measure)?;
    let name = aggregate_name(alloc, number, aggregate)?;
    Ok(Aggregate { measure, name })
}

/// The aggregates, from the left.
pub(crate) fn resolve_aggregates(
    alloc: Global,
    items: &[Item],
) -> Result<Vec<Aggregate>, AllocError>
    requires there { IsThere (stages.resolved_measures (map item_view items.now)) }
    requires few { length items.now ≤ most_items }
    ensures measures { Resolves (λ aggregates. shown.measures_view aggregates.items)
        (stages.resolved_measures (map item_view items.now)) result }
    ensures names { IfOk result (λ aggregates. shown.names_view aggregates.items
        ≡ naming.aggregate_names (map item_view items.now)) }
    ensures few { IfOk result (λ aggregates. length aggregates.items ≤ length items.now) }
{
    let mut aggregates = Vec::new(alloc);
    for item in items {
        if let Item::Aggregate(aggregate) = item {
            let number = aggregates.len() + 1;
            let aggregate = resolve_aggregate(alloc, number, aggregate)?;
            aggregates.push(aggregate)?;
        }
    }
    Ok(aggregates)
}
