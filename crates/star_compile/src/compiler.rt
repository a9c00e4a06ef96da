// The program of a plan.

ghost use Rattle.std.specs.{Prelude.{◌≡◌, ◌+◌, ◌≤◌, true, IfOk, length}, List.list_all};
ghost use Rattle.star_schema.specs.declared.table.TableId.TheVariants.{Lineorder};
ghost use Rattle.star_plan.specs.{Limits.IsPlanWithinLimits, Views.plan_view, Sound.IsSoundPlan, Sound.is_group_column, Spelled.IsSpelledPlan, Spelled.condition_is_spelled};
ghost use Rattle.star_program.specs.{Code.Each, Code.Stop, CodeOfSteps.code_of_steps};
ghost use Rattle.star_compile_laws.specs.Compiled.{compiled, register_count, turn_code};
ghost use Rattle.star_merge_laws.specs.Plain.{plain_plan};
ghost use Rattle.star_compile.specs.Private.Shown.{plan_shown};

use crate::declarations::{group, plain_columns, shows};
use crate::emitter::Emitter;
use star_plan::law::planned_queries_are_sound;
use star_plan::{Plan, PlanTree};
use star_program::{Body, Items, Parts, Program, Step};
use star_schema::{GroupColumn, Shape, SortKey, TableId};
use std::alloc::{AllocError, Global};

// Compiles the body of the scan: the filters, the keys, the aggregates' numbers, and one put.
fn turn(alloc: Global, tree: &PlanTree) -> Result<Emitter, AllocError>
    requires room { 1 + register_count (turn_code (plan_view tree.now)) ≤ 4096 }
    requires spelled { list_all condition_is_spelled (plan_view tree.now).conjuncts ≡ true }
    ensures code { IfOk result (λ emitter.
        code_of_steps emitter.steps.items ≡ turn_code (plan_view tree.now)) }
    ensures registers { IfOk result (λ emitter.
        emitter.next ≡ 1 + register_count (turn_code (plan_view tree.now))) }
{
    let mut emitter = Emitter::new(alloc);
    emitter.conjuncts(&tree.joins, &tree.conjuncts)?;
    let keys = emitter.keys(alloc, &tree.joins, &tree.keys)?;
    let values = emitter.values(alloc, &tree.joins, &tree.aggregates)?;
    emitter.put(keys, values)?;
    Ok(emitter)
}

// Returns one scan of lineorder.
fn scan(alloc: Global, turn: Vec<Step>) -> Result<Body, AllocError>
    ensures { IfOk result (λ body. body ≡ Each Lineorder 0 (code_of_steps turn.items) Stop) }
{
    let mut steps = Vec::new(alloc);
    steps.push(Step::Scan {
        table: TableId::Lineorder,
        target: 0,
        body: Body::from_vec(turn),
    })?;
    Ok(Body::from_vec(steps))
}

// Returns the parts of the program with this shape, these items and these sort keys.
fn parts(
    alloc: Global,
    tree: &PlanTree,
    shape: Shape,
    items: &[GroupColumn],
    sorts: &[SortKey],
) -> Result<Parts, AllocError>
    requires limits { IsPlanWithinLimits (plan_view tree.now) }
    requires spelled { IsSpelledPlan (plan_view tree.now) }
    requires there { list_all (is_group_column (length tree.now.keys.items)
        (length tree.now.aggregates.items)) items.now ≡ true }
    ensures { IfOk result (λ parts. parts
        ≡ compiled (plan_shown (plan_view tree.now) shape items.now sorts.now)) }
{
    let Emitter { steps, next, .. } = turn(alloc, tree)?;
    let mut groups = Vec::new(alloc);
    groups.push(group(alloc, tree, shape)?)?;
    Ok(Parts {
        registers: next,
        groups: Items::from_vec(groups),
        body: scan(alloc, steps)?,
        report: 0,
        shows: Items::from_vec(shows(alloc, tree, items)?),
        sorts: Items::from_vec(sorts.iter().copied().collect(alloc)?),
    })
}

fn program(
    alloc: Global,
    tree: &PlanTree,
    shape: Shape,
    items: &[GroupColumn],
    sorts: &[SortKey],
) -> Result<Program, AllocError>
    requires limits { IsPlanWithinLimits (plan_view tree.now) }
    requires spelled { IsSpelledPlan (plan_view tree.now) }
    requires there { list_all (is_group_column (length tree.now.keys.items)
        (length tree.now.aggregates.items)) items.now ≡ true }
    requires few { IsPlanWithinLimits (plan_shown (plan_view tree.now) shape items.now sorts.now) }
    ensures { IfOk result (λ program. program
        ≡ compiled (plan_shown (plan_view tree.now) shape items.now sorts.now)) }
{
    let program = Program::new(parts(alloc, tree, shape, items, sorts)?);
    Ok(program.unwrap())
}

/// Compiles a plan: one group, one scan of lineorder that puts each selected row, and the items and
/// sort keys of the query. A column is loaded, and a dimension's row is found, once, at its first
/// use. The program does not depend on any catalogue. The only error is out of memory.
pub fn compile(alloc: Global, plan: &Plan) -> Result<Program, AllocError>
    ensures { IfOk result (λ program. program ≡ compiled (plan_view plan.now)) }
{
    planned_queries_are_sound();
    let tree = plan.tree();
    program(alloc, tree, tree.shape, &tree.items, &tree.sorts)
}

/// Returns the program of a plan without CUBE, ROLLUP and ORDER BY, which shows all keys and then
/// all aggregates. It fails only if memory runs out.
pub fn compile_plain(alloc: Global, plan: &Plan) -> Result<Program, AllocError>
    ensures { IfOk result (λ program. program ≡ compiled (plain_plan (plan_view plan.now))) }
{
    planned_queries_are_sound();
    let tree = plan.tree();
    let items = plain_columns(alloc, tree)?;
    program(alloc, tree, Shape::Plain, &items, &[])
}
