// Plans.

use crate::tree::PlanTree;
use std::marker::Model;

/// A well named query whose names are resolved. Only `plan` makes one, and contracts see it as
/// its tree.
#[derive(Drop)]
pub struct Plan {
    pub(crate) tree: PlanTree,
}

impl Model for Plan {
    ghost use Rattle.star_plan.specs.{declared.tree.PlanTree.PlanTree, contracts.tree.PlanTree.the_row, Planned.IsPlanned, Views.plan_view};

    ghost Value = { PlanTree };

    ghost coded = { the_row.coded };

    ghost view = { λ plan. plan.tree };

    ghost invariant = { λ plan. ∥ IsPlanned (plan_view plan.tree) ∥₁ };
}

impl Plan {
    ghost use Rattle.std.specs.Prelude.{◌≡◌};
    ghost use Rattle.star_plan.specs.{Planned.IsPlanned, Views.plan_view};

    /// The resolved query. `law::planned_queries_are_sound` states a property of every plan.
    pub fn tree(&self) -> &PlanTree
        ensures same { result.now ≡ self.now }
        // It is some well named query, which some text means, with its names resolved.
        ensures planned { ∥ IsPlanned (plan_view result.now) ∥₁ }
    {
        &self.tree
    }
}
