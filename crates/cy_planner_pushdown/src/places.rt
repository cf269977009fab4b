//! Places of a plan, with conditions on columns of the rows there.

ghost use Rattle.std.specs.Prelude.{◌≡◌};
ghost use Rattle.cy_planner_algebra.specs.Plans as plan;
ghost use Rattle.cy_planner_algebra.specs.PlanModels.{plan_of};
ghost use Rattle.cy_planner_algebra.specs.WellFormed.{IsWellFormed};

use crate::tests::CellsTest;
use cy_planner_algebra::{Operator, Plan};

/// An operator, how wide its rows are, and conditions on columns of these.
#[derive(Drop)]
pub(crate) struct Place {
    pub(crate) part: Operator,
    pub(crate) width: usize,
    pub(crate) tests: Vec<CellsTest>,
    /// Whether ends of relationships are looked for here: at the top, and below what `is_end` doesn't look through, as joins and unions.
    pub(crate) looks_for_ends: bool,
    ghost wide: { width ≡ plan.width (plan_of part) },
}

impl Place {
    /// Conditions on columns of a plan.
    pub(crate) fn of(below: Plan, tests: Vec<CellsTest>) -> Self
        ensures part { result.part ≡ below }
        ensures tests { result.tests ≡ tests }
        ensures good { IsWellFormed (plan_of below) }
    {
        let width = below.width();
        Place {
            part: below.into_root(),
            width,
            tests,
            looks_for_ends: true,
        }
    }

    /// Conditions on columns of an operator whose rows are this wide, where ends of relationships are looked for.
    pub(crate) fn at(part: Box<Operator>, width: usize, tests: Vec<CellsTest>) -> Self
        requires { width ≡ plan.width (plan_of part.value) }
        ensures part { result.part ≡ part.value }
        ensures tests { result.tests ≡ tests }
    {
        Place {
            part: Box::into_inner(part),
            width,
            tests,
            looks_for_ends: true,
        }
    }
}
