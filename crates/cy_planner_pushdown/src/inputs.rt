//! Operators and the inputs of joins, and how wide their rows are.

ghost use Rattle.std.specs.Prelude.{◌≡◌};
ghost use Rattle.cy_planner_algebra.specs.Plans as plan;
ghost use Rattle.cy_planner_algebra.specs.PlanModels.{plan_of};
ghost use Rattle.cy_planner_algebra.specs.WellFormed.{IsWellFormed};
ghost use Rattle.cy_planner_pushdown.specs.internal.Widths as spec;

use cy_planner_algebra::{KeyColumns, Operator};

/// The inputs of a join that a condition comes to, with how wide the rows of each are.
#[derive(Clone, Copy)]
pub(crate) struct Inputs<'a> {
    pub(crate) left: &'a Operator,
    pub(crate) right: &'a Operator,
    pub(crate) keys: &'a [KeyColumns],
    pub(crate) left_width: usize,
    pub(crate) right_width: usize,
    ghost left_wide: { left_width ≡ plan.width (plan_of left.now) },
    ghost right_wide: { right_width ≡ plan.width (plan_of right.now) },
}

/// An operator that conditions come to, how wide its rows are, and how wide those of its right input are that stand beside those of its left one:
/// what is measured once for all conditions.
#[derive(Clone, Copy)]
pub(crate) struct Measured<'a> {
    pub(crate) part: &'a Operator,
    pub(crate) width: usize,
    pub(crate) right_width: usize,
    ghost wide: { width ≡ plan.width (plan_of part.now) },
    ghost right_wide: { right_width ≡ spec.right_width (plan_of part.now) },
}

/// How wide the rows of the right input are, where they stand beside those of the left one; 0 elsewhere.
#[tactic(auto, using(crate::proofs::Elsewhere::narrow_else))]
fn right_width(part: &Operator) -> usize
    requires { IsWellFormed (plan_of part.now) }
    ensures { result ≡ spec.right_width (plan_of part.now) }
{
    match part {
        Operator::Join(_, right, _) | Operator::Outer(_, right, _, _) => right.width(),
        _ => 0,
    }
}

impl<'a> Measured<'a> {
    /// An operator whose rows are this wide.
    pub(crate) fn new(part: &'a Operator, width: usize) -> Self
        requires good { IsWellFormed (plan_of part.now) }
        requires wide { width ≡ plan.width (plan_of part.now) }
        ensures { result.part.now ≡ part.now }
    {
        Measured {
            part,
            width,
            right_width: right_width(part),
        }
    }
}
