//! Look-ups on a join, in the column where what they look up comes from: of two columns in which the same stands, the one that names what
//! each row of a table is made of.

ghost use Rattle.std.specs.Prelude.{◌≡◌, ◌+◌, ◌≤◌, IfOk, List, OnOk, map};
ghost use Rattle.std.specs.List.{All, AllByRecursion, Contains};
ghost use Rattle.cy_planner_algebra.specs.declared.operators.KeyColumns.{KeyColumns};
ghost use Rattle.cy_planner_algebra.specs.Plans as plan;
ghost use Rattle.cy_planner_algebra.specs.PlanModels.{plan_of};
ghost use Rattle.cy_planner_algebra.specs.WellFormed.{IsKeyBetween, IsWellFormed, greatest_width};
ghost use Rattle.cy_planner_rewriting.specs.internal.Redirected as spec;

use crate::lookups::lookup_at;
use cy_planner_algebra::{KeyColumns, Operator};
use cy_planner_rows::{Wanted, key_on_right, output_column, width_without};
use cy_values::Fault;
use std::alloc::Global;

/// This far down it is looked whether a column is one of a table.
const MOST_PARTS: usize = 256;

/// A column, and another one in which the same stands.
#[derive(Clone, Copy)]
pub(crate) struct Redirect {
    pub(crate) from: usize,
    pub(crate) to: usize,
}

/// Whether a column names the node or the relationship that each row of a table is made of. The rows are this wide.
fn is_own(part: &Operator, width: usize, column: usize, most: usize) -> bool
    requires good { IsWellFormed (plan_of part.now) }
    requires wide { width ≡ plan.width (plan_of part.now) }
{
    let Some(fewer) = most.checked_sub(1) else {
        return false;
    };
    match part {
        Operator::Nodes | Operator::Rels(_, _) => column == 0,
        Operator::Join(left, right, keys) => {
            let right_width = right.width();
            let left_width = width_without(left, width, right_width);
            if column < left_width {
                if is_own(left, left_width, column, fewer) {
                    return true;
                }
                match key_on_right(keys, column) {
                    Some(other) => is_own(right, right_width, other, fewer),
                    None => false,
                }
            } else {
                is_own(right, right_width, column - left_width, fewer)
            }
        }
        Operator::Outer(left, right, _, _) => {
            let left_width = width_without(left, width, right.width());
            is_own(left, left_width, column, fewer)
        }
        Operator::Lookup(below, _, _) => {
            let below_width = width_without(below, width, 1);
            is_own(below, below_width, column, fewer)
        }
        Operator::Project(below, outputs) => match output_column(outputs, column) {
            Some(column) => is_own(below, below.width(), column, fewer),
            None => false,
        },
        _ => match part.sifted() {
            Some(below) => is_own(below, width, column, fewer),
            None => false,
        },
    }
}

/// Adds the one column of a key for the other one, if that is a table's own and this isn't.
fn add_redirect(
    made: &mut Vec<Redirect>,
    left: &Operator,
    right: &Operator,
    left_width: usize,
    right_width: usize,
    key: KeyColumns,
) -> Result<(), Fault>
    requires left { IsWellFormed (plan_of left.now) }
    requires right { IsWellFormed (plan_of right.now) }
    requires wide { left_width ≡ plan.width (plan_of left.now) }
    requires wide_right { right_width ≡ plan.width (plan_of right.now) }
    requires room { left_width + key.right ≤ greatest_width }
    ensures { OnOk result ((keys : List KeyColumns) → Contains keys key → AllByRecursion (spec.IsRedirect keys left_width) made.old.items → AllByRecursion (spec.IsRedirect keys left_width) made.new.items) }
{
    let on_left = is_own(left, left_width, key.left, MOST_PARTS);
    let on_right = is_own(right, right_width, key.right, MOST_PARTS);
    let other = left_width + key.right;
    if on_left == on_right {
        Ok(())
    } else if on_right {
        made.push(Redirect {
            from: key.left,
            to: other,
        })?;
        Ok(())
    } else {
        made.push(Redirect {
            from: other,
            to: key.left,
        })?;
        Ok(())
    }
}

/// The columns of a join in which the same stands as in others, where it is better to look it up. Fails only when out of memory.
pub(crate) fn redirects(
    alloc: Global,
    left: &Operator,
    right: &Operator,
    keys: &[KeyColumns],
) -> Result<Vec<Redirect>, Fault>
    requires left { IsWellFormed (plan_of left.now) }
    requires right { IsWellFormed (plan_of right.now) }
    requires keys { All (IsKeyBetween (plan.width (plan_of left.now)) (plan.width (plan_of right.now))) keys.now }
    requires room { plan.width (plan_of left.now) + plan.width (plan_of right.now) ≤ greatest_width }
    ensures { IfOk result (λ made. AllByRecursion (spec.IsRedirect keys.now (plan.width (plan_of left.now))) made.items) }
{
    let left_width = left.width();
    let right_width = right.width();
    let mut made = Vec::new(alloc);
    for key in keys {
        add_redirect(&mut made, left, right, left_width, right_width, *key)?;
    }
    Ok(made)
}

fn redirected_column(redirects: &[Redirect], column: usize) -> usize
    ensures { result ≡ spec.redirect redirects.now column }
{
    for other in redirects {
        if other.from == column {
            return other.to;
        }
    }
    column
}

/// The look-ups in the columns where it is better to look them up. Fails only when out of memory.
pub(crate) fn redirected(
    alloc: Global,
    redirects: &[Redirect],
    lookups: &[Wanted],
) -> Result<Vec<Wanted>, Fault>
    ensures { IfOk result (λ made. made.items ≡ map (spec.redirected redirects.now) lookups.now) }
{
    let mut made = Vec::with_capacity(alloc, lookups.len())?;
    for lookup in lookups {
        let column = redirected_column(redirects, lookup.column);
        made.push(lookup_at(alloc, &lookup.attribute, column)?)?;
    }
    Ok(made)
}
