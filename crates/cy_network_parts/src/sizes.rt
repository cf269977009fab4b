//! Which of two plans has more joins.

ghost use Rattle.std.specs.Prelude.{◌≡◌, ◌≤◌, ◌+◌, ◌-◌, length};
ghost use Rattle.cy_planner_algebra.specs.PlanModels.{plan_of};
ghost use Rattle.cy_network_parts.specs.Memories.{keys};
ghost use Rattle.cy_network_parts.specs.Shared as shared;
ghost use Rattle.cy_network_parts.specs.internal.Parts.{chain_end};

use crate::parts::{below_count, first_below, second_below};
use cy_planner_algebra::Operator;

/// Whether a plan has as many joins as another one, which has this many memories at most, or more. The other one is counted whole, this one only until as many
/// are found.
pub(crate) fn is_as_large(part: &Operator, other: &Operator, most: usize) -> bool
    requires few { length (keys (plan_of other.now)) ≤ most }
    ensures { result ≡ shared.is_as_large (plan_of part.now) (plan_of other.now) }
{
    missing_joins(part, join_count(other, most)) == 0
}

// How many joins a plan has: no more than memories, of which there are this many at most. The operators with one input that follow one another are passed in a
// loop.
fn join_count(part: &Operator, most: usize) -> usize
    requires few { length (keys (plan_of part.now)) ≤ most }
    ensures { result ≡ shared.join_count (plan_of part.now) }
{
    let end = chain_end(part);
    if below_count(end) == 0 {
        return 0;
    }
    let left = join_count(first_below(end), most);
    let right = join_count(second_below(end), most);
    left + right + own_joins(end)
}

// How many of so many joins a plan doesn't have.
fn missing_joins(part: &Operator, number: usize) -> usize
    ensures { result ≡ number - shared.join_count (plan_of part.now) }
{
    if number == 0 {
        return 0;
    }
    let end = chain_end(part);
    if below_count(end) == 0 {
        return number;
    }
    let number = number.saturating_sub(own_joins(end));
    let number = missing_joins(first_below(end), number);
    missing_joins(second_below(end), number)
}

// The first operator from this one down that has no operator below it, or two.
fn chain_end(part: &Operator) -> &Operator
    ensures { plan_of result.now ≡ chain_end (plan_of part.now) }
{
    let mut end = part;
    'down: while below_count(end) == 1 {
        end = first_below(end);
    }
    end
}

// 1 for a join, 0 for another operator.
fn own_joins(part: &Operator) -> usize
    ensures { result ≡ shared.own_joins (plan_of part.now) }
{
    match part {
        Operator::Join(_, _, _) => 1,
        _ => 0,
    }
}
