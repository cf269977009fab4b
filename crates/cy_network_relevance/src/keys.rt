//! The key of an operator's rows: columns whose cells tell a row on any graph, as far as the plan shows them.

ghost use Rattle.std.specs.Prelude.{◌≡◌, map};
ghost use Rattle.cy_planner_algebra.specs.PlanModels.{output_of, plan_of};
ghost use Rattle.cy_planner_algebra.specs.WellFormed.{IsWellFormed};
ghost use Rattle.cy_network_relevance.specs.Trails as trails;

use crate::columns::column_alone;
use crate::trails::{is_kept, is_key, place_after};
use cy_planner_algebra::{Operator, Orientation, Output};

/// The greatest width of rows whose key is followed through a projection, so that a plan is gone through in few steps.
const GREATEST_FOLLOWED: usize = 32;

/// Whether a column of a relationship's row tells it, if need be together with others.
fn tells_rel(orientation: Orientation, column: usize) -> bool
    ensures { result ≡ trails.tells_rel orientation column }
{
    match orientation {
        Orientation::Directed => column == 0,
        Orientation::Either => column < 2,
    }
}

/// The column that stands alone in the one that a projection makes at a place.
fn column_at(outputs: &[Output], place: usize) -> Option<usize>
    ensures { result ≡ trails.column_at (map output_of outputs.now) place }
{
    match outputs.get(place) {
        Some(output) => column_alone(output),
        None => None,
    }
}

/// Whether a column of an operator's rows is one of their key.
fn is_key_column(part: &Operator, column: usize) -> bool
    requires { IsWellFormed (plan_of part.now) }
    ensures { result ≡ trails.is_key_column (plan_of part.now) column }
{
    let mut part = part;
    let mut column = column;
    loop {
        match part {
            Operator::Nodes => return column == 0,
            Operator::Rels(_, orientation) => return tells_rel(*orientation, column),
            Operator::Join(left, right, keys) => {
                let wide = left.width();
                if column < wide {
                    part = left;
                } else {
                    column -= wide;
                    if is_key(keys, column) {
                        return false;
                    }
                    part = right;
                }
            }
            Operator::Lookup(below, _, _) => part = below,
            Operator::Project(below, outputs) => match column_at(outputs, column) {
                Some(found) => {
                    column = found;
                    part = below;
                }
                None => return false,
            },
            _ => match part.sifted() {
                Some(below) => part = below,
                None => return false,
            },
        }
    }
}

/// Whether a projection keeps a column of an operator's rows, if it is one of their key. It is looked for at this place first.
fn is_kept_key(part: &Operator, outputs: &[Output], column: usize, place: usize) -> bool
    requires { IsWellFormed (plan_of part.now) }
    ensures { result ≡ trails.is_kept_key (plan_of part.now) (map output_of outputs.now) column }
{
    !is_key_column(part, column) || is_kept(outputs, column, place)
}

/// Whether a projection keeps the key of an operator's rows. Each column is looked for first after the one before it, since projections mostly keep the
/// columns in their order.
fn keeps_key(part: &Operator, outputs: &[Output]) -> bool
    requires { IsWellFormed (plan_of part.now) }
    ensures { result ≡ trails.keeps_key (plan_of part.now) (map output_of outputs.now) }
{
    let wide = part.width();
    let mut place = 0;
    for column in 0..wide {
        if !is_kept_key(part, outputs, column, place) {
            return false;
        }
        place = place_after(outputs, column, place);
    }
    true
}

/// Whether a projection of rows that aren't too wide keeps their key.
pub(crate) fn follows_key(part: &Operator, outputs: &[Output]) -> bool
    requires { IsWellFormed (plan_of part.now) }
    ensures { result ≡ trails.follows_key (plan_of part.now) (map output_of outputs.now) }
{
    part.width() <= GREATEST_FOLLOWED && keeps_key(part, outputs)
}

/// Whether the columns of an operator's key tell its rows.
pub(crate) fn has_key(part: &Operator) -> bool
    requires { IsWellFormed (plan_of part.now) }
    ensures { result ≡ trails.has_key (plan_of part.now) }
{
    let mut part = part;
    loop {
        match part {
            Operator::Unit | Operator::Nodes | Operator::Rels(_, _) => return true,
            Operator::Join(left, right, _) => {
                if !has_key(right) {
                    return false;
                }
                part = left;
            }
            Operator::Lookup(below, _, _) => part = below,
            Operator::Project(below, outputs) => {
                if !follows_key(below, outputs) {
                    return false;
                }
                part = below;
            }
            _ => match part.sifted() {
                Some(below) => part = below,
                None => return false,
            },
        }
    }
}
