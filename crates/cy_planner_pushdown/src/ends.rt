//! Conditions on the node at an end of relationships.

ghost use Rattle.std.specs.Prelude.{IfSome, IsTrue};
ghost use Rattle.cy_planner_algebra.specs.PlanModels.{plan_of};
ghost use Rattle.cy_planner_pushdown.specs.internal.Ends as spec;

use crate::columns::kind_of_rels;
use crate::tests::CellsTest;
use cy_planner_algebra::Operator;
use cy_planner_rows::output_column;
use cy_scope_kinds::Kind;

/// Whether an end of a relationship stands in a column of an operator's rows, each of which is made of one relationship, or, where joins are looked
/// through too, of one with other rows beside it.
fn is_end(part: &Operator, column: usize, joined: bool) -> bool
    ensures { IsTrue result → spec.IsEnd (plan_of part.now) column }
{
    let mut part = part;
    let mut column = column;
    loop {
        match part {
            Operator::Rels(_, _) => return matches!(kind_of_rels(column), Some(Kind::Node)),
            Operator::Join(left, _, _) => {
                if !joined {
                    return false;
                }
                part = left;
            }
            Operator::Lookup(below, _, _) => part = below,
            Operator::Project(below, outputs) => match output_column(outputs, column) {
                Some(other) => {
                    column = other;
                    part = below;
                }
                None => return false,
            },
            _ => match part.sifted() {
                Some(below) => part = below,
                None => return false,
            },
        }
    }
}

/// The one of some columns, if there is one alone, and an end of relationships stands in it.
fn end_alone(part: &Operator, columns: &[usize], joined: bool) -> Option<usize>
    ensures { IfSome result (spec.IsEndAlone (plan_of part.now) columns.now) }
{
    match columns {
        [column] => {
            if is_end(part, *column, joined) {
                Some(*column)
            } else {
                None
            }
        }
        _ => None,
    }
}

/// The column of the node at an end of relationships of which a condition asks something, where it reads that column alone.
pub(crate) fn asked_end(part: &Operator, test: &CellsTest) -> Option<usize>
    ensures { IfSome result (spec.IsEndAlone (plan_of part.now) test.now.columns.items) }
{
    if test.asks {
        end_alone(part, &test.columns, false)
    } else {
        None
    }
}

/// The same, also where other rows were joined to the relationships.
pub(crate) fn joined_end(part: &Operator, test: &CellsTest) -> Option<usize>
    ensures { IfSome result (spec.IsEndAlone (plan_of part.now) test.now.columns.items) }
{
    end_alone(part, &test.columns, true)
}
