//! What the operators of a plan read.

ghost use Rattle.std.specs.Prelude.{IfSome};
ghost use Rattle.cy_planner_algebra.specs.PlanModels.{plan_of};
ghost use Rattle.cy_network_relevance.specs.Masks.{Covers};
ghost use Rattle.cy_network_relevance.specs.internal.Left.{IsLimited, LeavesUnread};

use crate::masks::Mask;
use crate::masks::attributes::attribute_mask;
use crate::masks::bits::{LOWEST, NONE};
use crate::masks::conditions::keeps_first;
use crate::masks::limits::{limit_of, rels_mask};
use cy_planner_algebra::Operator;

/// What the operators of a plan read.
pub(crate) fn plan_mask(part: &Operator) -> Mask
    ensures { Covers result (plan_of part.now) }
{
    parts_mask(part)
}

// What the operators of a plan read. A limit is asked for at the uppermost of the operators that stand over one another in a scan, and not once more at those below
// it: so each operator is gone through twice at most.
fn parts_mask(part: &Operator) -> Mask
    ensures { LeavesUnread result (plan_of part.now) }
{
    let mut part = part;
    let mut mask = Mask {
        nodes: NONE,
        rels: NONE,
    };
    let mut known = false;
    loop {
        match part {
            Operator::Unit => return mask,
            Operator::Nodes => return mask.with(Mask {
                nodes: LOWEST,
                rels: NONE,
            }),
            Operator::Rels(types, _) => return mask.with(rels_mask(types)),
            Operator::Lookup(below, column, attribute) => {
                if let Some(limit) = limit_unless(known, part) {
                    return mask.with(limit);
                }
                let read = attribute_mask(attribute);
                mask = mask.with(read);
                known = *column == 0;
                part = below;
            }
            Operator::Filter(below, _) => {
                if let Some(limit) = limit_unless(known, part) {
                    return mask.with(limit);
                }
                known = true;
                part = below;
            }
            Operator::Project(below, outputs) => {
                known = known && keeps_first(outputs);
                part = below;
            }
            Operator::AllDifferent(below, _) => {
                known = false;
                part = below;
            }
            Operator::Distinct(below) => {
                known = false;
                part = below;
            }
            Operator::Join(left, right, _) => {
                let read = parts_mask(right);
                mask = mask.with(read);
                known = false;
                part = left;
            }
            Operator::Outer(left, right, _, _) => {
                let read = parts_mask(right);
                mask = mask.with(read);
                known = false;
                part = left;
            }
            Operator::Semi(left, right, _, _) => {
                let read = parts_mask(right);
                mask = mask.with(read);
                known = false;
                part = left;
            }
            Operator::Union(left, right) => {
                let read = parts_mask(right);
                mask = mask.with(read);
                known = false;
                part = left;
            }
        }
    }
}

// Bits from which no entity is apart that has a row in an operator, unless it is known that this is no such scan.
fn limit_unless(known: bool, part: &Operator) -> Option<Mask>
    ensures { IfSome result (λ limit. IsLimited limit (plan_of part.now)) }
{
    if known {
        return None;
    }
    limit_of(part)
}
