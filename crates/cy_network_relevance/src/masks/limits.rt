//! What the entities of a scan have in common.

ghost use Rattle.std.specs.Prelude.{◌≡◌, IfSome};
ghost use Rattle.cy_planner_algebra.specs.PlanModels.{plan_of};
ghost use Rattle.cy_network_relevance.specs.internal.Left as left;
ghost use Rattle.cy_network_relevance.specs.internal.Left.{IsLimited};

use crate::masks::Mask;
use crate::masks::bits::{LOWEST, NONE};
use crate::masks::conditions::{keeps_first, label_asked};
use crate::masks::name_bits::{name_bits, with_names};
use cy_planner_algebra::Operator;
use cy_values::Text;

/// Bits from which no entity is apart that has a row in an operator, where this is a scan that names its entities in the first column.
pub(crate) fn limit_of(part: &Operator) -> Option<Mask>
    ensures { IfSome result (λ limit. IsLimited limit (plan_of part.now)) }
{
    let mut part = part;
    loop {
        match part {
            Operator::Nodes => return Some(Mask {
                nodes: LOWEST,
                rels: NONE,
            }),
            Operator::Rels(types, _) => return Some(rels_mask(types)),
            Operator::Lookup(below, column, _) => {
                if *column > 0 {
                    return None;
                }
                part = below;
            }
            Operator::Filter(below, test) => {
                if let Some(label) = label_asked(below, test) {
                    return Some(label_mask(label));
                }
                part = below;
            }
            Operator::Project(below, outputs) => {
                if !keeps_first(outputs) {
                    return None;
                }
                part = below;
            }
            _ => return None,
        }
    }
}

/// Bits from which no relationship of some types is apart; where none is named, each is of them.
pub(crate) fn rels_mask(types: &[Text]) -> Mask
    ensures { result ≡ left.rels_mask types.now }
{
    if types.is_empty() {
        return Mask {
            nodes: NONE,
            rels: LOWEST,
        };
    }
    Mask {
        nodes: NONE,
        rels: with_names(NONE, types),
    }
}

// The bits that each node with a label has.
fn label_mask(label: &Text) -> Mask
    ensures { result ≡ left.label_mask label.now }
{
    Mask {
        nodes: name_bits(label),
        rels: NONE,
    }
}
