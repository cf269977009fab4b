//! What a look-up reads of any entity.

ghost use Rattle.cy_network_relevance.specs.internal.Left.{IsReadOf};

use crate::masks::Mask;
use crate::masks::bits::{LOWEST, NONE};
use cy_planner_algebra::Attribute;

/// What a look-up of an attribute reads, of whatever entity: a property may be one of each node and of each relationship.
pub(crate) fn attribute_mask(attribute: &Attribute) -> Mask
    ensures { IsReadOf result attribute.now }
{
    match attribute {
        Attribute::Property(_) => Mask {
            nodes: LOWEST,
            rels: LOWEST,
        },
        Attribute::RelType => Mask {
            nodes: NONE,
            rels: LOWEST,
        },
        Attribute::Labels => Mask {
            nodes: LOWEST,
            rels: NONE,
        },
    }
}
