//! What a change touched.

ghost use Rattle.std.specs.Prelude.{◌≡◌, ◌++◌, IfErr, OnOk, map};
ghost use Rattle.std.specs.Option.{option_copied};
ghost use Rattle.cy_graph.specs.Touched.{before_image};
ghost use Rattle.cy_graph.specs.internal.BeforeImages.{node_image, rel_image};

use crate::faults::GraphFault;
use crate::nodes::{Node, Rel};
use cy_values::{Entity, NodeId, RelId};

/// An entity whose value differs from before the change: made, changed or removed.
#[derive(Clone, Copy, Debug, Drop)]
pub struct Touched<'a> {
    pub entity: Entity,
    /// Its value before the change, if it was there.
    pub was: Option<Was<'a>>,
}

/// The value that an entity had.
#[derive(Clone, Copy, Debug, Drop)]
pub enum Was<'a> {
    Node(&'a Node),
    Rel(&'a Rel),
}

/// Adds the nodes that were found to differ.
pub(crate) fn push_nodes<'a>(
    touched: &mut Vec<Touched<'a>>,
    found: &[(u64, Option<&'a Node>)],
) -> Result<(), GraphFault>
    ensures ok { OnOk result (map before_image touched.new.items ≡ map before_image touched.old.items ++ map node_image (map (λ f. (f.0, option_copied f.1)) found.now)) }
    ensures fault { IfErr result (λ fault. fault ≡ GraphFault.NoMemory) }
{
    for (number, was) in found.iter() {
        touched.push(Touched {
            entity: Entity::Node(NodeId(*number)),
            was: was.map(Was::Node),
        })?;
    }
    Ok(())
}

/// Adds the relationships that were found to differ.
pub(crate) fn push_rels<'a>(
    touched: &mut Vec<Touched<'a>>,
    found: &[(u64, Option<&'a Rel>)],
) -> Result<(), GraphFault>
    ensures ok { OnOk result (map before_image touched.new.items ≡ map before_image touched.old.items ++ map rel_image (map (λ f. (f.0, option_copied f.1)) found.now)) }
    ensures fault { IfErr result (λ fault. fault ≡ GraphFault.NoMemory) }
{
    for (number, was) in found.iter() {
        touched.push(Touched {
            entity: Entity::Rel(RelId(*number)),
            was: was.map(Was::Rel),
        })?;
    }
    Ok(())
}
