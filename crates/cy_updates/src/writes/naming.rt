//! What variables name on a row.

ghost use Rattle.std.specs.Prelude.{◌≡◌};
ghost use Rattle.cy_updates_meaning.specs.Values.{named_by};

use cy_trees::Variable;
use cy_values::{Cell, Entity, Row};

/// The node or relationship that a variable names on a row; null names none. Scope lets no list of relationships come here.
pub(crate) fn entity_of(variable: &Variable, row: &Row) -> Option<Entity>
    ensures { result ≡ named_by variable.now row.now }
{
    match row.as_slice().get(variable.column?)? {
        Cell::Node(id) => Some(Entity::Node(*id)),
        Cell::Rel(id) => Some(Entity::Rel(*id)),
        Cell::Rels(_) | Cell::Value(_) => None,
    }
}
