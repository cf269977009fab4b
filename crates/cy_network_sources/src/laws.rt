//! What holds of changes of a graph.

ghost use Rattle.std.specs.Prelude.{◌≡◌, ℕ, List, length};
ghost use Rattle.cy_values.specs.declared.rows.Cell.{Cell};
ghost use Rattle.cy_graph.specs.Graph.{State};
ghost use Rattle.cy_network_sources.specs.Changes.{IsChange, Touches, image_at};
ghost use Rattle.cy_network_sources.specs.LookupCosts.{naming_rows};

/// What leads from one graph to another is determined but for its order: which entities are touched and what each of them was, how many they are,
/// and how many rows name one (own).
pub fn changes()
    ensures nodes { (before now : State) (touches others : Touches) → IsChange before now touches → IsChange before now others → (number : ℕ) → image_at number touches.nodes ≡ image_at number others.nodes }
    ensures rels { (before now : State) (touches others : Touches) → IsChange before now touches → IsChange before now others → (number : ℕ) → image_at number touches.rels ≡ image_at number others.rels }
    ensures node_number { (before now : State) (touches others : Touches) → IsChange before now touches → IsChange before now others → length touches.nodes ≡ length others.nodes }
    ensures rel_number { (before now : State) (touches others : Touches) → IsChange before now touches → IsChange before now others → length touches.rels ≡ length others.rels }
    ensures naming { (before now : State) (touches others : Touches) → IsChange before now touches → IsChange before now others → (column : ℕ) (old new : List (List Cell))
        → naming_rows touches column old new ≡ naming_rows others column old new }
{}
