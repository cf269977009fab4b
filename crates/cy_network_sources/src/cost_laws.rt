//! What holds of costs.

ghost use Rattle.std.specs.Prelude.{◌≡◌, ◌≤◌, ◌+◌, ◌*◌};
ghost use Rattle.cy_graph.specs.Graph.{Content, State};
ghost use Rattle.cy_planner_algebra.specs.Plans.{Plan};
ghost use Rattle.cy_planner_algebra.specs.Meaning.{rows_of};
ghost use Rattle.cy_network_sources.specs.Changes.{IsChange, Touches};
ghost use Rattle.cy_network_sources.specs.Costs.{cost};
ghost use Rattle.cy_network_sources.specs.Work.{all_reads, all_steps, asked_reads};

/// What the operators of a plan may do, counted in steps of memories and reads of the graph, is at most sixteen times the cost, the
/// reads included that tell whether the change concerns the plan. From one graph to another a plan has one cost; and where nothing differs, it costs nothing (own).
pub fn bounds()
    ensures work { (touches : Touches) (before after : Content) (p : Plan)
        → all_steps (rows_of before) (rows_of after) touches p + (asked_reads touches p + all_reads (rows_of before) (rows_of after) touches p) ≤ 16 * cost touches before after p }
    ensures same { (before after : State) (touches others : Touches) (p : Plan) → IsChange before after touches → IsChange before after others
        → cost touches before.content after.content p ≡ cost others before.content after.content p }
    ensures nothing { (graph : State) (touches : Touches) (p : Plan) → IsChange graph graph touches → cost touches graph.content graph.content p ≡ 0 }
{}
