//! What holds of semi joins.

ghost use Rattle.std.specs.Prelude.{◌≡◌, List, Option, map};
ghost use Rattle.cy_graph.specs.Graph.{Content};
ghost use Rattle.cy_planner_algebra.specs.declared.operators.Keeping.{Keeping};
ghost use Rattle.cy_planner_algebra.specs.declared.operators.KeyColumns.{KeyColumns};
ghost use Rattle.cy_planner_algebra.specs.Meaning.{semi_joined};
ghost use Rattle.cy_planner_algebra.specs.Plans as plan;
ghost use Rattle.cy_planner_algebra.specs.Plans.{Plan};
ghost use Rattle.cy_planner_algebra.specs.WellFormed.{IsWellFormed};
ghost use Rattle.cy_network_operators.specs.Deltas.{HaveColumns, counts, rows_at};

/// The rows of a semi join on a graph, before there is one too, are made of those of its operators, and of a well-formed one each row of the
/// left input has the columns of its key (own).
pub fn plans()
    ensures rows { (graph : Option Content) (left right : Plan) (keys : List KeyColumns) (keeping : Keeping)
        → rows_at graph (plan.semi left right keys keeping) ≡ semi_joined keys keeping (rows_at graph left) (rows_at graph right) }
    ensures left_columns { (graph other : Option Content) (left right : Plan) (keys : List KeyColumns) (keeping : Keeping) → IsWellFormed (plan.semi left right keys keeping)
        → HaveColumns (map (λ k. k.left) keys) (counts (rows_at graph left)) (counts (rows_at other left)) }
{}
