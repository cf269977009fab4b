//! What holds of outer joins.

ghost use Rattle.std.specs.Prelude.{◌≡◌, ◌<◌, ◌≤◌, List, Option, IfSome};
ghost use Rattle.std.specs.Option.{option_map};
ghost use Rattle.cy_values.specs.declared.rows.Cell.{Cell};
ghost use Rattle.cy_trees.specs.Trees.{Expression};
ghost use Rattle.cy_graph.specs.Graph.{Content, IsGraph, State};
ghost use Rattle.cy_network_memory.specs.Counts.{Counts, greatest_count};
ghost use Rattle.cy_planner_algebra.specs.declared.operators.KeyColumns.{KeyColumns};
ghost use Rattle.cy_planner_algebra.specs.Meaning.{rows_of};
ghost use Rattle.cy_planner_algebra.specs.Plans as plan;
ghost use Rattle.cy_planner_algebra.specs.Plans.{Plan};
ghost use Rattle.cy_planner_algebra.specs.Sure.{IsSure};
ghost use Rattle.cy_planner_algebra.specs.WellFormed.{IsWellFormed};
ghost use Rattle.cy_network_operators.specs.Deltas.{counts, rows_at};
ghost use Rattle.cy_network_counts.specs.Outer.{AreNumbersOfPartners, AreSurePairs, HasTooMany, numbers_of_partners};

/// Two bags of rows have their numbers of partners, and no other ones (own).
pub fn partners()
    ensures are { (keys : List KeyColumns) (test : Expression) (lefts rights : List (List Cell))
        → AreNumbersOfPartners keys test (counts lefts) (counts rights) (numbers_of_partners keys test lefts rights) }
    ensures only { (keys : List KeyColumns) (test : Expression) (lefts rights : List (List Cell)) (numbers : Counts)
        → AreNumbersOfPartners keys test (counts lefts) (counts rights) numbers → numbers ≡ numbers_of_partners keys test lefts rights }
{}

/// What `outer` asks of pairs of rows holds for the operators of a plan that is sure, from one graph to another, or from nothing, where no row of the
/// outer join counts above 2^62 - 1 on the first. Where a pair counts above that, a row of the outer join does (own).
pub fn plans()
    ensures sure { (old new : Option State) (left right : Plan) (keys : List KeyColumns) (test : Expression) → IfSome old IsGraph → IfSome new IsGraph
        → IsWellFormed (plan.outer left right keys test) → IsSure (plan.outer left right keys test)
        → ((row : List Cell) → counts (rows_at (option_map (λ s. s.content) old) (plan.outer left right keys test)) row ≤ greatest_count)
        → AreSurePairs keys test (counts (rows_at (option_map (λ s. s.content) old) left)) (counts (rows_at (option_map (λ s. s.content) new) left))
        (counts (rows_at (option_map (λ s. s.content) old) right)) (counts (rows_at (option_map (λ s. s.content) new) right)) }
    ensures too_many { (graph : Content) (left right : Plan) (keys : List KeyColumns) (test : Expression) → IsWellFormed (plan.outer left right keys test)
        → HasTooMany keys test (counts (rows_of graph left)) (counts (rows_of graph right))
        → (row : List Cell) × (greatest_count < counts (rows_of graph (plan.outer left right keys test)) row) }
{}
