//! What holds of lengths in the patterns of MATCH.

ghost use Rattle.std.specs.Prelude.{◌≡◌, ℕ, ◌≤◌, List, flat_map, sum_by, None};
ghost use Rattle.cy_values.specs.Bag.{IsSameBag};
ghost use Rattle.cy_values.specs.declared.rows.Cell.{Cell};
ghost use Rattle.cy_trees.specs.Trees.{Path};
ghost use Rattle.cy_graph.specs.Graph.{Content, State, IsGraph};
ghost use Rattle.cy_oneshot_patterns.specs.Matching.{fitting};
ghost use Rattle.cy_oneshot_outcomes.specs.Lengths.{LongStep, counts_in, own_table, packed_tables, pattern, rows_of, rows_written_out, written_out};

/// The rows of MATCH, before its WHERE, are those that the pattern's own table makes: the assignments whose ends are joined, that have
/// the labels, types and properties, and in which no relationship stands twice. Of these the ones count whose names agree among each
/// other and with the row (Francis et al., pattern matching).
pub fn names()
    ensures { (graph : Content) (paths : List Path) (row : List Cell) → fitting graph paths row ≡ rows_of paths row (own_table graph paths row) }
{}

/// A step with a length m..n gives what m, m + 1, .. n single steps in its place give, counts added: its own table is the bag of the
/// tables of the pattern written out, with unnamed nodes between the relationships, where in place of these stands the list of them in
/// order. Of no relationship the two ends are one node. So what is summed over the one is the sum over the others, and the rows of MATCH
/// are those that these tables make, by the names of the pattern. Where the step has no name they are the rows of MATCH for the pattern
/// written out, for no relationship those alone whose ends are one node (Francis et al., rigid patterns).
pub fn lengths()
    ensures tables { (state : State) (row : List Cell) (s : LongStep) → IsGraph state
        → IsSameBag (own_table state.content (pattern s) row) (packed_tables state.content s row) }
    ensures sums { (state : State) (row : List Cell) (s : LongStep) (value : List Cell → ℕ) → IsGraph state
        → sum_by value (own_table state.content (pattern s) row) ≡ sum_by value (packed_tables state.content s row) }
    ensures rows { (state : State) (row : List Cell) (s : LongStep) → IsGraph state
        → IsSameBag (fitting state.content (pattern s) row) (rows_of (pattern s) row (packed_tables state.content s row)) }
    ensures unnamed { (state : State) (row : List Cell) (s : LongStep) → IsGraph state → s.relationship.variable ≡ None
        → IsSameBag (fitting state.content (pattern s) row) (flat_map (rows_written_out state.content s row) (counts_in state.content s.range)) }
    ensures singles { (graph : Content) (row : List Cell) (s : LongStep) (count : ℕ) → 1 ≤ count
        → rows_written_out graph s row count ≡ fitting graph (written_out s count) row }
{}
