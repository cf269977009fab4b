//! What holds of the values of expressions.

ghost use Rattle.std.specs.Prelude.{◌≡◌, ◌++◌, List, length, All, IsTrue, IsOk, IfOk, None};
ghost use Rattle.cy_values.specs.declared.rows.Cell.{Cell};
ghost use Rattle.cy_trees.specs.Trees.{Expression};
ghost use Rattle.cy_scope_kinds.specs.Scopes.{Scope};
ghost use Rattle.cy_scope_kinds.specs.ExpressionKinds.{kind_of};
ghost use Rattle.cy_scope_kinds.specs.ExpressionFaults.{expression_fault};
ghost use Rattle.cy_scope_kinds.specs.ResolvedExpressions.{resolved};
ghost use Rattle.cy_scope_kinds.specs.Rows.{row_fits, is_cell_of};
ghost use Rattle.cy_scope_kinds.specs.Sure.{is_sure};
ghost use Rattle.cy_expr.specs.Lookups.{Lookups};
ghost use Rattle.cy_expr.specs.Evaluation.{cell_of};
ghost use Rattle.cy_expr.specs.Reading.{AgreeAt, reads_below, reads_columns};

/// An expression has the same cell, or the same fault, on two graphs that agree on the properties, the labels and the types of
/// the entities that the row names; and on any two graphs, where it reads columns alone. It has the same one on a row and on the row
/// with more cells after it, where it reads none of these (own).
pub fn reading()
    ensures entities { (one other : Lookups) (row : List Cell) (expression : Expression) → All (AgreeAt one other) row
        → cell_of one row expression ≡ cell_of other row expression }
    ensures columns { (one other : Lookups) (row : List Cell) (expression : Expression) → IsTrue (reads_columns expression)
        → cell_of one row expression ≡ cell_of other row expression }
    ensures below { (graph : Lookups) (row more : List Cell) (expression : Expression) → IsTrue (reads_below (length row) expression)
        → cell_of graph row expression ≡ cell_of graph (row ++ more) expression }
{}

/// On a row that fits a scope the cell of an expression, whose variables have their columns there, has the expression's kind: a
/// flag gives a boolean or null (own).
pub fn kinds()
    ensures { (graph : Lookups) (scope : Scope) (row : List Cell) (expression : Expression) → IsTrue (row_fits scope row)
        → IfOk (cell_of graph row (resolved scope expression)) (λ c. IsTrue (is_cell_of (kind_of scope expression) c)) }
{}

/// A sure expression without a fault of scope has a cell, and no fault, on each row that fits its scope and on every graph (own).
pub fn sureness()
    ensures { (graph : Lookups) (scope : Scope) (row : List Cell) (expression : Expression) → IsTrue (row_fits scope row)
        → expression_fault scope expression ≡ None → IsTrue (is_sure scope expression)
        → IsOk (cell_of graph row (resolved scope expression)) }
{}
