//! What the columns of an expression say of its value.

ghost use Rattle.std.specs.Prelude.{◌≡◌, List};
ghost use Rattle.cy_values.specs.declared.rows.Cell.{Cell};
ghost use Rattle.cy_trees.specs.Trees.{Expression};
ghost use Rattle.cy_expr.specs.Lookups.{Lookups};
ghost use Rattle.cy_expr.specs.Evaluation.{cell_of};
ghost use Rattle.cy_oneshot_outcomes.specs.Columns.{AgreeOn, columns_read};

/// An expression has the same cell, or the same fault, on two rows that agree on the columns that it reads (own).
pub fn reading_columns()
    ensures { (graph : Lookups) (row other : List Cell) (expression : Expression) → AgreeOn (columns_read expression) row other
        → cell_of graph row expression ≡ cell_of graph other expression }
{}
