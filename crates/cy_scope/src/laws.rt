//! What holds of checked statements, and of rows.

ghost use Rattle.std.specs.Prelude.{◌≡◌, ℕ, true, IsTrue, List, [], map, Some, slice_get};
ghost use Rattle.std.specs.List.{All, Contains};
ghost use Rattle.cy_trees.specs.Trees.{Name, Expression, Query, Statement};
ghost use Rattle.cy_values.specs.declared.rows.Cell.{Cell};
ghost use Rattle.cy_scope_kinds.specs.declared.kinds.Kind.{Kind};
ghost use Rattle.cy_scope_kinds.specs.Scopes.{Scope};
ghost use Rattle.cy_scope.specs.ClauseScopes.{query_scope};
ghost use Rattle.cy_scope.specs.Checked.{IsChecked, IsViewQuery, single, ClausesAreKinded};
ghost use Rattle.cy_scope_kinds.specs.ResolvedExpressions.{resolved};
ghost use Rattle.cy_scope_kinds.specs.Rows.{row_fits, is_cell_of};
ghost use Rattle.cy_scope_kinds.specs.Same.{same};

/// Each query of a checked statement is one by itself, and all have columns of the same names in the same order. In a checked
/// query each variable that is read is a column of its name, and each expression is of a kind that its place takes, in the
/// scope of its place. Each query of a view's statement can be that of a view by itself. And a row that fits a scope has in
/// each column a cell of the kind of its variable (own).
pub fn checked_statements()
    ensures each { (tree : Statement) → IsChecked tree → All (λ q. IsChecked (single q)) tree.queries }
    ensures columns { (tree : Statement) → IsChecked tree → (p q : Query) → Contains tree.queries p → Contains tree.queries q → map (λ v. v.0) (query_scope p) ≡ map (λ v. v.0) (query_scope q) }
    ensures kinded { (q : Query) → IsChecked (single q) → ClausesAreKinded [] q.clauses }
    ensures views { (tree : Statement) → IsViewQuery tree → All (λ q. IsViewQuery (single q)) tree.queries }
    ensures cells { (scope : Scope) (row : List Cell) (column : ℕ) (name : Name) (k : Kind) → IsTrue (row_fits scope row) → slice_get scope column ≡ Some (name, k) → (c : Cell) × (slice_get row column ≡ Some c) × IsTrue (is_cell_of k c) }
{}

/// An expression has the same tree as itself, and expressions of the same tree are the same once their variables have the
/// columns of a scope (own).
pub fn same_trees()
    ensures itself { (e : Expression) → same e e ≡ true }
    ensures resolves { (scope : Scope) (a b : Expression) → same a b ≡ true → resolved scope a ≡ resolved scope b }
{}
