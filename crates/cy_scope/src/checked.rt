//! Statements and queries that were found to have no fault.

ghost use Rattle.std.specs.Prelude.{◌≡◌};
ghost use Rattle.std.specs.Coded.{codes};
ghost use Rattle.cy_trees.specs.contracts.expressions.Expr as expr;
ghost use Rattle.cy_trees.specs.declared.clauses.Statement as coded;
ghost use Rattle.cy_trees.specs.TreeModels.{statement_of};
ghost use Rattle.cy_scope.specs.Checked.{IsChecked, IsViewQuery};

use cy_trees::Statement;
use std::marker::Model;

/// A statement without a fault, each of its variables with its column. `checked_statements` says what holds of it.
#[derive(Drop)]
pub struct Checked {
    pub(crate) statement: Statement,
}

impl Model for Checked {
    ghost Value = { coded.Statement };

    ghost coded = { Prim.hlevel (codes, expr.the_row.coded) };

    ghost view = { λ c. c.statement };

    ghost invariant = { λ c. IsChecked (statement_of c.statement) };
}

impl Checked {
    /// The statement: the tree that came, with the column of each variable.
    pub fn statement(&self) -> &Statement
        ensures tree { result.now ≡ self.now }
        ensures checked { IsChecked (statement_of self.now) }
    {
        &self.statement
    }
}

/// A checked statement that can be the query of a view.
#[derive(Drop)]
pub struct ViewQuery {
    pub(crate) checked: Checked,
}

impl Model for ViewQuery {
    ghost Value = { coded.Statement };

    ghost coded = { Prim.hlevel (codes, expr.the_row.coded) };

    ghost view = { λ q. q.checked };

    ghost invariant = { λ q. IsViewQuery (statement_of q.checked) };
}

impl ViewQuery {
    /// The statement.
    pub fn checked(&self) -> &Checked
        ensures same { result.now ≡ self.now }
        ensures query { IsViewQuery (statement_of self.now) }
    {
        &self.checked
    }
}
