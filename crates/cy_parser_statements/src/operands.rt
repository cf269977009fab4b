//! Expressions with their depths, as they are read.

ghost use Rattle.std.specs.Prelude.{◌≡◌, ◌≤◌};
ghost use Rattle.cy_trees.specs.Depth as spec;
ghost use Rattle.cy_trees.specs.TreeModels.{expression_of};

use cy_trees::Expr;

/// An expression and its depth, which isn't too great.
pub(crate) struct Operand {
    pub(crate) tree: Expr,
    pub(crate) depth: usize,
    ghost measured: { depth ≡ spec.depth (expression_of tree) },
    ghost shallow: { depth ≤ 64 },
}

impl Operand {
    /// The expression without its depth.
    pub(crate) fn into_tree(self) -> Expr
        ensures { result ≡ self.tree }
    {
        let Operand { tree, depth: _ } = self;
        tree
    }
}

/// Called from each of the many places where an operand is dropped.
impl Drop for Operand {
    fn drop(self) {
        let Operand { tree: _, depth: _ } = self;
    }
}

/// Parts of an expression, and the depth of the deepest.
#[derive(Drop)]
pub(crate) struct Gathered<T> {
    pub(crate) items: Vec<T>,
    pub(crate) depth: usize,
}
