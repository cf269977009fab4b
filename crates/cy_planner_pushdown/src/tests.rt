//! Conditions on what stands in columns of a plan's rows.

use cy_trees::Expr;

/// A condition on what stands in some columns.
#[derive(Drop)]
pub(crate) struct CellsTest {
    pub(crate) columns: Vec<usize>,
    pub(crate) test: Expr,
    /// Whether it asks something of the graph.
    pub(crate) asks: bool,
}
