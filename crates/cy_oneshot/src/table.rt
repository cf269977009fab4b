//! Tables.

use cy_values::{Row, Text};

/// A table: the names of its columns, and its rows, each with a cell for each column (Francis et al., tables). Its rows are a
/// bag; after RETURN they stand in their order.
#[derive(Drop)]
pub struct Table {
    pub columns: Vec<Text>,
    pub rows: Vec<Row>,
}
