//! The plans of views: operators that make bags of rows out of a graph, what each of them means, and which plans can be built.
#![tactic(auto)]

mod columns;
pub mod laws;
mod operators;
mod plans;
pub mod rows;

pub use columns::{left_columns, right_columns, row_columns};
pub use operators::{Attribute, Below, Fields, Keeping, KeyColumns, Operator, Orientation, Output};
pub use plans::Plan;
