//! The values of the product: what a property, a cell and a row of a table hold, and the one order of rows.
#![tactic(auto)]

mod faults;
mod numbers;
mod order;
mod rows;
mod scalars;
mod sequences;
mod shared;
mod texts;
mod truth;
mod views;

pub use faults::Fault;
pub use numbers::{Entity, NodeId, RelId};
pub use order::{cells_equal, row_order, row_order_laws, rows_equal};
pub use rows::{Cell, Row};
pub use scalars::{Scalar, Value};
pub use sequences::{Duplicate, Sequence};
pub use shared::Shared;
pub use texts::Text;
pub use truth::Truth;
pub use views::{ValueRef, equal3, less3};
