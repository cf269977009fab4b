//! What all clauses that go over rows share: an expression on a row, which columns it reads and where it surely has a truth, a condition
//! on rows, outcomes gathered with the smallest fault, and things put in order; and what lengths of a pattern mean, as places of single
//! relationships.
#![tactic(auto)]

mod certain;
pub mod column_laws;
mod columns;
mod conditions;
mod evaluation;
pub mod length_laws;
mod order;
mod outcomes;

pub use certain::{Shape, is_certain_condition, shapes};
pub use columns::columns_read;
pub use conditions::copied_if;
pub use evaluation::{cell_on, truth_on, value_on};
pub use order::{cell_order, sort_all, sort_once};
pub use outcomes::{Gathered, smallest};
