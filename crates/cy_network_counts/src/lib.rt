//! How a change of rows goes through the operators that count: `Project` and `Union`, whose counts are sums, each with a memory of its own
//! rows; `Semi`, the rows of a left input that have a partner in the right input, or that have none; and `Outer`.
#![tactic(auto)]

mod greatest;
mod merges;
mod outer_joins;
pub mod outer_laws;
mod passages;
mod projections;
mod semi_joins;
pub mod semi_laws;
mod unions;

pub use outer_joins::matches::OuterJoin;
pub use outer_joins::outer;
pub use passages::Images;
pub use projections::{gather, images_of, project};
pub use semi_joins::semi;
pub use unions::union;
