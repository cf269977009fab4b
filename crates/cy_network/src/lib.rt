//! Networks: the rows of a view's plan, kept up to date by what changes in the graph, operator by operator.
#![tactic(auto)]

mod kept;
mod networks;
mod pending;
mod rows;

pub use networks::Network;
