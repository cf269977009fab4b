//! What updating clauses and statements mean: for a graph and a table; and what holds of that.
#![tactic(auto)]

mod faults;
pub mod laws;

pub use faults::UpdateFault;
