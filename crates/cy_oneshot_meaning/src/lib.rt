//! What reading clauses and queries mean: for a table, on the graph as it is; and what holds of that.
#![tactic(auto)]

pub mod laws;
