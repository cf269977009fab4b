//! What a change of the graph changes of the rows of a plan: it goes through the plan operator by operator, from the scans up, and is staged in
//! their memories.
#![tactic(auto)]

mod changes;
mod operators;

pub use changes::{GraphStep, deltas_of};
