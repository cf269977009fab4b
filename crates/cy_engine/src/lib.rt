//! The engine: lines in, replies out, and views that follow the graph; and what holds of every list of lines that it was sent.
#![tactic(auto)]

pub mod laws;
mod runs;

pub use cy_engine_lines::{Change, Changed, Engine, Entry, Fault, Reply, ViewListing};
pub use runs::answer_all;
