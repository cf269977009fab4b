//! The engine, one line at a time: lines in, replies out, and views that follow the graph.
#![tactic(auto)]

mod engine;
mod faults;
mod reading;
mod replies;
mod requests;

pub use cy_bags::{Change, Entry};
pub use cy_engine_views::ViewListing;
pub use engine::Engine;
pub use faults::Fault;
pub use replies::{Changed, Reply};
