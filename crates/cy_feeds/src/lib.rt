//! Feeds: what changed in the rows of a view, line by line, and how a follower goes on from what it has.
#![tactic(auto)]

mod feeds;
mod following;
pub mod laws;

pub use cy_bags::Entry;
pub use feeds::{Answer, Feed};
pub use following::apply;
