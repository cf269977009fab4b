//! The store: a graph with its indexes, which are up to date at each point of a change and are taken back with it.
#![tactic(auto)]

mod faults;
mod keys;
mod posting_list;
mod postings;
mod sight;
mod store;

pub use faults::IndexFault;
pub use keys::Pair;
pub use sight::Sight;
pub use store::Store;
