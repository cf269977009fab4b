//! Bags of rows in canonical order, each row once with its count: what changes one bag into another, and the sum of two.
#![tactic(auto)]

mod bags;
mod changes;
mod sums;

pub use bags::{copied, counted_in_order};
pub use changes::{Change, Entry, difference, surplus};
pub use sums::sum;
