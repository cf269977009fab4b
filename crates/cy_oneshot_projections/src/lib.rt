//! The projections of WITH and RETURN: items, aggregates over groups, DISTINCT, ORDER BY, SKIP and LIMIT.
#![tactic(auto)]

mod aggregates;
mod groups;
mod key_places;
mod order;
mod projection;

pub use order::sort_rows;
pub use projection::{SortKey, projection_rows, sort_keys, unordered_rows};
