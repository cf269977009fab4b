//! Rows that are kept column by column, and numbers that are found by their hashes.
#![tactic(auto)]

mod chains;
mod column;
mod index;
mod rows;

pub use index::HashIndex;
pub use rows::{Columns, RowRef};
