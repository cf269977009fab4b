//! Memories: rows with counts, as they were and as they are staged, found by a key.
#![tactic(auto)]

mod bucket_map;
mod buckets;
mod faults;
mod keyed;
mod keys;
mod listed;
mod listings;
mod lists;
mod memory;
mod row_map;
mod rows;
mod tables;
mod tallies;

pub use faults::MemoryFault;
pub use keyed::KeyedMemory;
pub use listed::ListMemory;
pub use lists::ListCursor;
pub use memory::{Listed, Made, Memory, RowDelta};
pub use tables::{GREATEST_COUNT, KeyedCursor};
