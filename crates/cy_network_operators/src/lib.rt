//! How a change of rows goes through the operators whose rows are rows below them, or pairs of these: `Filter`, `AllDifferent`, `Distinct`
//! and `Join`. What changes above them when rows change below them; and how many partners a row has, which `Semi` and `Outer` ask.
#![tactic(auto)]

mod deltas;
mod distinct_rows;
mod filters;
mod joins;
pub mod laws;
mod memories;
mod pairs;
mod partners;
mod passages;
mod sides;

pub use deltas::add_row_delta;
pub use distinct_rows::distinct;
pub use filters::{all_different, filter};
pub use joins::{join_left_held, join_right_held, join_through};
pub use memories::{records_with, stage_deltas};
pub use pairs::{appended, followed_by, preceded_by, product};
pub use partners::{null_counts, numbers_of};
pub use passages::{Passage, Unchanged};
pub use sides::SideDeltas;
