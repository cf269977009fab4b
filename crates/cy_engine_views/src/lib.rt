//! Views: queries whose rows follow a graph, each with a feed of what changed in them.
#![tactic(auto)]

mod entries;
mod faults;
mod listings;
mod registered;
mod registry;
mod rows;
mod views;

pub use faults::UpkeepFault;
pub use listings::{ViewListing, columns_of};
pub use views::Views;
