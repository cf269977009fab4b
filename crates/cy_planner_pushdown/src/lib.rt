//! Conditions on the rows of a plan, each as far down as all that it reads stands together: a condition on one node or one relationship
//! is a condition on the table where that comes from.
#![tactic(auto)]

mod above;
mod columns;
mod conditions;
mod ends;
mod filters;
mod inputs;
mod places;
mod pushing;
mod sides;
mod sifting;
mod splits;
mod steps;
mod tests;
mod ways;

pub use above::{Above, placed_over};
pub use filters::{Kept, filter_low, keep_after};
