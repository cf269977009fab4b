//! Plans in place of others: the same rows in the same order, by operators that cost less to keep up, or with fewer columns under way: of columns
//! in which a join makes the same stand, one is kept, and a column goes as soon as nobody reads it.
#![tactic(auto)]

mod layers;
mod lookups;
mod narrowing;
mod outputs;
mod parts;
mod redirects;
mod rewriting;
mod splits;

pub use layers::{Joint, Layer, Opened, Part, joined, open_operator, open_part};
pub use narrowing::narrowed;
pub use parts::layered;
pub use rewriting::rewritten;
