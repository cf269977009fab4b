//! Which tokens spell which trees, and how a tree is read off them.
#![tactic(auto)]

mod laws;
mod phases;
mod places;
mod words;

pub use laws::trees_and_texts;
pub use phases::{ClausePhase, Opening};
pub use places::Nested;
pub use words::{
    comparator_of, denoted_text, is_name, is_word, lowered, product_operator, slice_in,
    sum_operator,
};
