//! The operators of a plan: those right below an operator, and the chain that it begins; and their memories: which ones they keep, how these are
//! made, settled and abandoned, and how many steps they took.
#![tactic(auto)]

mod held;
mod kept_columns;
mod memories;
mod parts;
mod same_conditions;
mod same_plans;
mod sizes;

pub use held::{HeldInput, Side, shared_input};
pub use memories::{
    abandon_all, add_memories, count_at_cut, keeps_rows, memory_count, next_count, own_count,
    settle_all, steps_taken,
};
pub use parts::{Chain, below_count, cut_of, first_below, is_unit, second_below};
