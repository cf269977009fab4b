//! The values of expressions: what each operator and function gives for its operands, or its fault, and what a whole
//! expression gives on a row and a graph.
#![tactic(auto)]

mod arithmetic;
mod cells;
mod comparison;
mod conversions;
mod evaluation;
mod faults;
mod functions;
mod held;
pub mod laws;
mod lists;
mod logic;
mod lookups;
mod operands;
mod operators;
mod predicates;
mod simple;
mod stores;
mod views;

pub use cells::{eval, eval_sure, eval_truth, eval_value};
pub use faults::EvalFault;
pub use lists::list_of;
pub use lookups::Lookups;
