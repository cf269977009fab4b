//! Statements executed in a change of the store, query by query and clause by clause: CREATE, SET, REMOVE and DELETE on the rows of a table.
#![tactic(auto)]

mod clauses;
mod queries;
mod statements;
mod writes;

pub use statements::{StatementAnswer, execute};
