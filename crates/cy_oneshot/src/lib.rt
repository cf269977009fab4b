//! Reading clauses on the graph as it is: the tables that they give, WHERE on the rows of a table, and UNWIND, whose rows carry along the
//! cells that the clauses after it read.
#![tactic(auto)]

mod clauses;
mod conditions;
mod matching;
mod names;
mod needed;
mod table;
mod unwinding;

pub use clauses::{answer, no_table, read_clause, read_clause_before, unit, unite};
pub use names::add_names;
pub use table::Table;
