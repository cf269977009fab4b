//! OPTIONAL MATCH as an outer join, paths after WHERE whose maps read the row, and what both are made of: the pattern of a clause by itself, over
//! the row of no columns, where variables of the row before the clause are new ones.
#![tactic(auto)]

mod columns;
mod joining;
mod optional;
mod own_columns;
mod paths;
mod patterns;
mod trails;
mod values;

pub use optional::{optional_rows, own_table};
pub use paths::conditions::other_count;
pub use paths::met::assigned_rows;
pub use paths::unmet::unassigned_rows;
pub use values::{open_values, with_values};
