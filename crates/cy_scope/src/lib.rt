//! Scopes: which statements have a meaning, and which queries can be kept up to date.
#![tactic(auto)]

mod checked;
mod clause_checks;
mod clause_columns;
mod clause_scopes;
mod condition_checks;
mod laws;
mod pattern_checks;
mod pattern_columns;
mod projection_checks;
mod repeats;
mod statements;
mod sureness;
mod views;

pub use checked::{Checked, ViewQuery};
pub use laws::{checked_statements, same_trees};
pub use repeats::place_of_item;
pub use statements::check;
pub use views::{check_view, ends_with_return, has_update, is_reading, is_update};
