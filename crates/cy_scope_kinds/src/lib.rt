//! Expressions before they are evaluated: their kinds, the faults of names and kinds in them, their columns, and which of them are
//! sure to have a value.
#![tactic(auto)]

mod aggregates;
mod expression_checks;
mod expression_kinds;
mod faults;
mod functions;
mod kinds;
mod resolving;
mod sameness;
mod scopes;
mod sure;
mod tree_words;

pub use aggregates::{has_aggregates, is_aggregate_call};
pub use expression_checks::{check_expression, check_item, check_value, demand, find_kind};
pub use expression_kinds::kind_of;
pub use faults::{ScopeFault, ViewFault};
pub use functions::Function;
pub use kinds::Kind;
pub use resolving::{resolved, resolved_variable};
pub use sameness::same;
pub use scopes::{Scope, relationship_kind};
pub use sure::{is_known_list, is_literal, is_sure, is_sure_binary, is_sure_flag, is_sure_unary};
pub use tree_words::words_of;
