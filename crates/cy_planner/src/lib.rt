//! Plans of the queries of views: how much there is to plan, which plans serve a query, the plans of its clauses, and what a path after WHERE
//! keeps of its rows. And a pass over a whole plan, after which it gives the same rows: predicates of outer joins go down, so that what one asks
//! of the right rows alone is asked of the right input, before it is joined.
#![tactic(auto)]

mod clauses;
mod faults;
mod match_columns;
mod matches;
mod outer_filters;
mod paths;
mod plans;
mod projections;
mod selective;
mod weight;

pub use faults::PlanFault;
pub use plans::plan;
pub use weight::{is_too_large, weight_of};
