//! What is planned on the rows of a plan: look-ups of what expressions ask of the graph, expressions over the columns that these add or
//! over rows whose columns stand elsewhere, conditions, taken apart and joined again, and projections.
#![tactic(auto)]

mod asked;
mod columns;
mod conditions;
mod conjunctions;
mod filters;
mod joins;
mod lookups;
mod lowering;
mod places;
mod projections;
mod renumbering;
mod wanted;

pub use asked::add_asked;
pub use columns::{
    column_output, column_outputs, narrowed, output_column, taken_column, variable_column,
};
pub use conditions::{and_also, column_variable, either, equals, is_empty, or_true, size_of};
pub use conjunctions::{all_of, conjuncts, halved};
pub use filters::{GREATEST_WIDTH, check_room, filter_where, looked_up_filter};
pub use joins::{key_on_left, key_on_right, width_without};
pub use lookups::{copy_attribute, with_lookups};
pub use lowering::{lower, lowering_keeps_values};
pub use places::{Wanted, place};
pub use projections::project_items;
pub use renumbering::{renumber, renumbering_keeps_values};
pub use wanted::WantedList;
