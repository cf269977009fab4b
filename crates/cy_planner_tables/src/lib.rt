//! What the plan of a pattern is joined from: the table of a place, which for a place with a length has the trails that it allows; and plans
//! that have some of the places already, joined to such tables by what both name, kept where relationships differ, with their columns chosen
//! or put in order. And how rows are joined to the assignments of a pattern that is planned by itself: by which columns, and with which
//! predicate over what is looked up after both.
#![tactic(auto)]

mod links;
mod lookup_lists;
mod lookups;
mod partial;
mod place_keys;
mod predicates;
mod tables;
mod trails;
mod turned;

pub use lookups::right_lookups;
pub use partial::columns::{Partial, joined, numbers_from, position};
pub use partial::keeping::{all_different, in_order, with_first};
pub use partial::numbered::Columns;
pub use place_keys::keys;
pub use predicates::{Asked, Joint, Pair};
pub use tables::link_table;
pub use trails::{mapped_trail_table, mapped_trail_table_from_left};
