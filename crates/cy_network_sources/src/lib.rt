//! What changes of the rows of a scan, an operator of a plan whose rows come from one entity each, and of rows with an attribute of an entity
//! that they name, over what an open change of the store touched, by number; and what the upkeep of a plan's rows costs, with the law that what
//! its operators may do is within it.
#![tactic(auto)]

mod alike;
mod attributes;
mod changes;
pub mod cost_laws;
mod entities;
pub mod laws;
mod lookups;
mod needs;
mod noted;
mod recounts;
mod rels;
mod scan_columns;
mod scanning;
mod touched;

pub use alike::{have_same_ends, node_has_same, rel_has_same};
pub use changes::GraphChange;
pub use lookups::{ColumnAttribute, lookup};
pub use needs::{has_label, label_in};
pub use rels::has_type;
pub use scan_columns::{column_over, kept_at};
pub use scanning::scan;
pub use touched::{TouchedNodes, TouchedRels};
