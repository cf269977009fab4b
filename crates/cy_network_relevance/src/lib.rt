//! Whether a change of the graph is relevant to a plan: whether what it touched may make other rows of its operators; and what the plan alone
//! shows of its rows: operators that have none in common, since the lists of relationships in the rows of the one are longer than those of the
//! other, and projections that leave out columns and yet tell the rows below them apart. Masks are sets of bits by which a change is told
//! apart, without a look at the graph, from the views that read nothing of what it touched.
#![tactic(auto)]

mod apart;
mod at_least;
mod at_most;
mod columns;
mod entities;
mod keys;
mod masks;
mod parts;
mod plans;
mod reads;
mod trails;

pub use apart::are_apart;
pub use columns::column_alone;
pub use masks::Mask;
pub use plans::is_relevant;
pub use trails::tells_apart;
