//! The property graph: nodes with labels and properties, relationships with a type and properties, and one change at a time that can be taken back.
#![tactic(auto)]

mod adjacency;
mod before_images;
mod edits;
mod faults;
mod graph;
mod iterators;
mod maps;
mod names;
mod nodes;
mod series;
mod touched;

pub use faults::GraphFault;
pub use graph::Graph;
pub use iterators::{Nodes, Rels, RelsAt};
pub use maps::TextMap;
pub use nodes::{Labels, Node, Props, Rel};
pub use touched::{Touched, Was};
