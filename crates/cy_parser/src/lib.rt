//! A line's tokens become the tree of a statement.
#![tactic(auto)]

mod faults;
mod parsing;

pub use cy_parser_grammar::{denoted_text, is_word, slice_in, trees_and_texts};
pub use cy_trees::{
    Arm, BinaryOperator, Clause, Comparator, Delete, Direction, Expr, Item, Key, Length, Link,
    MapEntry, Match, NodePattern, Path, PathTest, Projection, Query, RelationshipPattern,
    RemoveItem, SetItem, Statement, Step, UnaryOperator, Unwind, Variable, Where, With, show,
};
pub use faults::ParseFault;
pub use parsing::parse;
