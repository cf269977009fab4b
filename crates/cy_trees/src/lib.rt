//! The trees of statements, and how a tree is written as text.
#![tactic(auto)]

mod clause_text;
mod clauses;
mod copying;
mod expressions;
mod pattern_text;
mod quoting;
mod showing;
mod statement_text;
mod writing;

pub use clauses::{
    Clause, Delete, Direction, Item, Key, Length, MapEntry, Match, NodePattern, Path, PathTest,
    Projection, Query, RelationshipPattern, RemoveItem, SetItem, Statement, Step, Unwind, Where,
    With,
};
pub use copying::copy_names;
pub use expressions::{Arm, BinaryOperator, Comparator, Expr, Link, UnaryOperator, Variable};
pub use statement_text::show;
