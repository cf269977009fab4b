//! Reads the trees of a statement off the tokens of a line, by the grammar.
#![tactic(auto)]

mod building;
mod conditions;
mod connectives;
mod cursor;
mod grammar;
mod lengths;
mod levels;
mod nesting;
mod operands;
mod operations;
mod order;
mod patterns;
mod primary;
mod projections;
mod refusals;
mod source;
mod statements;
mod updates;

pub use cursor::Cursor;
pub use refusals::Refusal;
pub use source::Source;
