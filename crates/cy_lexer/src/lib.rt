//! The tokens of the query language: any text becomes its tokens, or the first fault from the left.
#![tactic(auto)]

mod characters;
mod faults;
mod keywords;
mod line;
mod numbers;
mod pieces;
mod quoted;
mod reading;
mod symbols;
mod tokens;

pub use faults::LexFault;
pub use keywords::{Keyword, is_same_word};
pub use line::{LONGEST_LINE, text_of};
pub use reading::lex;
pub use symbols::Symbol;
pub use tokens::{Token, TokenKind};
