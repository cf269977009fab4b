//! What no transcript holds of what stands below views: sums and differences of bags, feeds, texts of trees, statements on stores whose next
//! numbers are the last ones, and calls of memories and of a network by itself, over both kinds of memory. Only tests stand here, and worked examples of the definitions of expressions
//! (`proofs/`).
#![tactic(auto)]

#[cfg(test)]
mod feeds;
#[cfg(test)]
mod following;
#[cfg(test)]
mod memories;
#[cfg(test)]
mod statements;
#[cfg(test)]
mod trees;
