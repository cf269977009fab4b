//! Plans that have some of the places of a pattern already: joined to tables by what both name, kept where relationships differ, with their
//! columns chosen or put in order.

pub(crate) mod columns;
pub(crate) mod keeping;
pub(crate) mod numbered;
