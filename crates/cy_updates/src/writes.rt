//! CREATE, SET, REMOVE and DELETE on the rows of a table, in an open change of the store.

pub(crate) mod creating;
pub(crate) mod deleting;
mod entities;
mod maps;
mod naming;
pub(crate) mod removing;
pub(crate) mod setting;
