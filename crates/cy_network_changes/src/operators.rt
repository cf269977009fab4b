//! What changes of the rows of one operator of a plan, by what changes of those of the operators right below it.

pub(crate) mod leaves;
pub(crate) mod pairs;
pub(crate) mod passages;
pub(crate) mod singles;
