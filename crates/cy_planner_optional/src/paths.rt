//! A path as a condition in a plan, whatever its maps ask for: the rows of a plan on which it is there, and those on which it isn't.

pub(crate) mod conditions;
pub(crate) mod met;
mod telling_values;
pub(crate) mod unmet;
