//! What no transcript holds of sessions: calls of the engine, invalid UTF-8, very long lines, lines that are cut short, and
//! streams that fail or are interrupted. Only tests stand here.
#![tactic(auto)]

#[cfg(test)]
mod cuts;
#[cfg(test)]
mod engine;
#[cfg(test)]
mod lines;
#[cfg(test)]
mod stops;
#[cfg(test)]
mod streams;
