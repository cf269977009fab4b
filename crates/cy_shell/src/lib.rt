//! Bytes in, JSON out: lines are cut from a source, executed by an engine, and answered on a sink.
#![tactic(auto)]

mod answers;
mod buffer;
mod feeding;
mod json_values;
pub mod laws;
mod memory;
mod options;
mod printing;
mod replies;
mod serving;
mod session;
mod standard;
mod streams;
mod words;
mod writing;

pub use memory::{MemorySink, MemorySource};
pub use options::{ArgFault, Invocation, settings};
pub use serving::{RunFault, Settings, run};
pub use standard::{InputSource, OutputSink};
pub use streams::{Failed, Sink, Source};
