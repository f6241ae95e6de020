//! The ends of the program.
//!
//! A `Source` gives bytes and a `Sink` takes them. Each counts its faults, so that a failure is known to
//! be the end's own. There are ends over memory, for tests, and over the standard streams, and a buffer before any
//! sink.
#![tactic(auto)]

mod buffer;
mod buffered;
pub mod laws;
mod mem_sink;
mod mem_source;
mod sink;
mod source;
mod std_sink;
mod std_source;
#[cfg(test)]
mod tests;

pub use buffered::Buffered;
pub use mem_sink::MemSink;
pub use mem_source::MemSource;
pub use sink::{Sink, SinkFailed, write_all, write_both};
pub use source::{Source, SourceFailed};
pub use std_sink::StdSink;
pub use std_source::StdSource;
